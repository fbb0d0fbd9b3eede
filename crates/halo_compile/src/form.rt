// Compiled forms, and what is read off them.
ghost use Rattle.std.specs.Prelude.{◌≡◌, ℕ, ◌<◌, length};
ghost use Rattle.halo_status.specs.Pay.{PlainPay};
ghost use Rattle.halo_compile.specs.Form.{HasTime, IsForm, IsPolyOf, segment_at};
ghost use Rattle.halo_compile.specs.Weight.{greatest_weight};

use halo_poly::Poly;
use std::marker::Model;

/// A run of times at which a form has the same coefficients.
#[derive(Debug, Drop)]
pub struct Segment<const M: usize> {
    /// The first of its times.
    pub from: u16,
    /// The last of its times.
    pub to: u16,
    /// The coefficients of each set of lives.
    pub poly: Poly<M>,
}

/// The compiled form of a pay, seen as the list of its segments in the order of their times.
#[derive(Debug, Drop)]
pub struct Form<const M: usize> {
    pub(crate) segments: Vec<Segment<M>>,
}

impl<const M: usize> Model for Form<M> {
    ghost use Rattle.std.specs.Prelude.{List};
    ghost use Rattle.halo_compile.specs.declared.form.Segment.{Segment};

    ghost Value = { List (Segment M) };

    ghost view = { λ form. form.segments.items };
}

impl<const M: usize> Form<M> {
    /// The segments, in the order of their times.
    pub fn segments(&self) -> &[Segment<M>]
        ensures { result.now ≡ self.now }
    {
        self.segments.as_slice()
    }

    /// The segment at a place.
    pub fn segment(&self, place: usize) -> &Segment<M>
        requires { place < length self.now }
        ensures { result.now ≡ segment_at self.now place }
    {
        &self.segments.as_slice()[place]
    }

    /// The polynomial of a time of the form.
    pub fn at(&self, t: u16) -> &Poly<M>
        requires { (place : ℕ) × HasTime self.now t place }
        ensures { (pay : PlainPay) (n horizon : ℕ) → IsForm pay n horizon self.now →
            IsPolyOf pay n t result.now }
    {
        for segment in self.segments.as_slice() {
            if segment.from <= t && t <= segment.to {
                return &segment.poly;
            }
        }
        unreachable!()
    }

    /// The weight: the greatest sum of the sizes of a segment's coefficients, at least 1.
    pub fn weight(&self) -> u64
        ensures { result ≡ greatest_weight self.now }
    {
        let mut weight = 1;
        for i in 0..self.segments.len() {
            weight = self.segments[i].poly.weight().max(weight);
        }
        weight
    }
}
