// The forms of a contract's lines.
ghost use Rattle.std.specs.Prelude.{◌≡◌, ◌+◌, MatchOption};
ghost use Rattle.halo_syntax.specs.Forms.{place_of_form};

/// The form of a line, in the order in which the forms come in a contract.
#[derive(Clone, Copy, Debug, PartialEq, Eq)]
pub enum Form {
    /// `interest P/Q`, and any number of pairs `YEAR P/Q`.
    Interest,
    /// `life NAME TABLE AGE`.
    Life,
    /// `ties RULE`.
    Ties,
    /// `pay AMOUNT SYMBOL`.
    Pay,
    /// `premium STATUS`.
    Premium,
    /// `reserve T NAME ..`.
    Reserve,
}

impl Form {
    /// The form that comes behind it in the order, where it is not the last.
    pub fn next(self) -> Option<Form>
        ensures { MatchOption result (place_of_form self ≡ 5)
            (λ later. place_of_form later ≡ place_of_form self + 1) }
    {
        match self {
            Form::Interest => Some(Form::Life),
            Form::Life => Some(Form::Ties),
            Form::Ties => Some(Form::Pay),
            Form::Pay => Some(Form::Premium),
            Form::Premium => Some(Form::Reserve),
            Form::Reserve => None,
        }
    }
}
