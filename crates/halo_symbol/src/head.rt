// Heads of symbols: a name that is taken apart.
ghost use Rattle.std.specs.Prelude.{◌≡◌, ◌≤◌, List, ℕ, All, take, drop, length, IfSome, IfNone};
ghost use Rattle.halo_text.specs.Number.{IsDigit};
ghost use Rattle.halo_lex.specs.Lexeme.{BeginsWithout};
ghost use Rattle.halo_status.specs.declared.pay.Kind.{Kind as PlainKind};
ghost use Rattle.halo_symbol.specs.Symbol.{Vary as PlainVary};
ghost use Rattle.halo_symbol.specs.Bytes.{head_text, kind_text};
ghost use Rattle.halo_symbol.specs.Proper.{IsProperVary};
ghost use Rattle.halo_symbol.specs.SymbolView.{plain_vary};

use crate::symbol::Vary;
use halo_status::Kind;

// How the payments of a symbol vary, and what it is.
#[derive(Clone, Copy, Debug)]
pub struct Head<'a> {
    pub vary: Vary<'a>,
    pub kind: Kind,
}

// The kind that these letters stand for.
fn read_kind(letters: &[u8]) -> Option<Kind>
    ensures some { IfSome result (λ kind. letters.now ≡ kind_text kind) }
    ensures none { IfNone result ((kind : PlainKind) → letters.now ≡ kind_text kind → ⊥) }
{
    match letters {
        b"A" => Some(Kind::Insurance),
        b"a" => Some(Kind::Immediate),
        b"ad" => Some(Kind::Due),
        _ => None,
    }
}

// How many digits stand in front.
#[tactic(auto, using(halo_text::proofs::Digits::all_more))]
fn digit_count(bytes: &[u8]) -> usize
    ensures within { result ≤ length bytes.now }
    ensures digits { All IsDigit (take result bytes.now) }
    ensures ends { BeginsWithout IsDigit (drop result bytes.now) }
{
    let mut count = 0;
    while count < bytes.len() && bytes[count].is_ascii_digit() {
        count += 1;
    }
    count
}

// The head that a name is.
pub fn read_head<'a>(name: &'a [u8]) -> Option<Head<'a>>
    ensures text { IfSome result (λ head. name.now ≡ head_text (plain_vary head.vary) head.kind) }
    ensures proper { IfSome result (λ head. IsProperVary (plain_vary head.vary)) }
    ensures none { IfNone result ((vary : PlainVary) (kind : PlainKind) → IsProperVary vary
        → name.now ≡ head_text vary kind → ⊥) }
{
    match name {
        [b'I', letters @ ..] => Some(Head {
            vary: Vary::Increasing,
            kind: read_kind(letters)?,
        }),
        [b'D', rest @ ..] => {
            let (count, letters) = rest.split_at(digit_count(rest));
            if count.is_empty() {
                return None;
            }
            Some(Head {
                vary: Vary::Decreasing(count),
                kind: read_kind(letters)?,
            })
        }
        _ => Some(Head {
            vary: Vary::Level,
            kind: read_kind(name)?,
        }),
    }
}
