// Reading one line.
ghost use Rattle.std.specs.Prelude.{◌≡◌, ◌≢◌, ◌∷◌, ℕ, Err, false, IfOk, IfSome, List, MatchOption};
ghost use Rattle.halo_syntax.specs.Depth.{IsShallow};
ghost use Rattle.halo_syntax.specs.FileLines.{IsSilent, is_silent, words_of};
ghost use Rattle.halo_syntax.specs.Line.{Line as PlainLine};
ghost use Rattle.halo_syntax.specs.LineReading.{keyword};
ghost use Rattle.halo_syntax.specs.LineView.{plain_line};
ghost use Rattle.halo_syntax.specs.ProperLine.{SpellsLine};
ghost use Rattle.halo_syntax.specs.declared.form.Form.{Form as TheForm};

use crate::form::Form;
use crate::line::Line;
use crate::read_form::read_form;
use crate::words::words_in;
use halo_symbol::WordError;
use std::alloc::Global;

// The form of the lines that begin with a word.
fn read_keyword(word: &[u8]) -> Option<Form>
    ensures { MatchOption result
        ((form : TheForm) → word.now ≢ keyword form)
        (λ form. word.now ≡ keyword form) }
{
    match word {
        b"interest" => Some(Form::Interest),
        b"life" => Some(Form::Life),
        b"ties" => Some(Form::Ties),
        b"pay" => Some(Form::Pay),
        b"premium" => Some(Form::Premium),
        b"reserve" => Some(Form::Reserve),
        _ => None,
    }
}

// Whether a line that begins with this word says nothing.
fn is_comment(word: &[u8]) -> bool
    ensures { (words : List (List ℕ)) → result ≡ is_silent (word.now ∷ words) }
{
    matches!(word, [b'#', ..])
}

/// Reads the line that a text is, all of it; `None` where it says nothing: it has no word, or its
/// first word begins with `#`.
///
/// The line borrows its names and digits from the text. Names and numbers may have any length, and
/// no number is judged. A symbol or a status is refused where round brackets nest more than
/// [`halo_symbol::MOST_NESTING`] deep in it, which is only where those of the text open too far.
pub fn read_line(alloc: Global, text: &[u8]) -> Result<Option<Line<'_>>, WordError>
    ensures silent { IfOk result
        (λ read. MatchOption read
        (IsSilent text.now)
        (λ _. is_silent (words_of text.now) ≡ false)) }
    ensures spelled { IfOk result
        (λ read. IfSome read (λ line. SpellsLine (words_of text.now) (plain_line line))) }
    ensures speaks { result ≡ Err WordError.Syntax → is_silent (words_of text.now) ≡ false }
    ensures syntax { result ≡ Err WordError.Syntax → IsShallow text.now
        → (line : PlainLine) → SpellsLine (words_of text.now) line → ⊥ }
{
    let words = words_in(alloc, text)?;
    let [first, rest @ ..] = words.as_slice() else {
        return Ok(None);
    };
    if is_comment(first) {
        return Ok(None);
    }
    let Some(form) = read_keyword(first) else {
        return Err(WordError::Syntax);
    };
    let line = read_form(alloc, form, rest)?;
    Ok(Some(line))
}

#[cfg(test)]
mod tests;
