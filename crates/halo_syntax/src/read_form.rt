// The words behind the first one of a line, by form.
ghost use Rattle.std.specs.Prelude.{◌≡◌, ◌≢◌, ◌∷◌, Err, IfOk, MatchOption};
ghost use Rattle.halo_syntax.specs.Line.{rule_word};
ghost use Rattle.halo_syntax.specs.LineReading.{bytes_of, keyword, NoLine};
ghost use Rattle.halo_syntax.specs.LineView.{plain_line};
ghost use Rattle.halo_syntax.specs.ProperLine.{SpellsLine};
ghost use Rattle.halo_contract.specs.declared.ties.Ties.{Ties as TheTies};

use crate::form::Form;
use crate::interest::read_interest;
use crate::line::Line;
use crate::literals::{are_names, is_name, is_number, is_plain_name};
use halo_contract::Ties;
use halo_symbol::{WordError, read_status, read_symbol};
use std::alloc::Global;

// Reads the words behind `life`.
fn read_life<'a>(words: &[&'a [u8]]) -> Result<Line<'a>, WordError>
    ensures ok { IfOk result
        (λ line. SpellsLine (keyword Form.Life ∷ bytes_of words.now) (plain_line line)) }
    ensures syntax { result ≡ Err WordError.Syntax
        → NoLine (keyword Form.Life ∷ bytes_of words.now) }
{
    let &[name, table, age] = words else {
        return Err(WordError::Syntax);
    };
    if is_plain_name(name) && is_name(table) && is_number(age) {
        Ok(Line::Life { name, table, age })
    } else {
        Err(WordError::Syntax)
    }
}

// The rule for ties of this name.
fn read_rule(word: &[u8]) -> Option<Ties>
    ensures { MatchOption result
        ((rule : TheTies) → word.now ≢ rule_word rule)
        (λ rule. word.now ≡ rule_word rule) }
{
    match word {
        b"declared" => Some(Ties::Declared),
        b"even" => Some(Ties::Even),
        _ => None,
    }
}

// Reads the words behind `ties`.
fn read_ties<'a>(words: &[&'a [u8]]) -> Result<Line<'a>, WordError>
    ensures ok { IfOk result
        (λ line. SpellsLine (keyword Form.Ties ∷ bytes_of words.now) (plain_line line)) }
    ensures syntax { result ≡ Err WordError.Syntax
        → NoLine (keyword Form.Ties ∷ bytes_of words.now) }
{
    let &[word] = words else {
        return Err(WordError::Syntax);
    };
    match read_rule(word) {
        Some(rule) => Ok(Line::Ties(rule)),
        None => Err(WordError::Syntax),
    }
}

// Reads the words behind `reserve`.
fn read_reserve<'a>(alloc: Global, words: &[&'a [u8]]) -> Result<Line<'a>, WordError>
    ensures ok { IfOk result
        (λ line. SpellsLine (keyword Form.Reserve ∷ bytes_of words.now) (plain_line line)) }
    ensures syntax { result ≡ Err WordError.Syntax
        → NoLine (keyword Form.Reserve ∷ bytes_of words.now) }
{
    let [time, names @ ..] = words else {
        return Err(WordError::Syntax);
    };
    if is_number(time) && are_names(names) {
        let names = Vec::from_slice(alloc, names)?;
        Ok(Line::Reserve { time, names })
    } else {
        Err(WordError::Syntax)
    }
}

// Reads the words behind `pay`.
fn read_pay<'a>(alloc: Global, words: &[&'a [u8]]) -> Result<Line<'a>, WordError>
    ensures ok { IfOk result
        (λ line. SpellsLine (keyword Form.Pay ∷ bytes_of words.now) (plain_line line)) }
    ensures syntax { result ≡ Err WordError.Syntax
        → NoLine (keyword Form.Pay ∷ bytes_of words.now) }
{
    let &[amount, symbol] = words else {
        return Err(WordError::Syntax);
    };
    if !is_number(amount) {
        return Err(WordError::Syntax);
    }
    let symbol = read_symbol(alloc, symbol)?;
    Ok(Line::Pay { amount, symbol })
}

// Reads the words behind `premium`.
fn read_premium<'a>(alloc: Global, words: &[&'a [u8]]) -> Result<Line<'a>, WordError>
    ensures ok { IfOk result
        (λ line. SpellsLine (keyword Form.Premium ∷ bytes_of words.now) (plain_line line)) }
    ensures syntax { result ≡ Err WordError.Syntax
        → NoLine (keyword Form.Premium ∷ bytes_of words.now) }
{
    let &[status] = words else {
        return Err(WordError::Syntax);
    };
    let status = read_status(alloc, status)?;
    Ok(Line::Premium(status))
}

// Reads the words behind the first one of a line of this form.
pub fn read_form<'a>(alloc: Global, form: Form, words: &[&'a [u8]]) -> Result<Line<'a>, WordError>
    ensures ok { IfOk result
        (λ line. SpellsLine (keyword form ∷ bytes_of words.now) (plain_line line)) }
    ensures syntax { result ≡ Err WordError.Syntax
        → NoLine (keyword form ∷ bytes_of words.now) }
{
    match form {
        Form::Interest => read_interest(alloc, words),
        Form::Life => read_life(words),
        Form::Ties => read_ties(words),
        Form::Pay => read_pay(alloc, words),
        Form::Premium => read_premium(alloc, words),
        Form::Reserve => read_reserve(alloc, words),
    }
}
