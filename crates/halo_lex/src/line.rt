// The words of a line.
ghost use Rattle.std.specs.Prelude.{◌≡◌, ◌≤◌, length, not, IfOk, IfNone, IfSome};
ghost use Rattle.halo_lex.specs.Run.{IsRun};
ghost use Rattle.halo_lex.specs.Words.{AreBlanksFrom, AreWords, IsNextWord, is_blank};

use crate::memory::Memory;
use std::alloc::Global;

/// A part of a line.
#[derive(Clone, Copy, Debug, PartialEq, Eq)]
pub struct Span {
    /// The place of its first byte in the line, from 0.
    pub from: usize,
    /// The place behind its last byte.
    pub to: usize,
}

// Whether a byte separates words.
fn is_blank(byte: u8) -> bool
    ensures { result ≡ is_blank byte }
{
    byte == b' ' || byte == b'\t'
}

// The place behind the blanks that stand from `from` on.
fn blanks_end(line: &[u8], from: usize) -> usize
    requires { from ≤ length line.now }
    ensures { IsRun is_blank line.now from result }
{
    let mut to = from;
    while to < line.len() && is_blank(line[to]) {
        to += 1;
    }
    to
}

// The place behind the bytes other than blanks that stand from `from` on.
fn word_end(line: &[u8], from: usize) -> usize
    requires { from ≤ length line.now }
    ensures { IsRun (λ byte. not (is_blank byte)) line.now from result }
{
    let mut to = from;
    while to < line.len() && !is_blank(line[to]) {
        to += 1;
    }
    to
}

// The first word behind the place `behind`, which is not inside a word.
fn next_word(line: &[u8], behind: usize) -> Option<Span>
    requires { behind ≤ length line.now }
    ensures some { IfSome result (IsNextWord line.now behind) }
    ensures none { IfNone result (AreBlanksFrom line.now behind) }
{
    let from = blanks_end(line, behind);
    if from == line.len() {
        return None;
    }
    Some(Span {
        from,
        to: word_end(line, from),
    })
}

/// The words of a line, in order. Words are separated by spaces and tabs, and by nothing else; a
/// word is that part of the line.
pub fn words(alloc: Global, line: &[u8]) -> Result<Vec<Span>, Memory>
    ensures { IfOk result (λ spans. AreWords line.now spans.items) }
{
    let mut found = Vec::new(alloc);
    let mut behind = 0;
    while let Some(word) = next_word(line, behind) {
        found.push(word).map_err(|_| Memory)?;
        behind = word.to;
    }
    Ok(found)
}
