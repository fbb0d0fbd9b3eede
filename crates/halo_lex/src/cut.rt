// Words into tokens.
ghost use Rattle.std.specs.Prelude.{◌≤◌, ◌<◌, length, slice_index, IfErr, IfNone, IfOk, IfSome};
ghost use Rattle.std.specs.Char.{is_ascii_digit};
ghost use Rattle.halo_text.specs.Name.{is_name_byte};
ghost use Rattle.halo_lex.specs.Cut.{BeginsNoLexeme, IsCut, IsNextToken, IsTold};
ghost use Rattle.halo_lex.specs.Run.{IsRun};

use crate::token::{Token, TokenKind};
use std::alloc::Global;
use thiserror::Error;

// The bytes that are tokens by themselves.
const SYMBOL_BYTES: &[u8] = b"[]{}()<>:|/^,";

/// Why a word has no tokens.
#[derive(Clone, Copy, Debug, PartialEq, Eq, Error)]
pub enum LexError {
    /// The byte at this place, from 0, begins no token, and the bytes before it are tokens.
    #[error("no token begins at this byte")]
    NotToken(usize),
    /// There was not enough memory.
    #[error("out of memory")]
    Memory,
}

// The place behind the bytes of a name that stand from `from` on.
fn name_end(word: &[u8], from: usize) -> usize
    requires { from ≤ length word.now }
    ensures { IsRun is_name_byte word.now from result }
{
    let mut to = from;
    while to < word.len() && (word[to].is_ascii_alphanumeric() || word[to] == b'_') {
        to += 1;
    }
    to
}

// The place behind the digits that stand from `from` on.
fn number_end(word: &[u8], from: usize) -> usize
    requires { from ≤ length word.now }
    ensures { IsRun is_ascii_digit word.now from result }
{
    let mut to = from;
    while to < word.len() && word[to].is_ascii_digit() {
        to += 1;
    }
    to
}

// The token that begins at `from`, taken as long as it goes.
fn next_token(word: &[u8], from: usize) -> Option<Token>
    requires { from < length word.now }
    ensures some { IfSome result (IsNextToken word.now from) }
    ensures none { IfNone result (BeginsNoLexeme (slice_index word.now from)) }
{
    let first = word[from];
    if first.is_ascii_alphabetic() {
        Some(Token {
            kind: TokenKind::Name,
            from,
            to: name_end(word, from),
        })
    } else if first.is_ascii_digit() {
        Some(Token {
            kind: TokenKind::Number,
            from,
            to: number_end(word, from),
        })
    } else if SYMBOL_BYTES.contains(&first) {
        Some(Token {
            kind: TokenKind::Byte(first),
            from,
            to: from + 1,
        })
    } else {
        None
    }
}

/// The tokens of a word, in order: they follow each other without gap from 0 to its end. Otherwise
/// the first place whose byte begins no token.
pub fn symbol_tokens(alloc: Global, word: &[u8]) -> Result<Vec<Token>, LexError>
    ensures ok { IfOk result (λ tokens. IsCut word.now tokens.items) }
    ensures err { IfErr result (IsTold word.now) }
{
    let mut found = Vec::new(alloc);
    let mut from = 0;
    while from < word.len() {
        let Some(token) = next_token(word, from) else {
            return Err(LexError::NotToken(from));
        };
        found.push(token).map_err(|_| LexError::Memory)?;
        from = token.to;
    }
    Ok(found)
}
