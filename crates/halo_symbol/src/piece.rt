// The pieces of a word.
ghost use Rattle.std.specs.Prelude.{◌≡◌, ◌≤◌, List, map, length, IfOk, Err};
ghost use Rattle.halo_lex.specs.Cut.{lexeme_of};
ghost use Rattle.halo_symbol.specs.Piece.{Piece as PlainPiece, ArePieces, IsPieceOf, piece_texts};
ghost use Rattle.halo_symbol.specs.PieceView.{plain_piece};

use crate::error::WordError;
use halo_lex::{LexError, Token, TokenKind, symbol_tokens};
use std::alloc::Global;

// A lexeme with its text, where the name `bar` is apart from the others.
#[derive(Clone, Copy, Debug)]
pub enum Piece<'a> {
    Name(&'a [u8]),
    Bar,
    Number(&'a [u8]),
    Byte(u8),
}

// The piece that a token of a word is.
fn piece_at<'a>(word: &'a [u8], token: Token) -> Piece<'a>
    requires order { token.from ≤ token.to }
    requires within { token.to ≤ length word.now }
    ensures { IsPieceOf (lexeme_of word.now token) (plain_piece result) }
{
    let text = &word[token.from..token.to];
    match token.kind {
        TokenKind::Name if text == b"bar".as_slice() => Piece::Bar,
        TokenKind::Name => Piece::Name(text),
        TokenKind::Number => Piece::Number(text),
        TokenKind::Byte(byte) => Piece::Byte(byte),
    }
}

// The pieces of a word, in order.
pub fn pieces(alloc: Global, word: &[u8]) -> Result<Vec<Piece<'_>>, WordError>
    ensures ok { IfOk result (λ pieces. ArePieces (map plain_piece pieces.items)) }
    ensures whole { IfOk result (λ pieces. piece_texts (map plain_piece pieces.items) ≡ word.now) }
    ensures syntax { result ≡ Err WordError.Syntax
        → (pieces : List PlainPiece) → ArePieces pieces → piece_texts pieces ≡ word.now → ⊥ }
{
    let tokens = match symbol_tokens(alloc, word) {
        Ok(tokens) => tokens,
        Err(LexError::NotToken(_)) => return Err(WordError::Syntax),
        Err(LexError::Memory) => return Err(WordError::Memory),
    };
    let mut found = Vec::new(alloc);
    for token in &tokens {
        found.push(piece_at(word, *token))?;
    }
    Ok(found)
}
