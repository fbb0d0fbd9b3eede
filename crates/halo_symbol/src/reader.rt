// The pieces that are left to read.
ghost use Rattle.std.specs.Prelude.{◌≡◌, ℕ, IsTrue, true, false, [], ◌∷◌, List, map, MatchOption, MatchResult};
ghost use Rattle.halo_symbol.specs.Piece as plain;
ghost use Rattle.halo_symbol.specs.PieceView.{plain_piece};
ghost use Rattle.halo_symbol.specs.Next.{NotNext, NoNumberNext, NoNameNext};

use crate::error::WordError;
use crate::piece::Piece;
use std::marker::Model;

// Reads pieces from the front, and is seen as those that are left.
#[derive(Drop)]
pub struct Reader<'p, 'a> {
    left: &'p [Piece<'a>],
}

impl<'p, 'a> Model for Reader<'p, 'a> {
    ghost use Rattle.std.specs.Prelude.{List, map};
    ghost use Rattle.halo_symbol.specs.Piece.{Piece, coded_pieces};
    ghost use Rattle.halo_symbol.specs.PieceView.{plain_piece};

    ghost Value = { List Piece };

    ghost coded = { coded_pieces };

    ghost view = { λ reader. map plain_piece reader.left.now };
}

impl<'p, 'a> Reader<'p, 'a> {
    // A reader with all of these left.
    pub fn new(pieces: &'p [Piece<'a>]) -> Reader<'p, 'a>
        ensures { result ≡ map plain_piece pieces.now }
    {
        Reader { left: pieces }
    }

    // The next piece.
    pub fn next(&mut self) -> Option<Piece<'a>>
        ensures { MatchOption result
            (self.old ≡ [])
            (λ piece. self.old ≡ plain_piece piece ∷ self.new) }
    {
        match self.left {
            [] => None,
            [first, rest @ ..] => {
                self.left = rest;
                Some(*first)
            }
        }
    }

    // Whether the next piece is this byte, which is then read.
    pub fn takes(&mut self, byte: u8) -> bool
        ensures yes { result ≡ true → self.old ≡ plain.byte byte ∷ self.new }
        ensures no { result ≡ false → self.new ≡ self.old × NotNext byte self.old }
    {
        match self.left {
            [Piece::Byte(first), rest @ ..] if *first == byte => {
                self.left = rest;
                true
            }
            _ => false,
        }
    }

    // Reads this byte.
    pub fn expect(&mut self, byte: u8) -> Result<(), WordError>
        ensures { MatchResult result
            (λ _. self.old ≡ plain.byte byte ∷ self.new)
            (λ error. (error ≡ WordError.Syntax) × NotNext byte self.old) }
    {
        if self.takes(byte) {
            Ok(())
        } else {
            Err(WordError::Syntax)
        }
    }

    // Reads a number and gives its digits, where one comes next.
    pub fn takes_number(&mut self) -> Option<&'a [u8]>
        ensures { MatchOption result
            (self.new ≡ self.old × NoNumberNext self.old)
            (λ digits. self.old ≡ plain.number digits.now ∷ self.new) }
    {
        match self.left {
            [Piece::Number(digits), rest @ ..] => {
                self.left = rest;
                Some(*digits)
            }
            _ => None,
        }
    }

    // Reads a number, and gives its digits.
    pub fn number(&mut self) -> Result<&'a [u8], WordError>
        ensures { MatchResult result
            (λ digits. self.old ≡ plain.number digits.now ∷ self.new)
            (λ error. (error ≡ WordError.Syntax) × NoNumberNext self.old) }
    {
        match self.takes_number() {
            Some(digits) => Ok(digits),
            None => Err(WordError::Syntax),
        }
    }

    // Reads a name other than `bar`.
    pub fn name(&mut self) -> Result<&'a [u8], WordError>
        ensures { MatchResult result
            (λ text. self.old ≡ plain.name text.now ∷ self.new)
            (λ error. (error ≡ WordError.Syntax) × NoNameNext self.old) }
    {
        match self.next() {
            Some(Piece::Name(text)) => Ok(text),
            _ => Err(WordError::Syntax),
        }
    }

    // Finds that nothing is left.
    pub fn end(&mut self) -> Result<(), WordError>
        ensures { MatchResult result
            (λ _. self.old ≡ [])
            (λ error. (error ≡ WordError.Syntax) × (self.old ≡ [] → ⊥)) }
    {
        match self.next() {
            None => Ok(()),
            Some(_) => Err(WordError::Syntax),
        }
    }
}
