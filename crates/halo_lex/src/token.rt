// Tokens of a word.

/// What a token is.
#[derive(Clone, Copy, Debug, PartialEq, Eq)]
pub enum TokenKind {
    /// An ASCII letter, and then ASCII letters, digits and `_`, of any length.
    Name,
    /// One or more ASCII digits.
    Number,
    /// One of the bytes of `[]{}()<>:|/^,`.
    Byte(u8),
}

/// A token of a word: what it is, and where it stands. Its text is that part of the word.
#[derive(Clone, Copy, Debug, PartialEq, Eq)]
pub struct Token {
    /// What the token is.
    pub kind: TokenKind,
    /// The place of its first byte in the word, from 0.
    pub from: usize,
    /// The place behind its last byte.
    pub to: usize,
}
