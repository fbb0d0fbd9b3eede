// The lines of a file.
ghost use Rattle.std.specs.Prelude.{◌≡◌, ◌∷◌, [], drop, MatchOption};
ghost use Rattle.std.specs.List.{position_or_len};
ghost use Rattle.halo_syntax.specs.FileLines.{is_line_feed, lines_of, without_mark, without_return};

use std::marker::Model;

/// Gives the lines of a file one after the other, and is seen as the lines that are left.
#[derive(Drop)]
pub struct Lines<'a> {
    left: &'a [u8],
}

impl<'a> Model for Lines<'a> {
    ghost use Rattle.std.specs.Prelude.{ℕ, List};
    ghost use Rattle.halo_syntax.specs.LinesLeft.{lines_left};

    ghost Value = { List (List ℕ) };

    ghost view = { λ lines. lines_left lines.left.now };
}

// The bytes behind the byte-order mark that they may begin with.
fn without_mark(bytes: &[u8]) -> &[u8]
    ensures { result.now ≡ without_mark bytes.now }
{
    match bytes {
        [0xEF, 0xBB, 0xBF, rest @ ..] => rest,
        _ => bytes,
    }
}

// The place of the first line feed, and the number of bytes where there is none.
fn line_end(bytes: &[u8]) -> usize
    ensures { result ≡ position_or_len is_line_feed bytes.now }
{
    bytes
        .iter()
        .position(|byte| *byte == b'\n')
        .unwrap_or(bytes.len())
}

// A line without the one carriage return that it may end with.
fn without_return(line: &[u8]) -> &[u8]
    ensures { result.now ≡ without_return line.now }
{
    line.strip_suffix(b"\r").unwrap_or(line)
}

// The bytes behind the first.
fn without_first(bytes: &[u8]) -> &[u8]
    ensures { result.now ≡ drop 1 bytes.now }
{
    match bytes {
        [] => bytes,
        [_, rest @ ..] => rest,
    }
}

impl<'a> Lines<'a> {
    /// The lines of a file. A byte-order mark before the first is no part of it.
    pub fn new(bytes: &'a [u8]) -> Lines<'a>
        ensures { result ≡ lines_of bytes.now }
    {
        Lines {
            left: without_mark(bytes),
        }
    }

    /// The next line, without its line feed and without the one carriage return before that;
    /// `None` where all lines have been given. Nothing behind the last line feed is no line.
    pub fn next(&mut self) -> Option<&'a [u8]>
        ensures { MatchOption result (self.old ≡ []) (λ line. self.old ≡ line.now ∷ self.new) }
    {
        let left = self.left;
        if left.is_empty() {
            return None;
        }
        let end = line_end(left);
        let (line, rest) = left.split_at(end);
        self.left = without_first(rest);
        Some(without_return(line))
    }
}
