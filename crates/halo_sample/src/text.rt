// The parts of a line.
ghost use Rattle.std.specs.Prelude.{◌≡◌, ◌++◌, OnOk};
ghost use Rattle.std.specs.Fmt.{decimal};

use crate::Memory;
use itoa::Buffer;

/// Writes bytes behind a text.
pub fn write_bytes(bytes: &[u8], into: &mut Vec<u8>) -> Result<(), Memory>
    ensures { OnOk result (into.new.items ≡ into.old.items ++ bytes.now) }
{
    into.extend_from_slice(bytes)?;
    Ok(())
}

/// Writes a word and a number behind a text, the number without leading zeros.
pub fn write_numbered(word: &[u8], number: u64, into: &mut Vec<u8>) -> Result<(), Memory>
    ensures { OnOk result (into.new.items ≡ into.old.items ++ (word.now ++ decimal number)) }
{
    let mut digits = Buffer::new();
    write_bytes(word, into)?;
    write_bytes(digits.format(number).as_bytes(), into)
}
