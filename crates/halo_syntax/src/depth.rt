// How far the round brackets of a line open.
ghost use Rattle.std.specs.Prelude.{◌↔◌, IsTrue};
ghost use Rattle.halo_syntax.specs.Depth.{IsShallow};

use halo_symbol::MOST_NESTING;

/// Whether, up to each place of the line, the round brackets opened exceed those closed by at
/// most [`MOST_NESTING`].
pub fn is_shallow(line: &[u8]) -> bool
    ensures { IsTrue result ↔ IsShallow line.now }
{
    let mut opened = 0;
    let mut closed = 0;
    for byte in line {
        match *byte {
            b'(' => opened += 1,
            b')' => closed += 1,
            _ => {}
        }
        if opened > closed + MOST_NESTING {
            return false;
        }
    }
    true
}
