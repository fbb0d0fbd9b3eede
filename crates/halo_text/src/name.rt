// Names.
ghost use Rattle.std.specs.Prelude.{◌↔◌, IsTrue};
ghost use Rattle.halo_text.specs.Name.{IsName};

/// The greatest length of a name, in bytes.
pub const LONGEST_NAME: usize = 32;

/// Whether the bytes are a name: an ASCII letter, and then ASCII letters, digits and `_`,
/// 1 to [`LONGEST_NAME`] of them in all. Letters of either case are allowed, and differ.
pub fn is_name(text: &[u8]) -> bool
    ensures { IsTrue result ↔ IsName text.now }
{
    if text.is_empty() || text.len() > LONGEST_NAME {
        return false;
    }
    if !text[0].is_ascii_alphabetic() {
        return false;
    }
    text.iter()
        .all(|byte| byte.is_ascii_alphanumeric() || *byte == b'_')
}
