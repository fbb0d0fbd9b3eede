// Names of tables, causes and lives.
ghost use Rattle.std.specs.Prelude.{◌≡◌, IfSome, IfNone};
ghost use Rattle.halo_text.specs.Name.{IsName};

use arrayvec::ArrayVec;
use halo_text::{LONGEST_NAME, is_name};
use std::marker::Model;

/// A name: an ASCII letter, and then ASCII letters, digits and `_`, 1 to 32 bytes, seen as the
/// list of these bytes. Names compare byte by byte.
#[derive(Clone, Drop)]
pub struct Name {
    text: ArrayVec<u8, LONGEST_NAME>,
}

impl Model for Name {
    ghost use Rattle.std.specs.Prelude.{ℕ, List};
    ghost use Rattle.halo_text.specs.Name.{IsName};

    ghost Value = { List ℕ };

    ghost view = { λ n. n.text.items };

    ghost invariant = { λ n. IsName n.text.items };
}

impl Name {
    /// The name with these bytes, or `None` exactly where they are not a name. It takes no memory.
    pub fn new(bytes: &[u8]) -> Option<Name>
        ensures name { IfSome result (λ name. IsName bytes.now × (name ≡ bytes.now)) }
        ensures none { IfNone result (IsName bytes.now → ⊥) }
    {
        if !is_name(bytes) {
            return None;
        }
        let mut text = ArrayVec::new();
        match text.try_extend_from_slice(bytes) {
            Ok(()) => Some(Name { text }),
            Err(_) => None,
        }
    }

    /// The bytes of the name.
    pub fn bytes(&self) -> &[u8]
        ensures same { result.now ≡ self.now }
        ensures named { IsName self.now }
    {
        self.text.as_slice()
    }

    /// The same name once more. It takes no memory, as `clone` may say it does.
    pub(crate) fn copied(&self) -> Name
        ensures { result ≡ self.now }
    {
        match Name::new(self.bytes()) {
            Some(name) => name,
            None => unreachable!(),
        }
    }
}
