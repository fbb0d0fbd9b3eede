// Names among names.
ghost use Rattle.std.specs.Prelude.{◌≡◌, map};
ghost use Rattle.halo_check.specs.Draft.{is_among};

/// Whether a name is one of some names.
pub fn is_among(names: &[&[u8]], name: &[u8]) -> bool
    ensures { result ≡ is_among (map (λ name. name.now) names.now) name.now }
{
    names.iter().any(|other| *other == name)
}
