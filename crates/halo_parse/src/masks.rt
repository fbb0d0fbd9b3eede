// Sets of names as masks.
ghost use Rattle.std.specs.Prelude.{◌≡◌, ◌≤◌, length, map};
ghost use Rattle.halo_symbol.specs.SymbolView.{plain_names};
ghost use Rattle.halo_check.specs.Draft.{all_names, is_among, mask_of_names};
ghost use Rattle.halo_contract.specs.PlainContract.{life_names};

use halo_check::{MOST_LIVES, is_among};
use halo_contract::LifeLine;
use halo_symbol::Names;
use halo_table::Tables;

/// Which of the lives have one of the names, life i as bit i. There are at most 12 lives.
pub fn mask_of_lives(lives: &[LifeLine], names: &[&[u8]]) -> u16
    requires { length lives.now ≤ MOST_LIVES }
    ensures { result ≡ mask_of_names (life_names lives.now) (map (λ name. name.now) names.now) }
{
    let mut mask = 0;
    for (place, line) in lives.iter().enumerate() {
        if is_among(names, line.name.bytes()) {
            mask |= 1 << place;
        }
    }
    mask
}

/// Which of the causes of the tables are in a set, the cause at place j of the tables as bit j.
pub fn mask_of_causes(tables: &Tables, names: &Names<'_>) -> u8
    ensures { result ≡ mask_of_names tables.now.causes (all_names (plain_names names.now)) }
{
    let mut mask = 0;
    for cause in 0..tables.causes() {
        let name = tables.cause_name(cause);
        if is_in_set(names, name.bytes()) {
            mask |= 1 << cause;
        }
    }
    mask
}

// Whether a name is one of a set.
fn is_in_set(names: &Names<'_>, name: &[u8]) -> bool
    ensures { result ≡ is_among (all_names (plain_names names.now)) name.now }
{
    names.first == name || is_among(&names.others, name)
}
