// The lives of a contract.
ghost use Rattle.std.specs.Prelude.{◌≡◌, IfOk, map};

use crate::Memory;
use halo_contract::LifeLine;
use halo_table::Life;
use std::alloc::Global;

/// The lives of a contract, in the order in which they are declared.
pub fn declared_lives(alloc: Global, lines: &[LifeLine]) -> Result<Vec<Life>, Memory>
    ensures { IfOk result (λ lives. lives.items ≡ map (λ line. line.life) lines.now) }
{
    let mut lives = Vec::new(alloc);
    for line in lines {
        lives.push(line.life)?;
    }
    Ok(lives)
}
