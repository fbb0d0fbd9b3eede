// A contract as far as its lines have been read.
ghost use Rattle.std.specs.Prelude.{◌≡◌, OnOk};
ghost use Rattle.halo_table.specs.DecrementTable.{TableFile};
ghost use Rattle.halo_check.specs.Addition.{Adds};
ghost use Rattle.halo_check.specs.Draft.{empty_draft, with_line};
ghost use Rattle.halo_syntax.specs.Line.{Line};
ghost use Rattle.halo_check.specs.DraftView.{draft_of};

use crate::Memory;
use crate::addition::Addition;
use halo_contract::{LifeLine, ReserveLine, Ties};
use halo_interest::Interest;
use halo_status::Pay;
use std::alloc::Global;

/// What the lines of a contract have said so far.
#[derive(Drop)]
pub struct Draft {
    pub interest: Option<Interest>,
    pub lives: Vec<LifeLine>,
    pub ties: Option<Ties>,
    pub pays: Vec<Pay>,
    pub premium: Option<Pay>,
    pub reserves: Vec<ReserveLine>,
}

impl Draft {
    /// What is said before the first line. It takes no memory.
    pub fn new(alloc: Global) -> Draft
        ensures { draft_of result ≡ empty_draft }
    {
        Draft {
            interest: None,
            lives: Vec::new(alloc),
            ties: None,
            pays: Vec::new(alloc),
            premium: None,
            reserves: Vec::new(alloc),
        }
    }

    /// Adds what a line adds.
    #[tactic(auto, unfolding(crate::specs::Draft::with_line))]
    pub fn add(&mut self, addition: Addition) -> Result<(), Memory>
        ensures { OnOk result ((tables : TableFile) (line : Line)
            → Adds tables (draft_of self.old) line addition
            → draft_of self.new ≡ with_line tables (draft_of self.old) line) }
    {
        match addition {
            Addition::Interest(interest) => self.interest = Some(interest),
            Addition::Life(life) => self.lives.push(life)?,
            Addition::Ties(ties) => self.ties = Some(ties),
            Addition::Pay(pay) => self.pays.push(pay)?,
            Addition::Premium(pay) => self.premium = Some(pay),
            Addition::Reserve(reserve) => self.reserves.push(reserve)?,
        }
        Ok(())
    }
}
