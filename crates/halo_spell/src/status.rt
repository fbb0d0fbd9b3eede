// The text of a status.
ghost use Rattle.std.specs.Prelude.{◌≡◌, ◌++◌, OnOk, length};
ghost use Rattle.std.specs.Option.{option_map};
ghost use Rattle.halo_status.specs.Naming.{AnyNamesLivesBelow, NamesLivesBelow};
ghost use Rattle.halo_status.specs.StatusTree.{tree_of, trees_in};
ghost use Rattle.halo_symbol.specs.Bytes.{body_bytes, content_bytes, in_round, members_bytes};
ghost use Rattle.halo_symbol.specs.Tree as written;
ghost use Rattle.halo_contract.specs.PlainContract.{life_names};
ghost use Rattle.halo_spell.specs.Canonical.{canonical_mark, canonical_members, canonical_node, list_of};
ghost use Rattle.halo_spell.specs.StatusText.{bytes_at, mark_bytes_at, separator_at};

use crate::Memory;
use crate::text::{write_bytes, write_number};
use halo_contract::LifeLine;
use halo_status::{Mark, Members, Status};

/// Where a status stands, which decides whether round brackets stand round it.
#[derive(Clone, Copy, PartialEq, Eq)]
pub enum Position {
    /// By itself.
    Alone,
    /// On a side of `|`.
    Side,
    /// As a member of a list.
    Member,
}

/// Writes a status behind a text. Each life that it names has a place in `lives`.
#[cycle(spelling)]
#[tactic(auto, using(halo_status::proofs::Shapes::shapes))]
pub fn write_status(
    status: &Status,
    position: Position,
    lives: &[LifeLine],
    into: &mut Vec<u8>,
) -> Result<(), Memory>
    requires { NamesLivesBelow (length lives.now) (tree_of status.now) }
    ensures { OnOk result (into.new.items ≡ into.old.items
        ++ bytes_at position (life_names lives.now) (tree_of status.now)) }
{
    match status {
        Status::Life(i) => write_bytes(lives[usize::from(*i)].name.bytes(), into),
        Status::Term(years) => {
            into.push(b'<')?;
            write_number(u64::from(*years), into)?;
            write_bytes(b">", into)
        }
        Status::Joint(members) => match position {
            Position::Member => write_bracketed(members, lives, into),
            _ => write_members(members, None, lives, into),
        },
        Status::Last(members) => {
            write_bytes(b"bar", into)?;
            write_bracketed(members, lives, into)
        }
        Status::AtLeast(rank, members) => {
            write_number(u64::from(*rank), into)?;
            write_bytes(b"/", into)?;
            write_bracketed(members, lives, into)
        }
        Status::Exactly(rank, members) => {
            into.push(b'[')?;
            write_number(u64::from(*rank), into)?;
            write_bytes(b"]/", into)?;
            write_bracketed(members, lives, into)
        }
        Status::After(first, then) => match position {
            Position::Alone => write_reversion(first, then, lives, into),
            _ => {
                into.push(b'(')?;
                write_reversion(first, then, lives, into)?;
                write_bytes(b")", into)
            }
        },
    }
}

// Writes a reversion: the second status after the first.
#[cycle(spelling)]
fn write_reversion(
    first: &Status,
    then: &Status,
    lives: &[LifeLine],
    into: &mut Vec<u8>,
) -> Result<(), Memory>
    requires first { NamesLivesBelow (length lives.now) (tree_of first.now) }
    requires then { NamesLivesBelow (length lives.now) (tree_of then.now) }
    ensures { OnOk result (into.new.items ≡ into.old.items
        ++ body_bytes (written.reversion
        (list_of (canonical_node (life_names lives.now) (tree_of first.now)))
        (list_of (canonical_node (life_names lives.now) (tree_of then.now))))) }
{
    write_status(first, Position::Side, lives, into)?;
    into.push(b'|')?;
    write_status(then, Position::Side, lives, into)
}

// Writes a list in round brackets.
#[cycle(spelling)]
fn write_bracketed(members: &Members, lives: &[LifeLine], into: &mut Vec<u8>) -> Result<(), Memory>
    requires { AnyNamesLivesBelow (length lives.now) (trees_in members.now) }
    ensures { OnOk result (into.new.items ≡ into.old.items
        ++ in_round (members_bytes (canonical_members (life_names lives.now)
        (trees_in members.now)))) }
{
    into.push(b'(')?;
    write_members(members, None, lives, into)?;
    into.push(b')')?;
    Ok(())
}

/// Writes a list behind a text, with a mark on the member at its place where there is one.
#[cycle(spelling)]
pub fn write_members(
    members: &Members,
    mark: Option<Mark>,
    lives: &[LifeLine],
    into: &mut Vec<u8>,
) -> Result<(), Memory>
    requires { AnyNamesLivesBelow (length lives.now) (trees_in members.now) }
    ensures { OnOk result (into.new.items ≡ into.old.items
        ++ content_bytes (option_map canonical_mark mark)
        (written.list (canonical_members (life_names lives.now) (trees_in members.now)))) }
{
    for place in 0..members.len() {
        write_separator_at(place, into)?;
        write_status(members.at(place), Position::Member, lives, into)?;
        write_mark_at(mark, place, into)?;
    }
    Ok(())
}

// Writes what stands before the member at a place: `:`, but nothing before the first.
fn write_separator_at(place: usize, into: &mut Vec<u8>) -> Result<(), Memory>
    ensures { OnOk result (into.new.items ≡ into.old.items ++ separator_at place) }
{
    if place > 0 {
        into.push(b':')?;
    }
    Ok(())
}

// Writes a mark where it is that of the member at this place.
fn write_mark_at(mark: Option<Mark>, place: usize, into: &mut Vec<u8>) -> Result<(), Memory>
    ensures { OnOk result (into.new.items ≡ into.old.items ++ mark_bytes_at mark place) }
{
    match mark {
        Some(mark) if usize::from(mark.member) == place => {
            into.push(b'^')?;
            write_number(u64::from(mark.rank), into)
        }
        _ => Ok(()),
    }
}
