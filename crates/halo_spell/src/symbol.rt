// The canonical symbol of a pay.
ghost use Rattle.std.specs.Prelude.{◌≡◌, ◌<◌, ◌≤◌, ◌^◌, ◌++◌, IfSome, OnOk, length};
ghost use Rattle.std.specs.Option.{option_and_then, option_map};
ghost use Rattle.halo_status.specs.Naming.{NamesLivesBelow};
ghost use Rattle.halo_status.specs.Pay.{pay_of};
ghost use Rattle.halo_symbol.specs.Bytes.{causes_bytes, content_bytes, defer_bytes, head_text, kind_text};
ghost use Rattle.halo_contract.specs.PlainContract.{life_names};
ghost use Rattle.halo_contract.specs.ValidContract.{IsValidAmong};
ghost use Rattle.halo_spell.specs.Canonical.{canonical_body, canonical_defer, canonical_mark, canonical_vary, names_in, set_of};
ghost use Rattle.halo_spell.specs.ContractText.{pay_text};
ghost use Rattle.halo_status.specs.StatusTree.{tree_of};
ghost use Rattle.halo_status.specs.ValidPay.{CanBeMarked};

use crate::Memory;
use crate::status::{Position, write_members, write_status};
use crate::text::{write_bytes, write_number};
use halo_contract::LifeLine;
use halo_status::{Kind, Pay, Status, Vary};
use halo_table::Tables;

/// Writes the canonical symbol of a pay behind a text.
pub fn write_symbol(
    pay: &Pay,
    lives: &[LifeLine],
    tables: &Tables,
    into: &mut Vec<u8>,
) -> Result<(), Memory>
    requires { IsValidAmong (length lives.now) (length tables.now.causes) (pay_of pay.now) }
    ensures { OnOk result (into.new.items ≡ into.old.items
        ++ pay_text (life_names lives.now) tables.now.causes (pay_of pay.now)) }
{
    write_defer(pay.defer, into)?;
    write_head(pay.vary, pay.kind, into)?;
    write_causes(pay.causes, tables, into)?;
    into.push(b'[')?;
    write_content(pay, lives, into)?;
    into.push(b']')?;
    Ok(())
}

// Writes a deferral, where there is one.
fn write_defer(years: u16, into: &mut Vec<u8>) -> Result<(), Memory>
    ensures { OnOk result (into.new.items ≡ into.old.items
        ++ defer_bytes (canonical_defer years)) }
{
    if years == 0 {
        return Ok(());
    }
    write_number(u64::from(years), into)?;
    write_bytes(b"|", into)
}

// Writes a head: how the payments vary, and the kind.
fn write_head(vary: Vary, kind: Kind, into: &mut Vec<u8>) -> Result<(), Memory>
    ensures { OnOk result (into.new.items ≡ into.old.items
        ++ head_text (canonical_vary vary) kind) }
{
    match vary {
        Vary::Level => {}
        Vary::Increasing => into.push(b'I')?,
        Vary::Decreasing(count) => {
            into.push(b'D')?;
            write_number(u64::from(count), into)?;
        }
    }
    write_bytes(kind_text(kind), into)
}

// The letters of a kind.
fn kind_text(kind: Kind) -> &'static [u8]
    ensures { result.now ≡ kind_text kind }
{
    match kind {
        Kind::Insurance => b"A",
        Kind::Immediate => b"a",
        Kind::Due => b"ad",
    }
}

// Writes a set of causes, where there is one: `{` stands before the first name, and `,` before each
// other one.
fn write_causes(causes: Option<u8>, tables: &Tables, into: &mut Vec<u8>) -> Result<(), Memory>
    requires some { IfSome causes (λ mask. 1 ≤ mask) }
    requires known { IfSome causes (λ mask. mask < 2 ^ length tables.now.causes) }
    ensures { OnOk result (into.new.items ≡ into.old.items
        ++ causes_bytes
        (option_and_then (λ mask. set_of (names_in tables.now.causes mask)) causes)) }
{
    let Some(mask) = causes else {
        return Ok(());
    };
    let mut before = b'{';
    for cause in 0..tables.causes() {
        if mask >> cause & 1 == 1 {
            into.push(before)?;
            write_bytes(tables.cause_name(cause).bytes(), into)?;
            before = b',';
        }
    }
    into.push(b'}')?;
    Ok(())
}

// Writes the status of a pay, with its mark, where it has one.
fn write_content(pay: &Pay, lives: &[LifeLine], into: &mut Vec<u8>) -> Result<(), Memory>
    requires lives { NamesLivesBelow (length lives.now) (tree_of pay.now.body) }
    requires mark { IfSome pay.now.mark (CanBeMarked (tree_of pay.now.body)) }
    ensures { OnOk result (into.new.items ≡ into.old.items
        ++ content_bytes (option_map canonical_mark pay.now.mark)
        (canonical_body (life_names lives.now) (tree_of pay.now.body))) }
{
    match &pay.body {
        Status::Joint(members) => write_members(members, pay.mark, lives, into),
        Status::Life(_)
        | Status::Term(_)
        | Status::Last(_)
        | Status::AtLeast(..)
        | Status::Exactly(..)
        | Status::After(..) => write_status(&pay.body, Position::Alone, lives, into),
    }
}
