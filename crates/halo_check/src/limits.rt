// The limits of numbers, names and symbols.
ghost use Rattle.std.specs.Prelude.{◌≤◌, ◌^◌, ◌↔◌, All, IsTrue, map};
ghost use Rattle.halo_text.specs.Number.{IsNumber};
ghost use Rattle.halo_symbol.specs.Proper.{IsProperBody, IsProperSymbol, IsProperVary};
ghost use Rattle.halo_symbol.specs.View.{plain_body};
ghost use Rattle.halo_symbol.specs.SymbolView.{plain_names, plain_symbol, plain_vary};
ghost use Rattle.halo_check.specs.Limits.{AreNamesWithin, IsListWithin, IsMemberWithin, IsShortName, IsStatusWithin, IsSymbolWithin, IsUpTo, IsVaryWithin};

use crate::node_count::{nodes_of_body, nodes_of_symbol};
use crate::parts::{PartTest, body_passes};
use halo_symbol::{Body, Members, Names, Node, Symbol, Vary};
use halo_text::{LONGEST_NAME, number_up_to};

/// The greatest P or Q of interest.
pub const GREATEST_PART: u64 = 1_000_000_000;

/// The most fractions of interest.
pub const MOST_RATES: usize = 8;

/// The last year from which a fraction of interest can hold.
pub const LAST_YEAR: u64 = 199;

/// The greatest age of a life.
pub const GREATEST_AGE: u64 = 150;

/// The most lives.
pub const MOST_LIVES: usize = 12;

/// The most pays.
pub const MOST_PAYS: usize = 64;

/// The greatest amount, and the greatest sum of amounts.
pub const GREATEST_AMOUNT: u64 = 10_000_000_000;

/// The most reserves.
pub const MOST_RESERVES: usize = 64;

/// The greatest number of years: of a term, of a deferral and of a factor, and the last time.
pub const MOST_YEARS: u64 = 200;

/// The greatest number that is asked of the members of a list.
pub const GREATEST_RANK: u64 = 64;

/// The greatest number of members of a list.
pub const MOST_MEMBERS: usize = 16;

/// The greatest number of nodes of a status.
pub const MOST_NODES: usize = 64;

/// Whether digits write a number of at most `limit`.
pub fn is_up_to(digits: &[u8], limit: u64) -> bool
    requires { IsNumber digits.now }
    ensures { IsTrue result ↔ IsUpTo limit digits.now }
{
    number_up_to(digits, limit).is_ok()
}

/// Whether a name has at most 32 bytes.
pub fn is_short_name(name: &[u8]) -> bool
    ensures { IsTrue result ↔ IsShortName name.now }
{
    name.len() <= LONGEST_NAME
}

/// Whether names have at most 32 bytes each.
pub fn are_short_names(names: &[&[u8]]) -> bool
    ensures { IsTrue result ↔ All IsShortName (map (λ name. name.now) names.now) }
{
    for name in names {
        if !is_short_name(name) {
            return false;
        }
    }
    true
}

// The limits of members and lists, as a test of each part of a body.
struct PartLimits;

impl PartTest for PartLimits {
    ghost member_fact = { λ _ member. IsMemberWithin member };

    ghost list_fact = { λ _ members. IsListWithin members };

    fn passes(&self, member: &Node<'_>) -> bool {
        match member {
            Node::Life(name) => is_short_name(name),
            Node::Term(years) => is_up_to(years, MOST_YEARS),
            Node::AtLeast(rank, _) => is_up_to(rank, GREATEST_RANK),
            Node::Exactly(rank, _) => is_up_to(rank, GREATEST_RANK),
            Node::Last(_) => true,
            Node::Group(_) => true,
        }
    }

    fn passes_list(&self, members: &Members<'_>) -> bool {
        members.others.len() < MOST_MEMBERS
    }
}

/// Whether each number, name and list of a symbol is within its limit, and its body has at most 64
/// nodes.
pub fn is_symbol_within(symbol: &Symbol<'_>) -> bool
    requires { IsProperSymbol (plain_symbol symbol.now) }
    ensures { IsTrue result ↔ IsSymbolWithin (plain_symbol symbol.now) }
{
    symbol.defer.is_none_or(|years| is_up_to(years, MOST_YEARS))
        && is_vary_within(&symbol.vary)
        && symbol
            .causes
            .as_ref()
            .is_none_or(|names| are_names_within(names))
        && body_passes(&PartLimits, &symbol.body)
        && nodes_of_symbol(symbol) <= MOST_NODES
        && symbol
            .mark
            .is_none_or(|mark| is_up_to(mark.rank, GREATEST_RANK))
}

/// Whether each number, name and list of a status is within its limit, and it has at most 64 nodes.
pub fn is_status_within(body: &Body<'_>) -> bool
    requires { IsProperBody (plain_body body.now) }
    ensures { IsTrue result ↔ IsStatusWithin (plain_body body.now) }
{
    body_passes(&PartLimits, body) && nodes_of_body(body) <= MOST_NODES
}

// Whether the number of a decreasing head is at most 200.
fn is_vary_within(vary: &Vary<'_>) -> bool
    requires { IsProperVary (plain_vary vary.now) }
    ensures { IsTrue result ↔ IsVaryWithin (plain_vary vary.now) }
{
    match vary {
        Vary::Decreasing(count) => is_up_to(count, MOST_YEARS),
        Vary::Level => true,
        Vary::Increasing => true,
    }
}

// Whether each name of a set has at most 32 bytes.
fn are_names_within(names: &Names<'_>) -> bool
    ensures { IsTrue result ↔ AreNamesWithin (plain_names names.now) }
{
    is_short_name(names.first) && are_short_names(&names.others)
}
