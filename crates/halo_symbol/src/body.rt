// Bodies: the descent through members, lists and brackets.
ghost use Rattle.std.specs.Prelude.{◌≡◌, ◌∷◌, ◌≤◌, ◌<◌, IfOk, Err};
ghost use Rattle.halo_symbol.specs.Characters.{round_open, round_close, colon};
ghost use Rattle.halo_symbol.specs.Piece.{byte};
ghost use Rattle.halo_symbol.specs.Nesting.{nest, nest_members, nest_body};
ghost use Rattle.halo_symbol.specs.Pieces.{node_pieces, members_pieces, body_pieces, marked_pieces};
ghost use Rattle.halo_symbol.specs.Absent.{NoBody, NoBracketed, NoMembers, NoNode};
ghost use Rattle.halo_symbol.specs.Next.{Ends, NotNext};
ghost use Rattle.halo_symbol.specs.View.{plain_node, plain_members, plain_body};

use crate::error::WordError;
use crate::piece::Piece;
use crate::reader::Reader;
use crate::tree::{Body, Members, Node};
use std::alloc::Global;

// Reads one member, in which round brackets nest at most `depth` deep.
#[cycle(descent)]
#[tactic(auto, using(crate::proofs::Shapes::shapes))]
fn node<'a>(alloc: Global, reader: &mut Reader<'_, 'a>, depth: usize) -> Result<Node<'a>, WordError>
    ensures ok { IfOk result (λ node. reader.old ≡ node_pieces (plain_node node) reader.new) }
    ensures deep { IfOk result (λ node. nest (plain_node node) ≤ depth) }
    ensures syntax { result ≡ Err WordError.Syntax → NoNode depth reader.old }
{
    match reader.next() {
        Some(Piece::Name(name)) => Ok(Node::Life(name)),
        Some(Piece::Bar) => Ok(Node::Last(bracketed(alloc, reader, depth)?)),
        Some(Piece::Number(rank)) => {
            reader.expect(b'/')?;
            Ok(Node::AtLeast(rank, bracketed(alloc, reader, depth)?))
        }
        Some(Piece::Byte(b'<')) => {
            let years = reader.number()?;
            reader.expect(b'>')?;
            Ok(Node::Term(years))
        }
        Some(Piece::Byte(b'[')) => {
            let rank = reader.number()?;
            reader.expect(b']')?;
            reader.expect(b'/')?;
            Ok(Node::Exactly(rank, bracketed(alloc, reader, depth)?))
        }
        Some(Piece::Byte(b'(')) => group(alloc, reader, depth),
        Some(Piece::Byte(_)) => Err(WordError::Syntax),
        None => Err(WordError::Syntax),
    }
}

// Reads a list in round brackets.
#[cycle(descent)]
fn bracketed<'a>(
    alloc: Global,
    reader: &mut Reader<'_, 'a>,
    depth: usize,
) -> Result<Members<'a>, WordError>
    ensures ok { IfOk result (λ ms. reader.old
        ≡ byte round_open ∷ members_pieces (plain_members ms) (byte round_close ∷ reader.new)) }
    ensures deep { IfOk result (λ ms. nest_members (plain_members ms) < depth) }
    ensures syntax { result ≡ Err WordError.Syntax → NoBracketed depth reader.old }
{
    if depth == 0 {
        return Err(WordError::Syntax);
    }
    reader.expect(b'(')?;
    let members = members(alloc, reader, depth - 1)?;
    reader.expect(b')')?;
    Ok(members)
}

// Reads a body in round brackets, behind the one that opens them.
#[cycle(descent)]
fn group<'a>(
    alloc: Global,
    reader: &mut Reader<'_, 'a>,
    depth: usize,
) -> Result<Node<'a>, WordError>
    ensures ok { IfOk result (λ node. byte round_open ∷ reader.old
        ≡ node_pieces (plain_node node) reader.new) }
    ensures deep { IfOk result (λ node. nest (plain_node node) ≤ depth) }
    ensures syntax { result ≡ Err WordError.Syntax → NoNode depth (byte round_open ∷ reader.old) }
{
    if depth == 0 {
        return Err(WordError::Syntax);
    }
    let body = body(alloc, reader, depth - 1)?;
    reader.expect(b')')?;
    Ok(Node::Group(body))
}

// Reads a body, as far as it goes.
#[cycle(descent)]
#[tactic(auto, using(crate::proofs::Shapes::shapes))]
pub fn body<'a>(
    alloc: Global,
    reader: &mut Reader<'_, 'a>,
    depth: usize,
) -> Result<Body<'a>, WordError>
    ensures ok { IfOk result (λ body. reader.old ≡ body_pieces (plain_body body) reader.new) }
    ensures ends { IfOk result (λ body. Ends (plain_body body) reader.new) }
    ensures deep { IfOk result (λ body. nest_body (plain_body body) ≤ depth) }
    ensures syntax { result ≡ Err WordError.Syntax → NoBody depth reader.old }
{
    let first = members(alloc, reader, depth)?;
    if reader.takes(b'|') {
        let second = members(alloc, reader, depth)?;
        Ok(Body::Reversion(first, second))
    } else {
        Ok(Body::List(first))
    }
}

// Reads a list, as far as it goes.
#[cycle(descent)]
fn members<'a>(
    alloc: Global,
    reader: &mut Reader<'_, 'a>,
    depth: usize,
) -> Result<Members<'a>, WordError>
    ensures ok { IfOk result (λ ms. reader.old ≡ members_pieces (plain_members ms) reader.new) }
    ensures ends { IfOk result (λ _. NotNext colon reader.new) }
    ensures deep { IfOk result (λ ms. nest_members (plain_members ms) ≤ depth) }
    ensures syntax { result ≡ Err WordError.Syntax → NoMembers depth reader.old }
{
    let first = Box::new(alloc, node(alloc, reader, depth)?)?;
    let others = Vec::new(alloc);
    more_members(alloc, reader, depth, Members { first, others })
}

// Reads the members behind those of a list, as far as it goes.
#[cycle(descent)]
#[tactic(auto, using(crate::proofs::Lists::pushes))]
pub fn more_members<'a>(
    alloc: Global,
    reader: &mut Reader<'_, 'a>,
    depth: usize,
    mut members: Members<'a>,
) -> Result<Members<'a>, WordError>
    requires { nest_members (plain_members members) ≤ depth }
    ensures ok { IfOk result (λ ms. members_pieces (plain_members members.entry) reader.old
        ≡ members_pieces (plain_members ms) reader.new) }
    ensures ends { IfOk result (λ _. NotNext colon reader.new) }
    ensures deep { IfOk result (λ ms. nest_members (plain_members ms) ≤ depth) }
    ensures syntax { result ≡ Err WordError.Syntax
        → NoMembers depth (members_pieces (plain_members members.entry) reader.old) }
{
    while reader.takes(b':') {
        let next = node(alloc, reader, depth)?;
        members.others.push(next)?;
    }
    Ok(members)
}
