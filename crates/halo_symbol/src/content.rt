// Bodies of symbols, with the mark that they may have.
ghost use Rattle.std.specs.Prelude.{◌≡◌, ◌≤◌, IfOk, Err};
ghost use Rattle.std.specs.Option.{option_map};
ghost use Rattle.halo_symbol.specs.Next.{ContentEnds};
ghost use Rattle.halo_symbol.specs.Absent.{NoContent};
ghost use Rattle.halo_symbol.specs.Nesting.{nest_body};
ghost use Rattle.halo_symbol.specs.Pieces.{content_pieces};
ghost use Rattle.halo_symbol.specs.Proper.{MayHaveMark};
ghost use Rattle.halo_symbol.specs.View.{plain_body};
ghost use Rattle.halo_symbol.specs.SymbolView.{plain_mark};

use crate::body::{body, more_members};
use crate::error::WordError;
use crate::reader::Reader;
use crate::symbol::Mark;
use crate::tree::Body;
use halo_status::Kind;
use std::alloc::Global;

// A body, and the mark on a member of it.
#[derive(Debug, Drop)]
pub struct Content<'a> {
    pub body: Body<'a>,
    pub mark: Option<Mark<'a>>,
}

// Reads a body, as far as it goes. Only that of an insurance may have a mark, and then it is one
// list.
#[tactic(auto, using(crate::proofs::Shapes::shapes))]
pub fn read_content<'a>(
    alloc: Global,
    reader: &mut Reader<'_, 'a>,
    kind: Kind,
    depth: usize,
) -> Result<Content<'a>, WordError>
    ensures ok { IfOk result (λ content. reader.old
        ≡ content_pieces (option_map plain_mark content.mark) (plain_body content.body)
        reader.new) }
    ensures ends { IfOk result (λ content.
        ContentEnds (option_map plain_mark content.mark) (plain_body content.body) reader.new) }
    ensures allowed { IfOk result (λ content.
        MayHaveMark kind (option_map plain_mark content.mark) (plain_body content.body)) }
    ensures deep { IfOk result (λ content. nest_body (plain_body content.body) ≤ depth) }
    ensures syntax { result ≡ Err WordError.Syntax → NoContent kind depth reader.old }
{
    let body = body(alloc, reader, depth)?;
    if !reader.takes(b'^') {
        return Ok(Content { body, mark: None });
    }
    let Body::List(members) = body else {
        return Err(WordError::Syntax);
    };
    if kind != Kind::Insurance {
        return Err(WordError::Syntax);
    }
    let rank = reader.number()?;
    let mark = Mark {
        member: members.others.len(),
        rank,
    };
    let members = more_members(alloc, reader, depth, members)?;
    Ok(Content {
        body: Body::List(members),
        mark: Some(mark),
    })
}
