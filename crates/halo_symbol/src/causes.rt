// Sets of causes.
ghost use Rattle.std.specs.Prelude.{◌≡◌, IfOk, Err};
ghost use Rattle.std.specs.Option.{option_map};
ghost use Rattle.halo_symbol.specs.Next.{CausesEnd};
ghost use Rattle.halo_symbol.specs.Absent.{NoCauses};
ghost use Rattle.halo_symbol.specs.Pieces.{causes_pieces};
ghost use Rattle.halo_symbol.specs.Proper.{MayHaveCauses};
ghost use Rattle.halo_symbol.specs.SymbolView.{plain_names};

use crate::error::WordError;
use crate::reader::Reader;
use crate::symbol::Names;
use halo_status::Kind;
use std::alloc::Global;

// Reads a set of causes, where one comes next. Only an insurance may have one.
pub fn read_causes<'a>(
    alloc: Global,
    reader: &mut Reader<'_, 'a>,
    kind: Kind,
) -> Result<Option<Names<'a>>, WordError>
    ensures ok { IfOk result (λ causes. reader.old
        ≡ causes_pieces (option_map plain_names causes) reader.new) }
    ensures ends { IfOk result (λ causes. CausesEnd (option_map plain_names causes) reader.new) }
    ensures allowed { IfOk result (λ causes. MayHaveCauses kind (option_map plain_names causes)) }
    ensures syntax { result ≡ Err WordError.Syntax → NoCauses kind reader.old }
{
    if !reader.takes(b'{') {
        return Ok(None);
    }
    if kind != Kind::Insurance {
        return Err(WordError::Syntax);
    }
    let first = reader.name()?;
    let mut others = Vec::new(alloc);
    while reader.takes(b',') {
        let other = reader.name()?;
        others.push(other)?;
    }
    reader.expect(b'}')?;
    Ok(Some(Names { first, others }))
}
