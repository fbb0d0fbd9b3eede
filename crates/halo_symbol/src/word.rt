// Whole words.
ghost use Rattle.std.specs.Prelude.{◌≡◌, ◌≤◌, IfOk, Err};
ghost use Rattle.std.specs.Option.{option_copied};
ghost use Rattle.halo_symbol.specs.Next.{DeferEnds};
ghost use Rattle.halo_symbol.specs.Absent.{NoDefer, NoSymbol};
ghost use Rattle.halo_symbol.specs.Nesting.{nest_body};
ghost use Rattle.halo_symbol.specs.Pieces.{defer_pieces, symbol_pieces};
ghost use Rattle.halo_symbol.specs.Proper.{IsAllowed};
ghost use Rattle.halo_symbol.specs.Spells.{SpellsStatus, SpellsSymbol};
ghost use Rattle.halo_symbol.specs.Symbol.{Symbol as PlainSymbol};
ghost use Rattle.halo_symbol.specs.SymbolView.{plain_symbol};
ghost use Rattle.halo_symbol.specs.Tree.{Body as PlainBody};
ghost use Rattle.halo_symbol.specs.View.{plain_body};

use crate::body::body;
use crate::causes::read_causes;
use crate::content::read_content;
use crate::error::WordError;
use crate::head::read_head;
use crate::piece::pieces;
use crate::reader::Reader;
use crate::symbol::Symbol;
use crate::tree::Body;
use std::alloc::Global;

/// How deep round brackets may nest in a word.
pub const MOST_NESTING: usize = 16;

// Reads a deferral, where one comes next.
fn read_deferral<'a>(reader: &mut Reader<'_, 'a>) -> Result<Option<&'a [u8]>, WordError>
    ensures ok { IfOk result (λ defer. reader.old ≡ defer_pieces (option_copied defer) reader.new) }
    ensures ends { IfOk result (λ defer. DeferEnds (option_copied defer) reader.new) }
    ensures syntax { result ≡ Err WordError.Syntax → NoDefer reader.old }
{
    let Some(years) = reader.takes_number() else {
        return Ok(None);
    };
    reader.expect(b'|')?;
    Ok(Some(years))
}

// Reads a symbol, in which round brackets nest at most `depth` deep.
fn symbol<'a>(
    alloc: Global,
    reader: &mut Reader<'_, 'a>,
    depth: usize,
) -> Result<Symbol<'a>, WordError>
    ensures ok { IfOk result (λ s. reader.old ≡ symbol_pieces (plain_symbol s) reader.new) }
    ensures allowed { IfOk result (λ s. IsAllowed (plain_symbol s)) }
    ensures deep { IfOk result (λ s. nest_body (plain_body s.body) ≤ depth) }
    ensures syntax { result ≡ Err WordError.Syntax → NoSymbol depth reader.old }
{
    let defer = read_deferral(reader)?;
    let name = reader.name()?;
    let Some(head) = read_head(name) else {
        return Err(WordError::Syntax);
    };
    let causes = read_causes(alloc, reader, head.kind)?;
    reader.expect(b'[')?;
    let content = read_content(alloc, reader, head.kind, depth)?;
    reader.expect(b']')?;
    Ok(Symbol {
        defer,
        vary: head.vary,
        kind: head.kind,
        causes,
        body: content.body,
        mark: content.mark,
    })
}

/// Reads the symbol that a word is, all of it.
///
/// The symbol borrows its names and digits from the word. Names and numbers may have any length,
/// and no number is judged; round brackets nest at most [`MOST_NESTING`] deep.
pub fn read_symbol(alloc: Global, word: &[u8]) -> Result<Symbol<'_>, WordError>
    ensures spelled { IfOk result (λ s. SpellsSymbol word.now (plain_symbol s)) }
    ensures deep { IfOk result (λ s. nest_body (plain_body s.body) ≤ MOST_NESTING) }
    ensures syntax { result ≡ Err WordError.Syntax
        → (s : PlainSymbol) → nest_body s.body ≤ MOST_NESTING → SpellsSymbol word.now s → ⊥ }
{
    let pieces = pieces(alloc, word)?;
    let mut reader = Reader::new(&pieces);
    let symbol = symbol(alloc, &mut reader, MOST_NESTING)?;
    reader.end()?;
    Ok(symbol)
}

/// Reads the status that a word is, all of it.
///
/// It borrows its names and digits from the word. Names and numbers may have any length, and no
/// number is judged; round brackets nest at most [`MOST_NESTING`] deep.
pub fn read_status(alloc: Global, word: &[u8]) -> Result<Body<'_>, WordError>
    ensures spelled { IfOk result (λ body. SpellsStatus word.now (plain_body body)) }
    ensures deep { IfOk result (λ body. nest_body (plain_body body) ≤ MOST_NESTING) }
    ensures syntax { result ≡ Err WordError.Syntax
        → (body : PlainBody) → nest_body body ≤ MOST_NESTING → SpellsStatus word.now body → ⊥ }
{
    let pieces = pieces(alloc, word)?;
    let mut reader = Reader::new(&pieces);
    let status = body(alloc, &mut reader, MOST_NESTING)?;
    reader.end()?;
    Ok(status)
}
