// The words of a line, as parts of it.
ghost use Rattle.std.specs.Prelude.{◌≡◌, IfErr, IfOk};
ghost use Rattle.halo_syntax.specs.FileLines.{words_of};
ghost use Rattle.halo_syntax.specs.LineReading.{bytes_of};

use halo_symbol::WordError;
use std::alloc::Global;

// The words of a line, in order.
pub fn words_in(alloc: Global, text: &[u8]) -> Result<Vec<&[u8]>, WordError>
    ensures ok { IfOk result (λ words. bytes_of words.items ≡ words_of text.now) }
    ensures err { IfErr result (λ error. error ≡ WordError.Memory) }
{
    let spans = halo_lex::words(alloc, text).map_err(|_| WordError::Memory)?;
    let mut words = Vec::new(alloc);
    for span in &spans {
        words.push(&text[span.from..span.to])?;
    }
    Ok(words)
}
