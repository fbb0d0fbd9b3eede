// Names and numbers of any length.
ghost use Rattle.std.specs.Prelude.{◌↔◌, All, IsTrue};
ghost use Rattle.halo_text.specs.Number.{IsNumber};
ghost use Rattle.halo_lex.specs.Lexeme.{IsLongName};
ghost use Rattle.halo_symbol.specs.Proper.{IsPlainName};
ghost use Rattle.halo_syntax.specs.LineReading.{bytes_of};

// Whether a word is a number.
pub fn is_number(word: &[u8]) -> bool
    ensures { IsTrue result ↔ IsNumber word.now }
{
    !word.is_empty() && word.iter().all(|byte| byte.is_ascii_digit())
}

// Whether a word is a name.
pub fn is_name(word: &[u8]) -> bool
    ensures { IsTrue result ↔ IsLongName word.now }
{
    match word {
        [] => false,
        [first, rest @ ..] => {
            first.is_ascii_alphabetic()
                && rest
                    .iter()
                    .all(|byte| byte.is_ascii_alphanumeric() || *byte == b'_')
        }
    }
}

// Whether each of some words is a name.
pub fn are_names(words: &[&[u8]]) -> bool
    ensures { IsTrue result ↔ All IsLongName (bytes_of words.now) }
{
    words.iter().all(|word| is_name(word))
}

// Whether a word is a name other than `bar`.
pub fn is_plain_name(word: &[u8]) -> bool
    ensures { IsTrue result ↔ IsPlainName word.now }
{
    is_name(word) && word != b"bar".as_slice()
}
