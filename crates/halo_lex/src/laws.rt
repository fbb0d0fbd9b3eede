// Laws of the definitions: functions that do nothing, whose contracts are the laws.
ghost use Rattle.halo_lex.specs.Laws.{CutIsOne, CutOrStuck, LexemesAreOne, NamesAreShort, NotBoth, StuckIsOne, TokensAreWithin, WordsAreOne, WordsAreWithin};

/// A word is cut into lexemes in at most one way.
pub fn lexemes_are_one()
    ensures { LexemesAreOne }
{}

/// A word is cut into tokens in at most one way.
pub fn cut_is_one()
    ensures { CutIsOne }
{}

/// A word that is not cut is stuck at one place only.
pub fn stuck_is_one()
    ensures { StuckIsOne }
{}

/// A word is cut into lexemes, or has a first byte that begins none.
pub fn cut_or_stuck()
    ensures { CutOrStuck }
{}

/// A word that is cut has no first byte that begins no lexeme.
pub fn not_both()
    ensures { NotBoth }
{}

/// Each token of a word has at least one byte, and lies within the word.
pub fn tokens_are_within()
    ensures { TokensAreWithin }
{}

/// A name of 1 to 32 bytes is a name of any length that has at most 32 bytes.
pub fn names_are_short()
    ensures { NamesAreShort }
{}

/// A line has its words in one way.
pub fn words_are_one()
    ensures { WordsAreOne }
{}

/// Each word of a line has at least one byte, and lies within the line.
pub fn words_are_within()
    ensures { WordsAreWithin }
{}
