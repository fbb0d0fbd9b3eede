// Laws of a run: functions that do nothing, whose contracts are the laws.
ghost use Rattle.halo_top.specs.Laws.{AnswerExists, AnswerIsOne, SamplesHaveNoFault};

/// Where words and files are told as far as they are needed, they call for at most one status, and
/// at most one answer.
pub fn answer_is_one()
    ensures { AnswerIsOne }
{}

/// Where words and files are told as far as they are needed, they call for a status and a text.
pub fn answer_exists()
    ensures { AnswerExists }
{}

/// Neither file of a sample has a fault, whatever its number: both are short enough, the tables
/// file holds tables, and the contract file writes a contract on them.
pub fn samples_have_no_fault()
    ensures { SamplesHaveNoFault }
{}
