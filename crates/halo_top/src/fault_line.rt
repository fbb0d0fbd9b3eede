// The line that a refusal writes, made without memory.
ghost use Rattle.std.specs.Prelude.{◌≡◌, ◌≤◌, length};
ghost use Rattle.halo_top.specs.Refusal.{argument_word, contract_kind_word, file_word, kind_word, line_of};

use crate::refusal::{ArgumentKind, InputFile, Refusal};
use arrayvec::ArrayString;
use halo_check::ContractKind;
use halo_table::TableKind;
use itoa::Buffer;

/// A line of text with its line feed, at most 96 bytes.
pub type Line = ArrayString<96>;

impl Refusal {
    /// The line that is written, with its line feed.
    pub fn line(&self) -> Line
        ensures { result.bytes ≡ line_of self.now }
    {
        let mut line = Line::new();
        match self {
            Refusal::Usage => line.push_str(
                "usage: halo value T C, check T C, compile T C, explain T C, columns T NAME P/Q, sample N",
            ),
            Refusal::Read(file) => {
                line.push_str("read fault ");
                line.push_str(word_of_file(*file));
            }
            Refusal::TooLong(file) => {
                line.push_str("too long ");
                line.push_str(word_of_file(*file));
            }
            Refusal::Table(fault) => {
                line.push_str("tables record ");
                line.push_str(Buffer::new().format(fault.row));
                line.push_str(" ");
                line.push_str(word_of_kind(fault.kind));
            }
            Refusal::Contract(fault) => {
                line.push_str("contract line ");
                line.push_str(Buffer::new().format(fault.line));
                line.push_str(" ");
                line.push_str(word_of_contract_kind(fault.kind));
            }
            Refusal::Argument(kind) => {
                line.push_str("argument ");
                line.push_str(word_of_argument_kind(*kind));
            }
        }
        line.push_str("\n");
        line
    }
}

// The word for a file.
fn word_of_file(file: InputFile) -> &'static str
    ensures word { result.now ≡ file_word file }
    ensures short { length result.now ≤ 8 }
{
    match file {
        InputFile::Tables => "tables",
        InputFile::Contract => "contract",
    }
}

// The word for what is wrong with a record of a tables file.
fn word_of_kind(kind: TableKind) -> &'static str
    ensures word { result.now ≡ kind_word kind }
    ensures short { length result.now ≤ 10 }
{
    match kind {
        TableKind::Header => "Header",
        TableKind::Fields => "Fields",
        TableKind::Name => "Name",
        TableKind::Number => "Number",
        TableKind::Large => "Large",
        TableKind::Again => "Again",
        TableKind::TooMany => "TooMany",
        TableKind::Age => "Age",
        TableKind::Decrements => "Decrements",
        TableKind::Closed => "Closed",
    }
}

// The word for what is wrong with a line of a contract file.
fn word_of_contract_kind(kind: ContractKind) -> &'static str
    ensures word { result.now ≡ contract_kind_word kind }
    ensures short { length result.now ≤ 10 }
{
    match kind {
        ContractKind::Syntax => "Syntax",
        ContractKind::Magnitude => "Magnitude",
        ContractKind::Zero => "Zero",
        ContractKind::Years => "Years",
        ContractKind::Order => "Order",
        ContractKind::Twice => "Twice",
        ContractKind::NoTable => "NoTable",
        ContractKind::NoAge => "NoAge",
        ContractKind::NoLife => "NoLife",
        ContractKind::NoCause => "NoCause",
        ContractKind::Rank => "Rank",
        ContractKind::NotLasting => "NotLasting",
        ContractKind::Shared => "Shared",
        ContractKind::NotAtStart => "NotAtStart",
        ContractKind::NotAlive => "NotAlive",
        ContractKind::Missing => "Missing",
    }
}

// The word for what is wrong with an argument.
fn word_of_argument_kind(kind: ArgumentKind) -> &'static str
    ensures word { result.now ≡ argument_word kind }
    ensures short { length result.now ≤ 9 }
{
    match kind {
        ArgumentKind::Syntax => "Syntax",
        ArgumentKind::Magnitude => "Magnitude",
        ArgumentKind::Zero => "Zero",
        ArgumentKind::NoTable => "NoTable",
    }
}
