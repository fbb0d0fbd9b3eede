// The words of a command.
ghost use Rattle.std.specs.Prelude.{map, string_bytes};
ghost use Rattle.halo_top.specs.Command.{ReadsWord, ReadsWords};

/// What a command writes of a contract.
#[derive(Clone, Copy, Debug, PartialEq, Eq)]
pub enum Task {
    /// `value`: its values.
    Value,
    /// `check`: its canonical text.
    Check,
    /// `compile`: the compiled forms of its pays.
    Compile,
    /// `explain`: the parts of its pays.
    Explain,
}

/// What to write of the contract in one file, with the tables in another.
#[derive(Clone, Copy)]
pub struct ContractCommand<'a> {
    pub task: Task,
    pub tables: &'a str,
    pub contract: &'a str,
}

/// The commutation columns of the table of a name, in a file, at the interest of a fraction.
#[derive(Clone, Copy)]
pub struct ColumnsCommand<'a> {
    pub tables: &'a str,
    pub name: &'a str,
    pub fraction: &'a str,
}

/// What the words ask for.
#[derive(Clone, Copy)]
pub enum Command<'a> {
    /// `value`, `check`, `compile` or `explain`.
    Contract(ContractCommand<'a>),
    /// `columns`.
    Columns(ColumnsCommand<'a>),
    /// `sample`, with the word of its number.
    Sample(&'a str),
}

impl<'a> Command<'a> {
    /// The command that the words are; None where they are none.
    pub fn read(words: &'a [String]) -> Option<Command<'a>>
        ensures { ReadsWords (map string_bytes words.now) result }
    {
        match words {
            [word, tables, contract] => {
                let task = read_task(word.as_str())?;
                Some(Command::Contract(ContractCommand {
                    task,
                    tables: tables.as_str(),
                    contract: contract.as_str(),
                }))
            }
            [word, tables, name, fraction] if word.as_str() == "columns" => {
                Some(Command::Columns(ColumnsCommand {
                    tables: tables.as_str(),
                    name: name.as_str(),
                    fraction: fraction.as_str(),
                }))
            }
            [word, number] if word.as_str() == "sample" => Some(Command::Sample(number.as_str())),
            _ => None,
        }
    }
}

// The task that a word names.
fn read_task(word: &str) -> Option<Task>
    ensures { ReadsWord word.now result }
{
    match word {
        "value" => Some(Task::Value),
        "check" => Some(Task::Check),
        "compile" => Some(Task::Compile),
        "explain" => Some(Task::Explain),
        _ => None,
    }
}
