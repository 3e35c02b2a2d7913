//! The table of commands.
ghost use Rattle.std.specs.Prelude.{◌≡◌};
ghost use Rattle.sx_words.specs.Words.{command_named, drill_keys, keys_of};

use crate::key::{Key, Wanted};

/// A command over a database: a row of the table below.
#[derive(Clone, Copy, Debug, PartialEq, Eq)]
pub enum Command {
    Timeline,
    Show,
    Map,
    Page,
    Carve,
    Explain,
    Generations,
    History,
    Report,
}

/// The command of a word, where it is one.
pub fn command_named(word: &str) -> Option<Command>
    ensures { result ≡ command_named word.now }
{
    match word {
        "timeline" => Some(Command::Timeline),
        "show" => Some(Command::Show),
        "map" => Some(Command::Map),
        "page" => Some(Command::Page),
        "carve" => Some(Command::Carve),
        "explain" => Some(Command::Explain),
        "generations" => Some(Command::Generations),
        "history" => Some(Command::History),
        "report" => Some(Command::Report),
        _ => None,
    }
}

impl Command {
    /// The keys that the words behind the command may set, and which of them they must.
    pub fn keys(self) -> &'static [Wanted]
        ensures { result.now ≡ keys_of self }
    {
        match self {
            Command::Timeline => &[],
            Command::Show => &[Wanted::Required(Key::Table), Wanted::Allowed(Key::At)],
            Command::Map => &[Wanted::Allowed(Key::At)],
            Command::Page => &[Wanted::Required(Key::No), Wanted::Allowed(Key::At)],
            Command::Carve => &[Wanted::Allowed(Key::At), Wanted::Allowed(Key::Spill)],
            Command::Explain => &[
                Wanted::Required(Key::Part),
                Wanted::Required(Key::Byte),
                Wanted::Allowed(Key::At),
            ],
            Command::Generations => &[],
            Command::History => &[Wanted::Required(Key::Table), Wanted::Required(Key::Rowid)],
            Command::Report => &[],
        }
    }
}

/// The keys that the words of a drill must set.
pub fn drill_keys() -> &'static [Wanted]
    ensures { result.now ≡ drill_keys }
{
    &[
        Wanted::Required(Key::Seed),
        Wanted::Required(Key::Leaves),
        Wanted::Required(Key::Commits),
    ]
}
