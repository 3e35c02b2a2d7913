//! The grammar of the words.
ghost use Rattle.std.specs.Prelude.{◌≡◌, ◌≤◌, ◌^◌, ◌∷◌, [], IfSome};
ghost use Rattle.std.specs.Option.{option_copied, option_map};
ghost use Rattle.sx_words.specs.Words.{texts, request_of, evidence_of, drill_of, drill_by, bounded_of, command_of, question_of, show_of, map_of, page_of, carve_of, spill_of, which_of, is_all, one_of, explain_of, byte_of, part_of, offset_of, command_named, page_number_of, rowid_of, signed_of, after_minus, negated, history_of, when_of, asked, question_by, is_name, numbered};

use crate::command::{Command, command_named, drill_keys};
use crate::key::Key;
use crate::number::number_of;
use crate::request::{Drill, Question, Request, Usage, When, Which};
use crate::settings::{are_settings, value_of};
use sx_base::{Moment, Part, Place};

/// The greatest number of a page, and of a moment.
const GREATEST: u64 = 4_294_967_295;

/// The greatest rowid.
const GREATEST_ROWID: u64 = 9_223_372_036_854_775_807;

/// How far from 0 the least rowid is.
const LEAST_NEGATED: u64 = 9_223_372_036_854_775_808;

/// Reads the words after the program's name.
///
/// Where the first is `drill`, the words behind it set `seed`, from 0 to 18446744073709551615, `leaves`, from 1 to 400, and
/// `commits`, from 0 to 1000, which are all required.
///
/// Else they are `<db> <command>` and words `key=value`, split at their first `=`. `<db>` isn't empty. The commands are
/// `timeline`, `generations` and `report`, which have no key; `show` with its keys `table`, which is required, and `at`;
/// `history` with its keys `table` and `rowid`, which are both required; `map` with its key `at`; `page` with its keys `no`,
/// from 1 to 4294967295, which is required, and `at`; `carve` with its keys `at`, which can be `all` too, and `spill`, which is `yes` or `no`; and `explain` with
/// its keys `part`, which is `database`, `wal` or `journal`, and `byte`, from 0 to 18446744073709551615, which are both
/// required, and `at`. `at` is `journal` or from 0 to 4294967295. `rowid` is from 0 to 9223372036854775807, or `-` and a
/// number from 1 to 9223372036854775808.
/// The keys come in any order, each at most once. A number is `0` or decimal digits that don't begin with 0.
///
/// Every other list of words is outside the grammar, and `Usage` comes exactly there. The request borrows its names from
/// the words, and nothing is allocated. The cost is that of reading the words once for each key of the command.
#[tactic(auto, unfolding(crate::specs::Words::request_of))]
pub fn read_words<'w>(words: &'w [String]) -> Result<Request<'w>, Usage>
    ensures { asked result ≡ request_of (texts words.now) }
{
    match words {
        [word, rest @ ..] => read_from(word.as_str(), rest),
        [] => Err(Usage),
    }
}

// Reads the first word and those behind it.
#[tactic(auto, unfolding(crate::specs::Words::request_of))]
fn read_from<'w>(word: &'w str, words: &'w [String]) -> Result<Request<'w>, Usage>
    ensures { asked result ≡ request_of (word.now ∷ texts words.now) }
{
    if word == "drill" {
        read_drill(words)
    } else {
        read_evidence(word, words)
    }
}

// Reads the words of a drill.
#[tactic(auto, unfolding(crate::specs::Words::drill_of))]
fn read_drill<'w>(words: &[String]) -> Result<Request<'w>, Usage>
    ensures { asked result ≡ drill_of (texts words.now) }
{
    if !are_settings(drill_keys(), words) {
        return Err(Usage);
    }
    drill(
        bounded(value_of(Key::Seed, words), 0, u64::MAX),
        bounded(value_of(Key::Leaves, words), 1, 400),
        bounded(value_of(Key::Commits, words), 0, 1000),
    )
}

// A drill, where all three numbers could be read.
fn drill<'w>(
    seed: Option<u64>,
    leaves: Option<u64>,
    commits: Option<u64>,
) -> Result<Request<'w>, Usage>
    requires least { IfSome leaves (λ number. 1 ≤ number) }
    requires most { IfSome leaves (λ number. number ≤ 400) }
    requires few { IfSome commits (λ number. number ≤ 1000) }
    ensures { asked result ≡ drill_by seed leaves commits }
{
    match (seed, leaves, commits) {
        (Some(seed), Some(leaves), Some(commits)) => Ok(Request::Drill(Drill {
            seed,
            leaves: leaves as u32,
            commits: commits as u32,
        })),
        _ => Err(Usage),
    }
}

// A number within these bounds, where a value gives one.
#[tactic(auto, unfolding(crate::specs::Words::bounded_of))]
fn bounded(value: Option<&str>, least: u64, most: u64) -> Option<u64>
    ensures value { result ≡ bounded_of least most (option_copied value.entry) }
    ensures above { IfSome result (λ number. least ≤ number) }
    ensures within { IfSome result (λ number. number ≤ most) }
{
    number_of(value?, least, most)
}

// Reads a name and the words behind it.
#[tactic(auto, unfolding(crate::specs::Words::evidence_of))]
fn read_evidence<'w>(db: &'w str, words: &'w [String]) -> Result<Request<'w>, Usage>
    ensures { asked result ≡ evidence_of db.now (texts words.now) }
{
    match words {
        [command, settings @ ..] => read_command(db, command.as_str(), settings),
        [] => Err(Usage),
    }
}

// Reads a name, a command and the words behind it.
#[tactic(auto, unfolding(crate::specs::Words::command_of))]
fn read_command<'w>(db: &'w str, command: &str, words: &'w [String]) -> Result<Request<'w>, Usage>
    ensures { asked result ≡ command_of db.now (command_named command.now) (texts words.now) }
{
    let Some(command) = command_named(command) else {
        return Err(Usage);
    };
    if !(is_name(db) && are_settings(command.keys(), words)) {
        return Err(Usage);
    }
    match read_question(command, words) {
        Some(question) => Ok(Request::Evidence { db, question }),
        None => Err(Usage),
    }
}

// Whether a word can be the name of a database.
fn is_name(word: &str) -> bool
    ensures { result ≡ is_name word.now }
{
    !word.is_empty()
}

// The question of a command, with words that set its keys, where their values can be read.
#[tactic(auto, unfolding(crate::specs::Words::question_of))]
fn read_question<'w>(command: Command, words: &'w [String]) -> Option<Question<'w>>
    ensures { option_map question_by result ≡ question_of command (texts words.now) }
{
    match command {
        Command::Timeline => Some(Question::Timeline),
        Command::Show => show(value_of(Key::Table, words), when(value_of(Key::At, words))),
        Command::Map => map(when(value_of(Key::At, words))),
        Command::Page => page(
            page_number(value_of(Key::No, words)),
            when(value_of(Key::At, words)),
        ),
        Command::Carve => carve(
            which(value_of(Key::At, words)),
            spill(value_of(Key::Spill, words)),
        ),
        Command::Explain => explain(
            place(
                part(value_of(Key::Part, words)),
                byte(value_of(Key::Byte, words)),
            ),
            when(value_of(Key::At, words)),
        ),
        Command::Generations => Some(Question::Generations),
        Command::History => history(
            value_of(Key::Table, words),
            rowid(value_of(Key::Rowid, words)),
        ),
        Command::Report => Some(Question::Report),
    }
}

// A table at some time, where that could be read.
fn show(table: Option<&str>, at: Option<When>) -> Option<Question<'_>>
    ensures { option_map question_by result ≡ show_of (option_copied table.entry) «at» }
{
    Some(Question::Show {
        table: table?,
        at: at?,
    })
}

// A page at some time, where both could be read.
fn page(no: Option<u32>, at: Option<When>) -> Option<Question<'static>>
    ensures { option_map question_by result ≡ page_of «no» at }
{
    Some(Question::Page { no: no?, at: at? })
}

// All pages at some time, where that could be read.
fn map(at: Option<When>) -> Option<Question<'static>>
    ensures { option_map question_by result ≡ map_of at }
{
    Some(Question::Map { at: at? })
}

// What stands of deleted rows at some times, completed or not, where both could be read.
fn carve(at: Option<Which>, spill: Option<bool>) -> Option<Question<'static>>
    ensures { option_map question_by result ≡ carve_of at spill }
{
    Some(Question::Carve {
        at: at?,
        spill: spill?,
    })
}

// Whether candidates are completed: not where nothing is said.
#[tactic(auto, unfolding(crate::specs::Words::spill_of))]
fn spill(value: Option<&str>) -> Option<bool>
    ensures { result ≡ spill_of (option_copied value.entry) }
{
    match value {
        None => Some(false),
        Some("yes") => Some(true),
        Some("no") => Some(false),
        Some(_) => None,
    }
}

// A byte at some time, where both could be read.
fn explain(place: Option<Place>, at: Option<When>) -> Option<Question<'static>>
    ensures { option_map question_by result ≡ explain_of place at }
{
    Some(Question::Explain {
        place: place?,
        at: at?,
    })
}

// A table and a rowid, where both could be read.
fn history(table: Option<&str>, rowid: Option<i64>) -> Option<Question<'_>>
    ensures { option_map question_by result ≡ history_of (option_copied table.entry) rowid }
{
    Some(Question::History {
        table: table?,
        rowid: rowid?,
    })
}

// A byte of a part, where both could be read.
fn place(part: Option<Part>, byte: Option<u64>) -> Option<Place>
    ensures { result ≡ byte_of part byte }
{
    Some(Place {
        part: part?,
        offset: byte?,
    })
}

// The part of the evidence that is named.
#[tactic(auto, unfolding(crate::specs::Words::part_of))]
fn part(value: Option<&str>) -> Option<Part>
    ensures { result ≡ part_of (option_copied value.entry) }
{
    match value? {
        "database" => Some(Part::Database),
        "wal" => Some(Part::Wal),
        "journal" => Some(Part::Journal),
        _ => None,
    }
}

// The offset of a byte in its file, from 0 to the greatest of 64 bits.
#[tactic(auto, unfolding(crate::specs::Words::offset_of))]
fn byte(value: Option<&str>) -> Option<u64>
    ensures { result ≡ offset_of (option_copied value.entry) }
{
    number_of(value?, 0, u64::MAX)
}

// The number of a page, from 1.
#[tactic(auto, unfolding(crate::specs::Words::page_number_of))]
fn page_number(value: Option<&str>) -> Option<u32>
    ensures { result ≡ page_number_of (option_copied value.entry) }
{
    match number_of(value?, 1, GREATEST) {
        Some(number) => Some(number as u32),
        None => None,
    }
}

// A rowid: a number, or `-` and a number from 1.
#[tactic(auto, unfolding(crate::specs::Words::rowid_of))]
fn rowid(value: Option<&str>) -> Option<i64>
    ensures { result ≡ rowid_of (option_copied value.entry) }
{
    signed(value?)
}

// The number that is written with its sign, where one of 64 bits is.
fn signed(text: &str) -> Option<i64>
    ensures { result ≡ signed_of text.now }
{
    match after_minus(text) {
        Some(digits) => match number_of(digits, 1, LEAST_NEGATED) {
            Some(number) => Some(negated(number)),
            None => None,
        },
        None => match number_of(text, 0, GREATEST_ROWID) {
            Some(number) => Some(number as i64),
            None => None,
        },
    }
}

// What stands behind a minus sign, where a text begins with one.
#[tactic(auto, using(crate::proofs::Signs::minus_is))]
fn after_minus(text: &str) -> Option<&str>
    ensures { option_copied result ≡ after_minus text.now }
{
    text.strip_prefix('-')
}

// The number below 0 that is so far from it.
fn negated(number: u64) -> i64
    requires least { 1 ≤ number }
    requires most { number ≤ 2 ^ 63 }
    ensures { result ≡ negated number }
{
    -((number - 1) as i64) - 1
}

// The moment that is asked for: the last where none is given.
#[tactic(auto, unfolding(crate::specs::Words::when_of))]
fn when(value: Option<&str>) -> Option<When>
    ensures { result ≡ when_of (option_copied value.entry) }
{
    match value {
        None => Some(When::Last),
        Some("journal") => Some(When::At(Moment::Journal)),
        Some(text) => match number_of(text, 0, GREATEST) {
            Some(number) => Some(When::At(numbered(number as u32))),
            None => None,
        },
    }
}

// The moments that are asked for: all of them, or one.
#[tactic(auto, unfolding(crate::specs::Words::which_of))]
fn which(value: Option<&str>) -> Option<Which>
    ensures { result ≡ which_of (option_copied value.entry) }
{
    if is_all(value) {
        Some(Which::All)
    } else {
        one(when(value))
    }
}

// Whether all moments are asked for.
fn is_all(value: Option<&str>) -> bool
    ensures { result ≡ is_all (option_copied value.entry) }
{
    match value {
        Some(text) => text == "all",
        None => false,
    }
}

// One moment, where it could be read.
fn one(at: Option<When>) -> Option<Which>
    ensures { result ≡ one_of at }
{
    Some(Which::One(at?))
}

// The moment of a number: 0 is the file, and every other number a commit.
fn numbered(number: u32) -> Moment
    ensures { result ≡ numbered number }
{
    match number {
        0 => Moment::File,
        k => Moment::Commit(k),
    }
}
