//! The words of labels.
ghost use Rattle.std.specs.Prelude.{◌≡◌, ◌++◌, OnOk, string_bytes};
ghost use Rattle.sx_lines.specs.Labels.{label_name, label_number, label_word};

use std::alloc::AllocError;
use sx_base::Label;

/// Puts a label's word behind what `line` holds: its name, and the number of a cell or of a freeblock.
pub fn put_label(label: Label, line: &mut String) -> Result<(), AllocError>
    ensures { OnOk result (string_bytes line.new ≡ string_bytes line.old ++ label_word label) }
{
    line.push_str(label_name(label))?;
    put_number(label, line)
}

// The name of a label, without the number of a cell or of a freeblock.
fn label_name(label: Label) -> &'static str
    ensures { result.now ≡ label_name label }
{
    match label {
        Label::DbHeader => "dbheader",
        Label::LockPage => "lockpage",
        Label::Reserved => "reserved",
        Label::NodeHeader => "nodeheader",
        Label::Pointers => "pointers",
        Label::Cell(_) => "cell",
        Label::Entries => "entries",
        Label::TrunkHead => "trunkhead",
        Label::Link => "link",
        Label::Body => "body",
        Label::Freeblock(_) => "freeblock",
        Label::Gap => "gap",
        Label::Fragment => "fragment",
        Label::MapRest => "maprest",
        Label::TrunkRest => "trunkrest",
        Label::FreeLeaf => "freeleaf",
        Label::Unreached => "unreached",
        Label::Tail => "tail",
        Label::BadHead => "badhead",
        Label::Absent => "absent",
        Label::DoubleClaim => "doubleclaim",
        Label::BadNode => "badnode",
        Label::BadArray => "badarray",
        Label::BadTrunk => "badtrunk",
        Label::Behind => "behind",
        Label::LongChain => "longchain",
        Label::Overlap => "overlap",
    }
}

// Puts the number that stands behind some labels' names behind what `line` holds.
fn put_number(label: Label, line: &mut String) -> Result<(), AllocError>
    ensures { OnOk result (string_bytes line.new ≡ string_bytes line.old ++ label_number label) }
{
    match label {
        Label::Cell(number) | Label::Freeblock(number) => write!(line, " {number}"),
        _ => Ok(()),
    }
}
