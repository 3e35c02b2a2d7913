//! The totals of a moment.
ghost use Rattle.std.specs.Prelude.{◌≡◌, OnOk, string_bytes};
ghost use Rattle.sx_lines.specs.Lines.{ended};
ghost use Rattle.sx_map_text.specs.Map.{totals_line};

use std::alloc::AllocError;

/// How many bytes the pages of a moment have, how many of them are in each group of labels, and how many dead links there
/// are.
#[derive(Clone, Copy, Debug, PartialEq, Eq)]
pub struct MapTotals {
    /// All bytes: the size in pages times the page size.
    pub bytes: u64,
    /// Those that the database uses.
    pub owned: u64,
    /// Those that it leaves unused.
    pub slack: u64,
    /// Those of which a fault hides what they are.
    pub fault: u64,
    /// Links to what is no page that the evidence holds.
    pub dead: u64,
}

/// Puts the last line of `map` into `line`.
#[tactic(auto, unfolding(crate::specs::Map::totals_line))]
pub fn put_totals_line(totals: MapTotals, line: &mut String) -> Result<(), AllocError>
    ensures { OnOk result (string_bytes line.new ≡ ended (totals_line totals)) }
{
    line.clear();
    let MapTotals {
        bytes,
        owned,
        slack,
        fault,
        dead,
    } = totals;
    writeln!(
        line,
        "bytes {bytes} owned {owned} slack {slack} fault {fault} dead {dead}"
    )
}
