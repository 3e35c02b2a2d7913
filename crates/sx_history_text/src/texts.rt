//! The lines of a moment.
ghost use Rattle.std.specs.Prelude.{◌≡◌, ◌++◌, ◌∷◌, ◌≤◌, IfOk, OnOk, string_bytes};
ghost use Rattle.std.specs.Option.{option_map};
ghost use Rattle.sx_lines.specs.Lines.{ended};
ghost use Rattle.sx_row.specs.Lengths.{AreLengths};
ghost use Rattle.sx_show_text.specs.Given.{columns_by};
ghost use Rattle.sx_show_text.specs.Show.{last_line};
ghost use Rattle.sx_history_text.specs.Histories.{at_moment, found_printed, lack_word};

use crate::lack::Lack;
use std::alloc::AllocError;
use sx_base::{Moment, Pages};
use sx_bytes::Encoding;
use sx_history::Found;
use sx_lines::put_moment;
use sx_row::ChainLengths;
use sx_show_text::{Columns, put_item};
use sx_tree::RowItem;

/// Puts the line of a row that was found into `line`, and answers whether its values are shown. The buffer `own` is used
/// again for the next one.
pub fn put_found<'a, P: Pages<'a>>(
    pages: &P,
    usable: u32,
    encoding: Encoding,
    moment: Moment,
    shape: &Option<Columns>,
    lengths: &mut ChainLengths,
    room: &mut Vec<u8>,
    own: &mut String,
    found: Found,
    line: &mut String,
) -> Result<bool, AllocError>
    requires least { 480 ≤ usable }
    requires within { usable ≤ P.page_size pages.now }
    requires small { P.page_size pages.now ≤ 65536 }
    requires lengths { AreLengths (P.pages pages.now) (P.view pages.now) lengths.old }
    ensures line { OnOk result (string_bytes line.new ≡ ended (at_moment moment (found_printed (P.pages pages.now) (P.view pages.now) usable encoding (option_map columns_by shape.now) found).line)) }
    ensures is_row { IfOk result (λ is_row. is_row ≡ (found_printed (P.pages pages.now) (P.view pages.now) usable encoding (option_map columns_by shape.now) found).is_row) }
    ensures lengths { AreLengths (P.pages pages.now) (P.view pages.now) lengths.new }
{
    let item = RowItem::Row {
        page: found.page,
        cell: found.cell,
    };
    let is_row = put_item(pages, usable, encoding, shape, lengths, room, item, own)?;
    put_moment_line(moment, own.as_str(), line)?;
    Ok(is_row)
}

/// Puts a text behind the moment's word into `line`.
fn put_moment_line(moment: Moment, text: &str, line: &mut String) -> Result<(), AllocError>
    ensures { OnOk result (string_bytes line.new ≡ at_moment moment text.now) }
{
    line.clear();
    put_moment(moment, line)?;
    line.push(' ')?;
    line.push_str(text)
}

/// Puts the moment's last line into `line`: how many rows are shown, and how many faults the tree has.
#[tactic(auto, unfolding(sx_show_text::specs::Show::last_line))]
pub fn put_last_line(
    moment: Moment,
    rows: u64,
    faults: u64,
    line: &mut String,
) -> Result<(), AllocError>
    ensures { OnOk result (string_bytes line.new ≡ ended (at_moment moment (last_line rows faults))) }
{
    line.clear();
    put_moment(moment, line)?;
    writeln!(line, " rows {rows} faults {faults}")
}

/// Puts the line of a moment without rows into `line`.
pub fn put_lack_line(moment: Moment, lack: Lack, line: &mut String) -> Result<(), AllocError>
    ensures { OnOk result (string_bytes line.new ≡ ended (at_moment moment (lack_word lack))) }
{
    put_moment_line(moment, lack.word(), line)?;
    line.push('\n')
}
