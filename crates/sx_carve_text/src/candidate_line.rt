//! The line of a candidate.
ghost use Rattle.std.specs.Prelude.{◌≡◌, ◌++◌, ◌∷◌, ◌<◌, ◌^◌, OnOk, string_bytes};
ghost use Rattle.sx_grammar.specs.Sightings.{seen_of};
ghost use Rattle.sx_lines.specs.Lines.{ended};
ghost use Rattle.sx_carve_text.specs.Carve.{alias_mark, form_word, found_rowid, seen_text, columns_text, first_overflow_text, place_text, page_text, sighting_text, found_line};

use std::alloc::AllocError;
use sx_bytes::Encoding;
use sx_carve::Candidate;
use sx_grammar::{Columns, Form, Reading, Shown};
use sx_images::Image;
use sx_lines::{class_name, part_name};
use sx_record::put_value;

/// Puts the line of a candidate in this image into `line`.
#[tactic(auto, unfolding(crate::specs::Carve::found_line))]
pub fn put_candidate_line(
    encoding: Encoding,
    image: Image,
    candidate: &Candidate<'_>,
    line: &mut String,
) -> Result<(), AllocError>
    requires { image.offset < 2 ^ 32 }
    ensures { OnOk result (string_bytes line.new ≡ ended (found_line encoding image candidate.now)) }
{
    line.clear();
    let reading = &candidate.reading;
    put_place(image, candidate.at, reading.len(), line)?;
    put_form(reading.form(), line)?;
    put_page(image, line)?;
    put_reading(encoding, reading, line)?;
    line.push('\n')
}

/// Puts a candidate's file, its offset in that and its length behind what `line` holds.
#[tactic(auto, unfolding(crate::specs::Carve::place_text))]
pub(crate) fn put_place(
    image: Image,
    at: u32,
    len: u32,
    line: &mut String,
) -> Result<(), AllocError>
    requires { image.offset < 2 ^ 32 }
    ensures { OnOk result (string_bytes line.new ≡ string_bytes line.old ++ place_text image at len) }
{
    let part = part_name(image.part);
    let offset = image.offset + u64::from(at);
    write!(line, "{part} {offset} {len} ")
}

/// Puts a form behind what `line` holds.
#[tactic(auto, unfolding(crate::specs::Carve::form_word))]
pub(crate) fn put_form(form: Form, line: &mut String) -> Result<(), AllocError>
    ensures { OnOk result (string_bytes line.new ≡ string_bytes line.old ++ form_word form) }
{
    match form {
        Form::Full => line.push_str("full"),
        Form::Tail(e) => write!(line, "tail{e}"),
        Form::Types(n) => write!(line, "types{n}"),
        Form::Lost(n, alias) => {
            let mark = alias_mark(alias);
            write!(line, "lost{n}{mark}")
        }
    }
}

/// The mark of an alias of the rowid.
fn alias_mark(alias: bool) -> &'static str
    ensures { result.now ≡ alias_mark alias }
{
    if alias { "a" } else { "" }
}

/// Puts the page of an image and its class behind what `line` holds.
#[tactic(auto, unfolding(crate::specs::Carve::page_text))]
pub(crate) fn put_page(image: Image, line: &mut String) -> Result<(), AllocError>
    ensures { OnOk result (string_bytes line.new ≡ string_bytes line.old ++ page_text image) }
{
    let page = image.page;
    let class = class_name(image.class);
    write!(line, " page {page} {class}")
}

/// Puts what is read of a candidate behind what `line` holds.
#[tactic(auto, unfolding(crate::specs::Carve::sighting_text))]
fn put_reading(
    encoding: Encoding,
    reading: &Reading<'_>,
    line: &mut String,
) -> Result<(), AllocError>
    ensures { OnOk result (string_bytes line.new ≡ string_bytes line.old ++ sighting_text encoding reading.now) }
{
    line.push_str(" rowid ")?;
    put_rowid(reading.rowid(), line)?;
    put_columns(encoding, reading.values(), line)?;
    put_overflow(reading.overflow(), line)
}

/// Puts a rowid behind what `line` holds.
pub(crate) fn put_rowid(rowid: Option<i64>, line: &mut String) -> Result<(), AllocError>
    ensures { OnOk result (string_bytes line.new ≡ string_bytes line.old ++ found_rowid rowid) }
{
    match rowid {
        Some(rowid) => write!(line, "{rowid}"),
        None => line.push('?'),
    }
}

/// Puts columns behind what `line` holds.

fn put_columns(
    encoding: Encoding,
    columns: Columns<'_>,
    line: &mut String,
) -> Result<(), AllocError>
    ensures { OnOk result (string_bytes line.new ≡ string_bytes line.old ++ columns_text encoding columns.entry) }
{
    let mut columns = columns;
    while let Some(column) = columns.next() {
        put_column(encoding, column, line)?;
    }
    Ok(())
}

/// Puts a column behind what `line` holds.
fn put_column(encoding: Encoding, column: Shown<'_>, line: &mut String) -> Result<(), AllocError>
    ensures { OnOk result (string_bytes line.new ≡ string_bytes line.old ++ 32 ∷ seen_text encoding (seen_of column.entry)) }
{
    line.push(' ')?;
    match column {
        Shown::Value(value) => put_value(line, value, encoding),
        Shown::Lost => line.push('?'),
        Shown::Beyond => line.push_str("..."),
    }
}

/// Puts the first overflow page, where there is one, behind what `line` holds.
pub(crate) fn put_overflow(overflow: Option<u32>, line: &mut String) -> Result<(), AllocError>
    ensures { OnOk result (string_bytes line.new ≡ string_bytes line.old ++ first_overflow_text overflow) }
{
    match overflow {
        Some(page) => write!(line, " overflow {page}"),
        None => Ok(()),
    }
}
