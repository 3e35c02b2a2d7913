//! The line of a completed candidate.
ghost use Rattle.std.specs.Prelude.{◌≡◌, ◌++◌, ◌∷◌, ◌<◌, ◌^◌, length, OnOk, string_bytes};
ghost use Rattle.sx_record.specs.Content.{content_of};
ghost use Rattle.sx_record.specs.Records.{record_of};
ghost use Rattle.sx_record.specs.Text.{printed_value};
ghost use Rattle.sx_lines.specs.Lines.{ended};
ghost use Rattle.sx_carve_text.specs.Spilled.{values_text, record_text, whole_text, whole_line};

use crate::candidate_line::{put_form, put_overflow, put_page, put_place, put_rowid};
use std::alloc::AllocError;
use sx_bytes::Encoding;
use sx_carve::Candidate;
use sx_grammar::Reading;
use sx_images::Image;
use sx_record::{Value, Values, put_value, read_types};

/// Puts the line of a candidate in this image into `line`, with the values of its whole payload.
#[tactic(auto, unfolding(crate::specs::Spilled::whole_line))]
pub fn put_whole_line(
    encoding: Encoding,
    image: Image,
    candidate: &Candidate<'_>,
    payload: &[u8],
    line: &mut String,
) -> Result<(), AllocError>
    requires offset { image.offset < 2 ^ 32 }
    requires small { length payload.now < 2 ^ 32 }
    ensures { OnOk result (string_bytes line.new ≡ ended (whole_line encoding image candidate.now payload.now)) }
{
    line.clear();
    let reading = &candidate.reading;
    put_place(image, candidate.at, reading.len(), line)?;
    put_form(reading.form(), line)?;
    put_page(image, line)?;
    put_whole(encoding, reading, payload, line)?;
    line.push('\n')
}

/// Puts what is read of a completed candidate behind what `line` holds.
#[tactic(auto, unfolding(crate::specs::Spilled::whole_text))]
fn put_whole(
    encoding: Encoding,
    reading: &Reading<'_>,
    payload: &[u8],
    line: &mut String,
) -> Result<(), AllocError>
    requires { length payload.now < 2 ^ 32 }
    ensures { OnOk result (string_bytes line.new ≡ string_bytes line.old ++ whole_text encoding reading.now payload.now) }
{
    line.push_str(" rowid ")?;
    put_rowid(reading.rowid(), line)?;
    put_payload(encoding, payload, line)?;
    put_overflow(reading.overflow(), line)?;
    line.push_str(" complete")
}

/// Puts the values of a payload behind what `line` holds.
fn put_payload(encoding: Encoding, payload: &[u8], line: &mut String) -> Result<(), AllocError>
    requires { length payload.now < 2 ^ 32 }
    ensures { OnOk result (string_bytes line.new ≡ string_bytes line.old ++ record_text encoding (record_of payload.now)) }
{
    match read_types(payload) {
        Ok(fields) => put_values(encoding, fields.values(), line),
        Err(_) => Ok(()),
    }
}

/// Puts values behind what `line` holds.
fn put_values(encoding: Encoding, values: Values<'_>, line: &mut String) -> Result<(), AllocError>
    ensures { OnOk result (string_bytes line.new ≡ string_bytes line.old ++ values_text encoding values.entry) }
{
    let mut values = values;
    while let Some(value) = values.next() {
        put_spaced(encoding, value, line)?;
    }
    Ok(())
}

/// Puts a value behind what `line` holds and a space.
fn put_spaced(encoding: Encoding, value: Value<'_>, line: &mut String) -> Result<(), AllocError>
    ensures { OnOk result (string_bytes line.new ≡ string_bytes line.old ++ 32 ∷ printed_value encoding (content_of value.entry)) }
{
    line.push(' ')?;
    put_value(line, value, encoding)
}
