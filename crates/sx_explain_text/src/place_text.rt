//! The lines of bytes and of what they are part of.
ghost use Rattle.std.specs.Prelude.{◌≡◌, ◌++◌, [], ◌∷◌, codes, OnOk, string_bytes};
ghost use Rattle.sx_images.specs.Images.{images_of};
ghost use Rattle.sx_lines.specs.Lines.{ended};
ghost use Rattle.sx_lines.specs.Labels.{label_word};
ghost use Rattle.sx_explain_text.specs.Explain.{byte_line, thing_line, numbered_line, image_line, place_line, moment_line};

use std::alloc::AllocError;
use sx_base::{Label, Moment, Place};
use sx_images::{Image, ImageTable, Physical};
use sx_lines::{class_name, part_name, put_label, put_moment};

/// Puts the line of a byte into `line`.
#[tactic(auto, unfolding(crate::specs::Explain::byte_line))]
pub fn put_byte_line(place: Place, line: &mut String) -> Result<(), AllocError>
    ensures { OnOk result (string_bytes line.new ≡ ended (byte_line place)) }
{
    line.clear();
    let part = part_name(place.part);
    let offset = place.offset;
    writeln!(line, "{part} byte {offset}")
}

/// Puts the line of what a byte is part of into `line`.
pub fn put_place_line(
    images: &ImageTable,
    physical: Physical,
    line: &mut String,
) -> Result<(), AllocError>
    ensures { OnOk result (string_bytes line.new ≡ ended (place_line (images_of images.now) physical)) }
{
    match physical {
        Physical::Image(i, b) => put_image_part(images, i, b, line),
        Physical::WalHeader(b) => put_thing_line("walheader", b, line),
        Physical::FrameHead(i, b) => put_numbered_line("framehead frame", i, b, line),
        Physical::JournalHead(i, b) => put_numbered_line("journalhead segment", i, b, line),
        Physical::EntryHead(i, b) => put_numbered_line("recordhead record", i, b, line),
        Physical::EntrySum(i, b) => put_numbered_line("recordsum record", i, b, line),
        Physical::Pad => put_word("pad", line),
        Physical::Loose => put_word("loose", line),
    }
}

// Puts the line of a byte of image `i` into `line`.
fn put_image_part(
    images: &ImageTable,
    i: u32,
    byte: u32,
    line: &mut String,
) -> Result<(), AllocError>
    ensures { OnOk result (string_bytes line.new ≡ ended (place_line (images_of images.now) (Physical.Image i byte))) }
{
    if i < images.count() {
        put_image_line(images.image(i), byte, line)
    } else {
        put_word("loose", line)
    }
}

// Puts the line of a byte of an image into `line`.
#[tactic(auto, unfolding(crate::specs::Explain::image_line))]
fn put_image_line(image: Image, byte: u32, line: &mut String) -> Result<(), AllocError>
    ensures { OnOk result (string_bytes line.new ≡ ended (image_line image byte)) }
{
    line.clear();
    let page = image.page;
    let class = class_name(image.class);
    writeln!(line, "page {page} {class} byte {byte}")
}

// Puts the line of a byte of a thing without a number into `line`.
#[tactic(auto, unfolding(crate::specs::Explain::thing_line))]
fn put_thing_line(name: &str, byte: u32, line: &mut String) -> Result<(), AllocError>
    ensures { OnOk result (string_bytes line.new ≡ ended (thing_line name.now byte)) }
{
    line.clear();
    writeln!(line, "{name} byte {byte}")
}

// Puts the line of a byte of a thing with a number into `line`.
#[tactic(auto, unfolding(crate::specs::Explain::numbered_line))]
fn put_numbered_line(
    name: &str,
    number: u32,
    byte: u32,
    line: &mut String,
) -> Result<(), AllocError>
    ensures { OnOk result (string_bytes line.new ≡ ended (numbered_line name.now number byte)) }
{
    line.clear();
    writeln!(line, "{name} {number} byte {byte}")
}

// Puts a line of one word into `line`.
fn put_word(word: &str, line: &mut String) -> Result<(), AllocError>
    ensures { OnOk result (string_bytes line.new ≡ ended word.now) }
{
    line.clear();
    writeln!(line, "{word}")
}

/// Puts the line of a byte of a page image at a moment into `line`.
#[tactic(auto, unfolding(crate::specs::Explain::moment_line))]
pub fn put_moment_line(
    moment: Moment,
    label: Option<Label>,
    line: &mut String,
) -> Result<(), AllocError>
    ensures { OnOk result (string_bytes line.new ≡ ended (moment_line moment label)) }
{
    line.clear();
    line.push_str("at ")?;
    put_moment(moment, line)?;
    match label {
        Some(label) => put_seen(label, line),
        None => writeln!(line, " not in view"),
    }
}

// Puts a label's word and the line's end behind what `line` holds.
fn put_seen(label: Label, line: &mut String) -> Result<(), AllocError>
    ensures { OnOk result (string_bytes line.new ≡ string_bytes line.old ++ (codes " " ++ label_word label ++ 10 ∷ [])) }
{
    line.push_str(" ")?;
    put_label(label, line)?;
    line.push_str("\n")
}
