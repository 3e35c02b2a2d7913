//! The line of a table's columns.
ghost use Rattle.std.specs.Prelude.{◌≡◌, ◌++◌, ◌∷◌, OnOk, string_bytes, map, codes};
ghost use Rattle.std.specs.Option.{option_map};
ghost use Rattle.sx_bytes.specs.declared.encoding.Encoding.TheVariants.{Utf8};
ghost use Rattle.sx_record.specs.Text.{quoted};
ghost use Rattle.sx_show_text.specs.Given.{columns_by};
ghost use Rattle.sx_lines.specs.Lines.{ended};
ghost use Rattle.sx_show_text.specs.Columns.{columns_line, names_text};

use std::alloc::AllocError;
use sx_bytes::Encoding;
use sx_record::put_text;

/// The columns of a table.
#[derive(Drop)]
pub struct Columns {
    /// Their names in order, as UTF-8 or any bytes.
    pub names: Vec<Vec<u8>>,
    /// The place among them, from 0, of the one that stands for the rowid.
    pub alias: Option<u32>,
}

/// Puts the line of a table's columns into `line`.
pub fn put_columns_line(shape: &Option<Columns>, line: &mut String) -> Result<(), AllocError>
    ensures { OnOk result (string_bytes line.new ≡ ended (columns_line (option_map columns_by shape.now))) }
{
    line.clear();
    match shape {
        None => line.push_str("columns unknown\n"),
        Some(shape) => put_columns(shape.names.as_slice(), line),
    }
}

/// Puts the line of these columns behind what `line` holds.
fn put_columns(names: &[Vec<u8>], line: &mut String) -> Result<(), AllocError>
    ensures { OnOk result (string_bytes line.new ≡ string_bytes line.old ++ ended (codes "columns" ++ names_text (map (λ name. name.items) names.now))) }
{
    line.push_str("columns")?;
    put_names(names, line)?;
    line.push('\n')
}

/// Puts names behind what `line` holds.
#[tactic(auto, using(crate::proofs::Names::names_more, crate::proofs::Names::names_end))]
fn put_names(names: &[Vec<u8>], line: &mut String) -> Result<(), AllocError>
    ensures { OnOk result (string_bytes line.new ≡ string_bytes line.old ++ names_text (map (λ name. name.items) names.now)) }
{
    for place in 0..names.len() {
        put_name(names[place].as_slice(), line)?;
    }
    Ok(())
}

/// Puts a name behind what `line` holds.
fn put_name(name: &[u8], line: &mut String) -> Result<(), AllocError>
    ensures { OnOk result (string_bytes line.new ≡ string_bytes line.old ++ 32 ∷ quoted Utf8 name.now) }
{
    line.push(' ')?;
    put_text(line, name, Encoding::Utf8)
}
