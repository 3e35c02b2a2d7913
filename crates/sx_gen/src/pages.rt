//! The pages of a drill's database.
ghost use Rattle.std.specs.Prelude.{◌≡◌, ◌+◌, ◌*◌, ◌≤◌, ◌<◌, ◌^◌, ◌++◌, length, IfOk, OnOk};
ghost use Rattle.sx_gen.specs.Pages.{row_cell, leaf_cells, leaf_page, inner_cell, inner_cells, inner_page, file_header, schema_cell, first_page, leaf_pages, database_bytes};

use crate::draws::LETTERS_OF_ROW;
use crate::pieces::{PAGE_SIZE, put_page_head, put_pointers, put_words, put_zeros};
use std::alloc::{AllocError, Global};

/// How many rows a leaf has at first.
pub const ROWS_OF_LEAF: usize = 20;

/// The length of a row's cell in bytes.
const ROW_CELL_LEN: usize = 19;

/// The length of an interior cell in bytes.
const INNER_CELL_LEN: usize = 6;

/// The database of so many leaves, whose rows have these letters.
#[tactic(auto, unfolding(crate::specs::Pages::database_bytes))]
pub fn make_database(alloc: Global, letters: &[u8], leaves: usize) -> Result<Vec<u8>, AllocError>
    requires some { 0 < leaves }
    requires few { leaves ≤ 400 }
    requires letters { length letters.now ≡ 240 * leaves }
    ensures value { IfOk result (λ database. database.items ≡ database_bytes letters.now leaves) }
    ensures len { IfOk result (λ database. length database.items ≡ 4096 * (2 + leaves)) }
{
    let mut database = Vec::with_capacity(alloc, PAGE_SIZE * (2 + leaves))?;
    put_first_page(&mut database, (2 + leaves) as u32)?;
    put_inner_page(&mut database, leaves)?;
    put_leaf_pages(&mut database, letters, leaves)?;
    Ok(database)
}

/// Puts page 1 of a database of so many pages: the file's header, and the schema's one row.
#[tactic(auto, unfolding(crate::specs::Pages::first_page))]
fn put_first_page(out: &mut Vec<u8>, pages: u32) -> Result<(), AllocError>
    ensures { OnOk result (out.new.items ≡ out.old.items ++ first_page pages) }
{
    put_file_header(out, pages)?;
    put_page_head(out, 13, 1, 4030)?;
    out.extend_from_slice(&4030u16.to_be_bytes())?;
    put_zeros(out, 3920)?;
    put_schema_cell(out)?;
    Ok(())
}

/// Puts the file's header, 100 bytes.
#[tactic(auto, unfolding(crate::specs::Pages::file_header, crate::specs::Pages::header_start))]
fn put_file_header(out: &mut Vec<u8>, pages: u32) -> Result<(), AllocError>
    ensures { OnOk result (out.new.items ≡ out.old.items ++ file_header pages) }
{
    out.extend_from_slice(b"SQLite format 3\0\x10\0\x01\x01\0\x40\x20\x20")?;
    put_words(
        out,
        &[2, pages, 0, 0, 1, 4, 0, 0, 1, 0, 0, 0, 0, 0, 0, 0, 0, 2, 0],
    )?;
    Ok(())
}

/// Puts the cell of the schema's one row, 66 bytes.
#[tactic(auto, unfolding(crate::specs::Pages::schema_cell))]
fn put_schema_cell(out: &mut Vec<u8>) -> Result<(), AllocError>
    ensures { OnOk result (out.new.items ≡ out.old.items ++ schema_cell) }
{
    out.extend_from_slice(
        b"\x40\x01\x06\x17\x0f\x0f\x01\x71tablett\x02CREATE TABLE t(a INTEGER PRIMARY KEY,b INT,c TEXT)",
    )?;
    Ok(())
}

/// Puts page 2, the interior page above so many leaves.
#[tactic(auto, unfolding(crate::specs::Pages::inner_page))]
fn put_inner_page(out: &mut Vec<u8>, leaves: usize) -> Result<(), AllocError>
    requires some { 0 < leaves }
    requires few { leaves ≤ 400 }
    ensures { OnOk result (out.new.items ≡ out.old.items ++ inner_page leaves) }
{
    let cells = leaves - 1;
    let content = PAGE_SIZE - INNER_CELL_LEN * cells;
    put_page_head(out, 5, cells as u16, content as u16)?;
    put_words(out, &[(2 + leaves) as u32])?;
    put_pointers(out, INNER_CELL_LEN, cells)?;
    put_zeros(out, 4084 - 8 * cells)?;
    put_inner_cells(out, cells)?;
    Ok(())
}

/// Puts the interior page's cells for so many leaves, the last one first.
#[tactic(auto, unfolding(crate::specs::Pages::inner_cells))]
fn put_inner_cells(out: &mut Vec<u8>, count: usize) -> Result<(), AllocError>
    requires { count ≤ 400 }
    ensures { OnOk result (out.new.items ≡ out.old.items ++ inner_cells count) }
{
    for k in 0..count {
        put_inner_cell(out, count - 1 - k)?;
    }
    Ok(())
}

/// Puts the interior page's cell for a leaf: its page number and its greatest rowid.
#[tactic(auto, unfolding(crate::specs::Pages::inner_cell))]
fn put_inner_cell(out: &mut Vec<u8>, leaf: usize) -> Result<(), AllocError>
    requires { leaf < 400 }
    ensures { OnOk result (out.new.items ≡ out.old.items ++ inner_cell leaf) }
{
    let rowid = 1000 + (ROWS_OF_LEAF * leaf + 19);
    put_words(out, &[(3 + leaf) as u32])?;
    out.extend_from_slice(&[(128 + rowid / 128) as u8, (rowid % 128) as u8])
}

/// Puts all leaves with all their rows.
#[tactic(auto, unfolding(crate::specs::Pages::leaf_pages))]
fn put_leaf_pages(out: &mut Vec<u8>, letters: &[u8], leaves: usize) -> Result<(), AllocError>
    requires few { leaves ≤ 400 }
    requires letters { length letters.now ≡ 240 * leaves }
    ensures { OnOk result (out.new.items ≡ out.old.items ++ leaf_pages letters.now leaves) }
{
    for leaf in 0..leaves {
        put_leaf_page(out, letters, leaf, ROWS_OF_LEAF)?;
    }
    Ok(())
}

/// Puts a leaf whose first rows are left, so many of them; the bytes of the others stay.
#[tactic(auto, unfolding(crate::specs::Pages::leaf_page))]
pub fn put_leaf_page(
    out: &mut Vec<u8>,
    letters: &[u8],
    leaf: usize,
    count: usize,
) -> Result<(), AllocError>
    requires leaf { leaf < 400 }
    requires count { count ≤ 20 }
    requires letters { 240 * (leaf + 1) ≤ length letters.now }
    ensures { OnOk result (out.new.items ≡ out.old.items ++ leaf_page letters.now leaf count) }
{
    put_page_head(
        out,
        13,
        count as u16,
        (PAGE_SIZE - ROW_CELL_LEN * count) as u16,
    )?;
    put_pointers(out, ROW_CELL_LEN, count)?;
    put_zeros(out, 3708 - 2 * count)?;
    put_leaf_cells(out, letters, leaf)?;
    Ok(())
}

/// Puts the cells of a leaf's rows, the last row first.
#[tactic(auto, unfolding(crate::specs::Pages::leaf_cells))]
fn put_leaf_cells(out: &mut Vec<u8>, letters: &[u8], leaf: usize) -> Result<(), AllocError>
    requires leaf { leaf < 400 }
    requires letters { 240 * (leaf + 1) ≤ length letters.now }
    ensures { OnOk result (out.new.items ≡ out.old.items ++ leaf_cells letters.now leaf) }
{
    for k in 0..ROWS_OF_LEAF {
        put_row_cell(out, letters, ROWS_OF_LEAF * leaf + (19 - k))?;
    }
    Ok(())
}

/// Puts a row's cell: a payload of 16 bytes, its rowid, a record of NULL, an integer of 4 bytes and a text of 8.
#[tactic(auto, unfolding(crate::specs::Pages::row_cell))]
fn put_row_cell(out: &mut Vec<u8>, letters: &[u8], row: usize) -> Result<(), AllocError>
    requires row { row < 8000 }
    requires letters { 12 * (row + 1) ≤ length letters.now }
    ensures { OnOk result (out.new.items ≡ out.old.items ++ row_cell letters.now row) }
{
    let rowid = 1000 + row;
    out.extend_from_slice(&[16, (128 + rowid / 128) as u8, (rowid % 128) as u8])?;
    out.extend_from_slice(&[4, 0, 4, 29])?;
    let start = LETTERS_OF_ROW * row;
    out.extend_from_slice(&letters[start..start + LETTERS_OF_ROW])
}
