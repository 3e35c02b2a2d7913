use super::*;
use std::test::Fail;
use sx_base::Sheets;
use sx_cell::Cell;

/// A cell whose payload of so many bytes stands on overflow pages alone, from a page on.
fn spilled(payload: u64, page: u32) -> Cell {
    Cell {
        at: 0,
        len: 4,
        child: None,
        rowid: None,
        payload,
        local_at: 0,
        local: 0,
        overflow: Some(page),
    }
}

#[test]
fn a_payload_is_whole_where_its_chain_is_long_enough(rt: HostRuntime) -> Result<(), Fail> {
    let (end, first, round) = (page_to(0), page_to(1), page_to(3));
    let sheets = [end.as_slice(), first.as_slice(), round.as_slice()];
    let pages = Sheets::new(512, &sheets);
    let mut lengths = ChainLengths::new(rt.alloc(), &pages);
    assert_eq!(rt; lengths.is_whole(&pages, &spilled(1017, 2), 512), Ok(false));
    assert_eq!(rt; lengths.is_whole(&pages, &spilled(1016, 2), 512), Ok(true));
    assert_eq!(rt; lengths.is_whole(&pages, &spilled(1524, 3), 512), Ok(true));
    assert_eq!(rt; lengths.is_whole(&pages, &spilled(1, 9), 512), Ok(false));
    Ok(())
}

/// An overflow page that links to a page.
fn page_to(page: u8) -> [u8; 512] {
    let mut bytes = [0u8; 512];
    bytes[3] = page;
    bytes
}

#[test]
fn a_row_is_read_from_its_cell_or_from_its_pages(rt: HostRuntime) -> Result<(), Fail> {
    let end = page_to(0);
    let mut leaf = [0u8; 512];
    leaf[0] = 13;
    leaf[4] = 2;
    leaf[9] = 20;
    leaf[11] = 30;
    leaf[20..24].copy_from_slice(&[2, 9, 2, 9]);
    leaf[30..36].copy_from_slice(&[0x83, 0x5e, 7, 3, 0x87, 0x42]);
    leaf[75] = 1;
    let sheets = [end.as_slice(), leaf.as_slice()];
    let pages = Sheets::new(512, &sheets);
    let mut lengths = ChainLengths::new(rt.alloc(), &pages);
    let mut room = Vec::new(rt.alloc());
    let local = read_row(&mut lengths, &mut room, &pages, 512, 2, 0)?.ok_or("no row")?;
    assert_eq!(rt; local.rowid, Some(9));
    let joined = read_row(&mut lengths, &mut room, &pages, 512, 2, 1)?.ok_or("no row")?;
    let Ok(columns) = joined.columns else {
        return Err(Fail::from("no columns"));
    };
    assert_eq!(rt; columns.columns(), 1);
    Ok(())
}
