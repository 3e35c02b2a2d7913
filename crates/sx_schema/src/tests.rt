use super::*;
use std::test::Fail;
use sx_base::Sheets;
use sx_bytes::Encoding;

#[test]
fn a_table_is_found_by_its_name(rt: HostRuntime) -> Result<(), Fail> {
    let mut page = [0u8; 512];
    page[100] = 13;
    page[104] = 1;
    page[108..110].copy_from_slice(&[1, 239]);
    page[495..503].copy_from_slice(&[15, 1, 6, 23, 15, 15, 1, 15]);
    page[503..512].copy_from_slice(b"tablett\x02x");
    let sheets = [page.as_slice()];
    let pages = Sheets::new(512, &sheets);
    let schema = schema(rt.alloc(), &pages, 512, Encoding::Utf8)?;
    assert_eq!(rt; schema.entries().len(), 1);
    assert_eq!(rt; schema.roots(), [2].as_slice());
    assert_eq!(rt; schema.table(b"T"), Some(0));
    assert_eq!(rt; schema.table(b"x"), None);
    Ok(())
}
