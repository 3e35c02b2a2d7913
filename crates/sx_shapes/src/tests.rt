//! The shapes of a schema of one table.
use super::*;
use std::test::Fail;
use sx_base::Sheets;
use sx_bytes::Encoding;
use sx_grammar::ShapeKey;
use sx_schema::schema;

#[test]
fn a_table_has_the_shape_of_its_text(rt: HostRuntime) -> Result<(), Fail> {
    let mut page = [0u8; 512];
    page[100] = 13;
    page[104] = 1;
    page[108..110].copy_from_slice(&[1, 201]);
    page[457..465].copy_from_slice(&[53, 1, 6, 23, 15, 15, 1, 91]);
    page[465..473].copy_from_slice(b"tablett\x02");
    page[473..512].copy_from_slice(b"CREATE TABLE t(a INTEGER PRIMARY KEY,b)");
    let sheets = [page.as_slice()];
    let pages = Sheets::new(512, &sheets);
    let schema = schema(rt.alloc(), &pages, 512, Encoding::Utf8)?;
    let shapes = table_shapes(rt.alloc(), &schema)?;
    let want = [
        ShapeKey {
            columns: 2,
            alias: true,
        },
        ShapeKey {
            columns: 5,
            alias: false,
        },
    ];
    assert_eq!(rt; shapes.as_slice(), want.as_slice());
    Ok(())
}
