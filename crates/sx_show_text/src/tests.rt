use super::*;
use std::test::Fail;
use sx_base::Sheets;
use sx_bytes::Encoding;
use sx_lines::Lines;

#[test]
fn a_line_for_each_item_of_the_tree(rt: HostRuntime) -> Result<(), Fail> {
    let first = [0u8; 512];
    let mut leaf = [0u8; 512];
    leaf[..12].copy_from_slice(&[13, 0, 0, 0, 2, 1, 234, 0, 1, 246, 1, 234]);
    leaf[490..493].copy_from_slice(&[1, 2, 9]);
    leaf[502..512].copy_from_slice(&[8, 1, 4, 0, 19, 1, b'a', b'n', b'n', 10]);
    let sheets = [first.as_slice(), leaf.as_slice()];
    let pages = Sheets::new(512, &sheets);
    let mut names = Vec::new(rt.alloc());
    names.push(Vec::from_slice(rt.alloc(), b"a")?)?;
    names.push(Vec::from_slice(rt.alloc(), b"it's")?)?;
    names.push(Vec::from_slice(rt.alloc(), b"c")?)?;
    names.push(Vec::from_slice(rt.alloc(), b"d")?)?;
    let columns = Some(Columns {
        names,
        alias: Some(0),
    });
    let mut lines = ShowLines::new(rt.alloc(), &pages, 512, Encoding::Utf8, 2, columns)?;
    let mut text = String::new(rt.alloc());
    let mut line = String::new(rt.alloc());
    for _ in 0..9 {
        if lines.next_line(&mut line)? {
            text.push_str(line.as_str())?;
        }
    }
    assert_eq!(rt;
        text.as_str(),
        "columns 'a' 'it\\'s' 'c' 'd'\nrow 1 1 'ann' 10 -\nfault headersize page 2 cell 1\nrows 1 faults 1\n"
    );
    Ok(())
}
