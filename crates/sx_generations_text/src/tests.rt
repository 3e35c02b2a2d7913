//! The whole text, over a log and a journal that were written by hand. The sums were computed by a script of another
//! language.
use super::*;
use std::alloc::{AllocError, Global};
use std::process::Abort;
use std::test::Fail;
use sx_bytes::can_be_page_size;
use sx_edge::Tray;
use sx_generations::{confirmed, older};
use sx_journal::read_journal;
use sx_lines::write_lines;
use sx_wal::read_wal;

/// Appends words, the high byte first, and so many zeros.
fn push(bytes: &mut Vec<u8>, words: &[u32], zeros: usize) -> Result<(), AllocError> {
    for word in words {
        bytes.extend_from_slice(&word.to_be_bytes())?;
    }
    for _ in 0..zeros {
        bytes.push(0)?;
    }
    Ok(())
}

/// Two frames of pages of zeros behind a header with wrong sums: the second continues the first.
fn log_of_two(alloc: Global) -> Result<Vec<u8>, AllocError> {
    let mut log = Vec::new(alloc);
    push(&mut log, &[0x377f_0683, 3_007_000, 512, 0, 3, 4, 0, 0], 0)?;
    push(&mut log, &[2, 2, 3, 4, 5, 7], 512)?;
    push(&mut log, &[2, 3, 3, 4, 0xea1c_c40e, 0x904f_5bf6], 512)?;
    Ok(log)
}

#[test]
fn a_run_and_a_group_are_five_lines(rt: HostRuntime) -> Result<(), Fail> {
    let alloc = rt.alloc();
    let log = log_of_two(alloc)?;
    assert!(rt; can_be_page_size(512) && log.len() <= 2000);
    let wal = read_wal(alloc, Some(&log), 512)?;
    let runs = older(alloc, &log, &wal)?;
    let journal = vec![in alloc; 0u8; 1552]?;
    let index = read_journal(alloc, Some(&journal), 512)?;
    let groups = confirmed(alloc, &journal, &index)?;
    let mut out = Tray::new(alloc, 1000, 7)?;
    let mut lines = GenerationsLines::new(&wal, runs, groups);
    assert_eq!(rt; write_lines(alloc, &mut lines, &mut out), Ok(()));
    let text =
        "wal runs 1 commits 1\nrun 0 slots 0-1 salts 00000003 00000004\ncommit frame 1 pages 3\njournal groups 1\ngroup 0 records 0-1 nonce 00000000\n";
    assert_eq!(rt; out.taken(), text.as_bytes());
    Ok(())
}
