//! Each public call on a small log and a small journal. The sums were computed by a script of another language.
use super::*;
use std::alloc::{AllocError, Global};
use std::process::Abort;
use std::test::Fail;
use sx_bytes::can_be_page_size;
use sx_journal::read_journal;
use sx_wal::read_wal;

/// Appends words, the high byte first, and so many zeros.
fn push(bytes: &mut Vec<u8>, words: &[u32], zeros: usize) -> Result<(), AllocError> {
    for word in words {
        bytes.extend_from_slice(&word.to_be_bytes())?;
    }
    for _ in 0..zeros {
        bytes.push(0)?;
    }
    Ok(())
}

/// Two frames of pages of zeros behind a header with wrong sums: the second continues the first.
fn log_of_two(alloc: Global) -> Result<Vec<u8>, AllocError> {
    let mut log = Vec::new(alloc);
    push(&mut log, &[0x377f_0683, 3_007_000, 512, 0, 3, 4, 0, 0], 0)?;
    push(&mut log, &[2, 2, 3, 4, 5, 7], 512)?;
    push(&mut log, &[2, 3, 3, 4, 0xea1c_c40e, 0x904f_5bf6], 512)?;
    Ok(log)
}

#[test]
fn a_run_is_listed_with_its_commits(rt: HostRuntime) -> Result<(), Fail> {
    let alloc = rt.alloc();
    let log = log_of_two(alloc)?;
    assert!(rt; can_be_page_size(512) && log.len() <= 2000);
    let wal = read_wal(alloc, Some(&log), 512)?;
    let older = older(alloc, &log, &wal)?;
    assert_eq!(rt; older.runs(), 1);
    let run = Run {
        first: 0,
        slots: 2,
        salt1: 3,
        salt2: 4,
        commits: 1,
    };
    assert_eq!(rt; older.run(0), run);
    assert_eq!(rt; older.commit(0, 0), 1);
    Ok(())
}

#[test]
fn records_of_zeros_confirm_one_another(rt: HostRuntime) -> Result<(), Fail> {
    let alloc = rt.alloc();
    let journal = vec![in alloc; 0u8; 1552]?;
    assert!(rt; can_be_page_size(512));
    let index = read_journal(alloc, Some(&journal), 512)?;
    let confirmed = confirmed(alloc, &journal, &index)?;
    assert_eq!(rt; confirmed.groups(), 1);
    let group = Group {
        first: 0,
        entries: 2,
        nonce: 0,
    };
    assert_eq!(rt; confirmed.group(0), group);
    Ok(())
}
