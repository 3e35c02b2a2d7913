//! What no clause says: lengths, and bytes that an independent script made.

use crate::made::make_case;
use std::alloc::{AllocError, Global};
use std::test::Fail;
use sx_bytes::can_be_page_size;
use sx_wal::{WalState, read_wal};

/// The 64-bit FNV-1a hash of bytes.
fn hash(bytes: &[u8]) -> u64 {
    let mut hash: u64 = 0xcbf2_9ce4_8422_2325;
    for byte in bytes {
        hash = (hash ^ u64::from(*byte)).wrapping_mul(0x100_0000_01b3);
    }
    hash
}

#[test]
fn drills_have_the_bytes_of_the_script(rt: HostRuntime) -> Result<(), Fail> {
    let least = make_case(rt.alloc(), 7, 1, 3)?;
    assert_eq!(rt; least.database.len(), 12288);
    assert_eq!(rt; least.wal.len(), 12392);
    assert_eq!(rt; hash(&least.database), 0x1ec3_f8e1_a995_191d);
    assert_eq!(rt; hash(&least.wal), 0x51ea_d6af_fc64_cb5b);

    // three leaves, each taken more often than it has rows to drop
    let longer = make_case(rt.alloc(), 9, 3, 70)?;
    assert_eq!(rt; hash(&longer.database), 0xa9e3_e70c_f17d_03b9);
    assert_eq!(rt; hash(&longer.wal), 0xc738_31fb_27a0_7f97);
    Ok(())
}

/// How many commits are read in a log, none where it isn't good.
fn commits_read(alloc: Global, wal: &[u8]) -> Result<u32, AllocError> {
    if !can_be_page_size(4096) || wal.len() >= 4294967296 {
        return Ok(0);
    }
    let log = read_wal(alloc, Some(wal), 4096)?;
    match log.state() {
        WalState::Good => Ok(log.commits()),
        _ => Ok(0),
    }
}

#[test]
fn each_commit_of_the_greatest_log_is_read(rt: HostRuntime) -> Result<(), Fail> {
    let made = make_case(rt.alloc(), u64::MAX, 400, 1000)?;
    assert_eq!(rt; made.database.len(), 1_646_592);
    assert_eq!(rt; made.wal.len(), 4_120_032);
    assert_eq!(rt; commits_read(rt.alloc(), &made.wal)?, 1000);
    Ok(())
}
