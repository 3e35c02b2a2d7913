//! Logs whose checksums an independent script computed, read back.

use crate::{Slot, WalState, read_wal};
use std::alloc::{AllocError, Global};
use std::test::Fail;
use sx_base::Class;
use sx_bytes::can_be_page_size;

const LITTLE: u32 = 0x377f_0682;

const BIG: u32 = 0x377f_0683;

/// The page of a frame: its first bytes, so many zeros, and its last bytes.
#[derive(Clone, Copy)]
struct Page {
    front: &'static [u8],
    zeros: usize,
    back: &'static [u8],
}

/// A leaf page of a table, whose second record was deleted.
const DELETED: Page = Page {
    front: b"\x0d\x01\xec\x00\x02\x01\xe4\x00\x01\xf6\x01\xe4\x01\xe4",
    zeros: 470,
    back: b"\x06\x03\x04\x00\x11\x00cy\x00\x00\x00\x0a\x13\x01bob\x14\x08\x01\x04\x00\x13\x01ann\x0a",
};

/// The same page with a new record in its place.
const REPLACED: Page = Page {
    front: b"\x0d\x00\x00\x00\x03\x01\xe4\x00\x01\xf6\x01\xe4\x01\xec",
    zeros: 470,
    back: b"\x06\x03\x04\x00\x11\x00cy\x08\x04\x04\x00\x13\x01dee(\x08\x01\x04\x00\x13\x01ann\x0a",
};

/// The first page of that database.
const FIRST: Page = Page {
    front: b"\x53\x51\x4c\x69\x74\x65\x20\x66\x6f\x72\x6d\x61\x74\x20\x33\x00\x02\x00\x01\x01\
        \x00\x40\x20\x20\x00\x00\x00\x02\x00\x00\x00\x02\x00\x00\x00\x00\x00\x00\x00\x00\
        \x00\x00\x00\x01\x00\x00\x00\x04\x00\x00\x00\x00\x00\x00\x00\x00\x00\x00\x00\x01\
        \x00\x00\x00\x00\x00\x00\x00\x00\x00\x00\x00\x00\x00\x00\x00\x00\x00\x00\x00\x00\
        \x00\x00\x00\x00\x00\x00\x00\x00\x00\x00\x00\x00\x00\x00\x00\x02\x00\x00\x00\x00\
        \x0d\x00\x00\x00\x01\x01\xbe\x00\x01\xbe",
    zeros: 336,
    back: b"@\x01\x06\x17\x0f\x0f\x01qtablett\x02CREATE TABLE t(a INTEGER PRIMARY KEY,b TEXT,c INT)",
};

/// The greatest page, of zeros.
const GREATEST: Page = Page {
    front: b"",
    zeros: 65536,
    back: b"",
};

/// A frame: page number, commit size, salts and sums, its page; and what its slot is to answer.
#[derive(Clone, Copy)]
struct Frame {
    words: [u32; 6],
    page: Page,
    offset: u64,
    class: Class,
}

/// A log with a header of version 3007000.
#[derive(Clone, Copy)]
struct Log {
    magic: u32,
    page_size: u32,
    salts: (u32, u32),
    sums: (u32, u32),
    frames: &'static [Frame],
    commits: &'static [u32],
}

/// Two commits of one page.
const TWO_COMMITS: Log = Log {
    magic: BIG,
    page_size: 512,
    salts: (1, 2),
    sums: (0x1604_cad8, 0xbcdd_a493),
    frames: &[
        Frame {
            words: [2, 2, 1, 2, 0x72b5_5772, 0xbb8c_7c99],
            page: DELETED,
            offset: 56,
            class: Class::Committed,
        },
        Frame {
            words: [2, 2, 1, 2, 0xef69_f91e, 0x65d7_2ff5],
            page: REPLACED,
            offset: 592,
            class: Class::Committed,
        },
    ],
    commits: &[0, 1],
};

/// The same with the other magic.
const TWO_COMMITS_LITTLE: Log = Log {
    magic: LITTLE,
    page_size: 512,
    salts: (1, 2),
    sums: (0xd5cb_0313, 0x8fa4_dab8),
    frames: &[
        Frame {
            words: [2, 2, 1, 2, 0x7ae9_0a50, 0xf4ac_916d],
            page: DELETED,
            offset: 56,
            class: Class::Committed,
        },
        Frame {
            words: [2, 2, 1, 2, 0x7ac6_1f00, 0xec34_f160],
            page: REPLACED,
            offset: 592,
            class: Class::Committed,
        },
    ],
    commits: &[0, 1],
};

/// A commit, and a frame of a commit that isn't whole.
const UNFINISHED: Log = Log {
    magic: BIG,
    page_size: 512,
    salts: (1, 2),
    sums: (0x1604_cad8, 0xbcdd_a493),
    frames: &[
        Frame {
            words: [2, 2, 1, 2, 0x72b5_5772, 0xbb8c_7c99],
            page: DELETED,
            offset: 56,
            class: Class::Committed,
        },
        Frame {
            words: [2, 0, 1, 2, 0x91ab_a394, 0xd07f_9a31],
            page: REPLACED,
            offset: 592,
            class: Class::Pending,
        },
    ],
    commits: &[0],
};

/// Three frames and no commit.
const NO_COMMIT: Log = Log {
    magic: BIG,
    page_size: 512,
    salts: (1, 2),
    sums: (0x1604_cad8, 0xbcdd_a493),
    frames: &[
        Frame {
            words: [2, 0, 1, 2, 0x14f7_01e8, 0x2634_e6d5],
            page: DELETED,
            offset: 56,
            class: Class::Pending,
        },
        Frame {
            words: [2, 0, 1, 2, 0xfad7_f4e4, 0xe78a_9547],
            page: REPLACED,
            offset: 592,
            class: Class::Pending,
        },
        Frame {
            words: [1, 0, 1, 2, 0xa7f4_d939, 0x838a_d9ba],
            page: FIRST,
            offset: 1128,
            class: Class::Pending,
        },
    ],
    commits: &[],
};

/// A commit, and a frame of other salts behind it.
const FOLLOWED: Log = Log {
    magic: BIG,
    page_size: 512,
    salts: (1, 2),
    sums: (0x1604_cad8, 0xbcdd_a493),
    frames: &[
        Frame {
            words: [2, 2, 1, 2, 0x9bb5_ab40, 0xcc3d_fa49],
            page: REPLACED,
            offset: 56,
            class: Class::Committed,
        },
        Frame {
            words: [2, 2, 7, 8, 0x72b5_5772, 0xbb8c_7c99],
            page: DELETED,
            offset: 592,
            class: Class::Foreign,
        },
    ],
    commits: &[0],
};

/// A log that was begun anew over an older one of three commits.
const RESTARTED: Log = Log {
    magic: BIG,
    page_size: 512,
    salts: (3, 4),
    sums: (0x1604_cada, 0xbcdd_a497),
    frames: &[
        Frame {
            words: [2, 2, 3, 4, 0x1739_17a0, 0xd02e_e7bb],
            page: REPLACED,
            offset: 56,
            class: Class::Committed,
        },
        Frame {
            words: [2, 2, 1, 2, 0xef69_f91e, 0x65d7_2ff5],
            page: REPLACED,
            offset: 592,
            class: Class::Foreign,
        },
        Frame {
            words: [2, 2, 1, 2, 0xdb50_242c, 0x6e53_c1b5],
            page: DELETED,
            offset: 1128,
            class: Class::Foreign,
        },
    ],
    commits: &[0],
};

/// A frame with right salts and sums, whose page number is 0.
const NO_PAGE_NUMBER: Log = Log {
    magic: BIG,
    page_size: 512,
    salts: (1, 2),
    sums: (0x1604_cad8, 0xbcdd_a493),
    frames: &[Frame {
        words: [0, 2, 1, 2, 0xdd5d_c1ae, 0xc876_914b],
        page: DELETED,
        offset: 56,
        class: Class::Broken,
    }],
    commits: &[],
};

/// A commit of the greatest page.
const GREATEST_PAGE: Log = Log {
    magic: BIG,
    page_size: 65536,
    salts: (1, 2),
    sums: (0x1606_c6d8, 0xbce0_9e93),
    frames: &[Frame {
        words: [1, 1, 1, 2, 0x3cd4_fd58, 0xf3aa_ebe4],
        page: GREATEST,
        offset: 56,
        class: Class::Committed,
    }],
    commits: &[0],
};

fn append_words(log: &mut Vec<u8>, words: &[u32]) -> Result<(), AllocError> {
    for word in words {
        log.extend_from_slice(&word.to_be_bytes())?;
    }
    Ok(())
}

fn append_page(log: &mut Vec<u8>, page: &Page) -> Result<(), AllocError> {
    log.extend_from_slice(page.front)?;
    for _ in 0..page.zeros {
        log.push(0)?;
    }
    log.extend_from_slice(page.back)
}

fn bytes_of(alloc: Global, log: &Log) -> Result<Vec<u8>, AllocError> {
    let mut bytes = Vec::new(alloc);
    append_words(&mut bytes, &[log.magic, 3007000, log.page_size, 0])?;
    append_words(
        &mut bytes,
        &[log.salts.0, log.salts.1, log.sums.0, log.sums.1],
    )?;
    for frame in log.frames {
        append_words(&mut bytes, &frame.words)?;
        append_page(&mut bytes, &frame.page)?;
    }
    Ok(bytes)
}

fn slots_of(alloc: Global, log: &Log) -> Result<Vec<Slot>, AllocError> {
    let mut slots = Vec::new(alloc);
    for frame in log.frames {
        slots.push(Slot {
            page: frame.words[0],
            commit_size: frame.words[1],
            offset: frame.offset,
            class: frame.class,
        })?;
    }
    Ok(slots)
}

/// What a reader of a log is to answer: its state, its slots, and the slots of its commits.
type Wanted<'a> = (WalState, &'a [Slot], &'a [u32]);

/// Whether the log reads as is wanted.
fn reads_as(
    alloc: Global,
    log: Option<&[u8]>,
    page_size: u32,
    wanted: Wanted<'_>,
) -> Result<bool, AllocError> {
    if !can_be_page_size(page_size) || log.map_or(0, |bytes| bytes.len()) >= 4294967296 {
        return Ok(false);
    }
    let index = read_wal(alloc, log, page_size)?;
    let mut slots = Vec::new(alloc);
    for i in 0..index.slots() {
        slots.push(index.slot(i))?;
    }
    let mut commits = Vec::new(alloc);
    for k in 0..index.commits() {
        commits.push(index.commit(k + 1))?;
    }
    Ok(index.state() == wanted.0 && slots.as_slice() == wanted.1 && commits.as_slice() == wanted.2)
}

#[test]
fn each_log_is_read_as_it_was_written(rt: HostRuntime) -> Result<(), Fail> {
    let logs = [
        TWO_COMMITS,
        TWO_COMMITS_LITTLE,
        UNFINISHED,
        NO_COMMIT,
        FOLLOWED,
        RESTARTED,
        NO_PAGE_NUMBER,
        GREATEST_PAGE,
    ];
    for log in &logs {
        let bytes = bytes_of(rt.alloc(), log)?;
        let slots = slots_of(rt.alloc(), log)?;
        let wanted = (WalState::Good, slots.as_slice(), log.commits);
        assert!(rt; reads_as(rt.alloc(), Some(&bytes), log.page_size, wanted)?);
    }
    Ok(())
}

#[test]
fn a_log_is_read_up_to_its_last_whole_frame(rt: HostRuntime) -> Result<(), Fail> {
    let bytes = bytes_of(rt.alloc(), &TWO_COMMITS)?;
    let slots = slots_of(rt.alloc(), &TWO_COMMITS)?;
    let table = [
        (0, WalState::Short, 0),
        (31, WalState::Short, 0),
        (32, WalState::Good, 0),
        (567, WalState::Good, 0),
        (568, WalState::Good, 1),
        (1103, WalState::Good, 1),
        (1104, WalState::Good, 2),
    ];
    for (len, state, whole) in table {
        let front = slots.get(..whole).unwrap_or(&[]);
        let wanted = (state, front, [0, 1].get(..whole).unwrap_or(&[]));
        assert!(rt;
            reads_as(rt.alloc(), bytes.get(..len), 512, wanted)?,
            "{len} bytes"
        );
    }
    let none = (WalState::Absent, [].as_slice(), [].as_slice());
    assert!(rt; reads_as(rt.alloc(), None, 512, none)?);
    Ok(())
}

#[test]
fn a_changed_byte_shows_in_the_classes(rt: HostRuntime) -> Result<(), Fail> {
    let table = [
        // the last word of the header, and a salt in it
        (31, WalState::BadHeaderSum, Class::Broken, Class::Broken, 0),
        (
            19,
            WalState::BadHeaderSum,
            Class::Foreign,
            Class::Foreign,
            0,
        ),
        // the first frame: a salt, its sums, the last byte of its page
        (47, WalState::Good, Class::Foreign, Class::Broken, 0),
        (48, WalState::Good, Class::Broken, Class::Broken, 0),
        (567, WalState::Good, Class::Broken, Class::Broken, 0),
        // the second frame: its salts, its sums, a byte of its page
        (579, WalState::Good, Class::Committed, Class::Foreign, 1),
        (583, WalState::Good, Class::Committed, Class::Foreign, 1),
        (591, WalState::Good, Class::Committed, Class::Broken, 1),
        (692, WalState::Good, Class::Committed, Class::Broken, 1),
    ];
    for (at, state, first, second, commits) in table {
        let mut bytes = bytes_of(rt.alloc(), &TWO_COMMITS)?;
        if let Some(byte) = bytes.get_mut(at) {
            *byte ^= 1;
        }
        let slots = [
            Slot {
                page: 2,
                commit_size: 2,
                offset: 56,
                class: first,
            },
            Slot {
                page: 2,
                commit_size: 2,
                offset: 592,
                class: second,
            },
        ];
        let wanted = (state, slots.as_slice(), [0].get(..commits).unwrap_or(&[]));
        assert!(rt;
            reads_as(rt.alloc(), Some(&bytes), 512, wanted)?,
            "byte {at}"
        );
    }
    Ok(())
}

#[test]
fn the_first_fault_of_the_header_is_its_state(rt: HostRuntime) -> Result<(), Fail> {
    let table = [
        (0, 3007000, 512, WalState::BadMagic),
        (LITTLE - 1, 3007000, 512, WalState::BadMagic),
        (BIG + 1, 0, 0, WalState::BadMagic),
        (BIG, 3007001, 0, WalState::BadVersion),
        (LITTLE, 3006999, 512, WalState::BadVersion),
        (BIG, 3007000, 0, WalState::BadPageSize),
        (BIG, 3007000, 1, WalState::BadPageSize),
        (BIG, 3007000, 256, WalState::BadPageSize),
        (BIG, 3007000, 513, WalState::BadPageSize),
        (BIG, 3007000, 131072, WalState::BadPageSize),
        (BIG, 3007000, 1024, WalState::OtherPageSize),
        (LITTLE, 3007000, 65536, WalState::OtherPageSize),
        (LITTLE, 3007000, 512, WalState::BadHeaderSum),
    ];
    for (magic, version, page_size, state) in table {
        let mut bytes = Vec::new(rt.alloc());
        append_words(&mut bytes, &[magic, version, page_size, 0, 1, 2, 0, 0])?;
        let wanted = (state, [].as_slice(), [].as_slice());
        assert!(rt;
            reads_as(rt.alloc(), Some(&bytes), 512, wanted)?,
            "{magic} {version} {page_size}"
        );
    }
    Ok(())
}
