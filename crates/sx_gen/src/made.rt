//! The two files of a drill.
ghost use Rattle.std.specs.Prelude.{◌≡◌, ◌+◌, ◌*◌, ◌≤◌, length, IfOk};
ghost use Rattle.sx_gen.specs.Made.{drilled_database, drilled_log};

use crate::draws::{Draws, draw_leaves, draw_letters};
use crate::frames::make_log;
use crate::pages::{ROWS_OF_LEAF, make_database};
use std::alloc::{AllocError, Global};

/// A database and the write-ahead log beside it, byte for byte.
#[derive(Drop)]
pub struct Made {
    pub database: Vec<u8>,
    pub wal: Vec<u8>,
}

/// The evidence of a drill: a table of 20 rows in each of 1 to 400 leaves, and a log of at most 1000 commits, each of
/// which drops the last row of the leaf that it takes, unless that row is the only one. The same seed gives the same
/// bytes.
///
/// The database has 4096 bytes for each leaf and twice more ("Database File Format"), the log 32 and 4120 for each
/// commit ("WAL File Format"). Letters and leaves go by the seed. Takes time in proportion to the bytes, and to the
/// square of the commits.
pub fn make_case(alloc: Global, seed: u64, leaves: u32, commits: u32) -> Result<Made, AllocError>
    requires some { 1 ≤ leaves }
    requires few { leaves ≤ 400 }
    requires commits { commits ≤ 1000 }
    ensures database { IfOk result (λ made. made.database.items ≡ drilled_database seed leaves) }
    ensures wal { IfOk result (λ made. made.wal.items ≡ drilled_log seed leaves commits) }
    ensures pages { IfOk result (λ made. length made.database.items ≡ 4096 * (2 + leaves)) }
    ensures frames { IfOk result (λ made. length made.wal.items ≡ 32 + 4120 * commits) }
{
    let mut draws = Draws { state: seed };
    let letters = draw_letters(alloc, &mut draws, ROWS_OF_LEAF * leaves as usize)?;
    let taken = draw_leaves(alloc, &mut draws, leaves, commits)?;
    let database = make_database(alloc, &letters, leaves as usize)?;
    let wal = make_log(alloc, seed, &letters, leaves, &taken)?;
    Ok(Made { database, wal })
}
