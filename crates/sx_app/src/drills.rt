//! Drills: evidence that is made from a seed, examined as any other is.
ghost use Rattle.std.specs.Prelude.{◌≡◌, ℕ, Bool, Option, Some, Ok, codes, count_by, length, option_copied, IfOk, IfErr};
ghost use Rattle.sx_base.specs.Files.{Files};
ghost use Rattle.sx_moment.specs.Gathered.{bytes_in, size_at};
ghost use Rattle.sx_moment.specs.Heads.{layout_of};
ghost use Rattle.sx_moment.specs.Limits.{IsSmall};
ghost use Rattle.sx_moment.specs.Views.{view_of};
ghost use Rattle.sx_tree.specs.Rows.{rows_of};
ghost use Rattle.sx_tree.specs.Trees.{tree_in};
ghost use Rattle.sx_words.specs.Words as words;
ghost use Rattle.sx_drill_text.specs.Rest.{drill_rest};
ghost use Rattle.sx_app.specs.Drills.{candidate_count, drill_of, drilled, found_in, is_row, last_moment, rows_named};
ghost use Rattle.sx_app.specs.Loaded.{evidence_by};
ghost use Rattle.sx_app.specs.Owed.{IsExamined};
ghost use Rattle.sx_app.specs.declared.refused.Refused.TheVariants.{Memory};

use crate::carving::{count_candidates, prepare};
use crate::database::Database;
use crate::evidence::gather;
use crate::finish::write;
use crate::histories::table_there;
use crate::loaded::{Companions, Loaded};
use crate::moments::last_snapshot;
use crate::refused::Refused;
use std::alloc::{AllocError, Global};
use sx_base::Moment;
use sx_drill_text::{DrillCounts, DrillLines};
use sx_edge::Sink;
use sx_gen::{Made, make_case};
use sx_header::read_header;
use sx_moment::{Case, Snapshot};
use sx_tree::{RowItem, Rows};
use sx_words::{Drill, Which};

/// Makes the evidence of a drill, examines it, and writes what was found. No file is read.
///
/// It ends with `Memory` where memory runs out and with `WriteFault` where the sink failed, and else with the answer's whole
/// text. The cost is that of `carve` at all moments over evidence of this size.
pub fn run_drill<W: Sink>(alloc: Global, drill: &Drill, out: &mut W) -> Result<(), Refused>
    ensures { (contents : Option Files) (store : ℕ) (absent : Bool) (given : ℕ) → IsExamined (Some (words.Drill drill.now.seed drill.now.leaves drill.now.commits)) contents store store absent given (W.taken out.old) (W.taken out.new) (W.faults out.old) (W.faults out.new) result }
{
    match lines_of(alloc, drill) {
        Ok(lines) => write(alloc, lines, out),
        Err(refused) => Err(refused),
    }
}

/// The lines of a drill.
#[tactic(auto, unfolding(crate::specs::Drills::drill_of))]
fn lines_of(alloc: Global, drill: &Drill) -> Result<DrillLines, Refused>
    ensures told { IfOk result (λ lines. drill_of drill.now.seed drill.now.leaves drill.now.commits ≡ Ok (drill_rest lines)) }
    ensures may { IfErr result (λ refused. refused ≡ Memory) }
{
    let loaded = make_evidence(alloc, drill)?;
    let case = gather(alloc, &loaded)?;
    let counts = found_in(alloc, &case)?;
    Ok(DrillLines::new(drill.seed, drill.leaves, drill.commits, counts))
}

/// The evidence of a drill.
#[tactic(auto, unfolding(crate::specs::Drills::drilled))]
fn make_evidence(alloc: Global, drill: &Drill) -> Result<Loaded, AllocError>
    ensures { IfOk result (λ loaded. drilled drill.now.seed drill.now.leaves drill.now.commits ≡ Ok (evidence_by loaded)) }
{
    let Made { database, wal } = make_case(alloc, drill.seed, drill.leaves, drill.commits)?;
    match read_header(&database) {
        Ok(header) => Ok(Loaded {
            database: Database {
                header,
                bytes: database,
            },
            beside: Companions {
                wal: Some(wal),
                journal: None,
            },
        }),
        Err(_) => unreachable!(),
    }
}

/// What is found in the evidence of a drill.
fn found_in(alloc: Global, case: &Case<'_>) -> Result<DrillCounts, Refused>
    requires { IsSmall case.now.database case.now.wal_bytes case.now.journal_bytes }
    ensures told { IfOk result (λ counts. counts ≡ found_in case.now (codes "t")) }
    ensures may { IfErr result (λ refused. refused ≡ Memory) }
{
    let snapshot = last_snapshot(case);
    let rows = rows_named(alloc, &snapshot, case.last(), "t")?;
    let candidates = candidate_count(alloc, case, &snapshot, case.last())?;
    let evidence = case.evidence();
    Ok(DrillCounts {
        database: evidence.database.len() as u64,
        wal: length_of(evidence.wal),
        commits: case.wal().commits(),
        rows,
        candidates,
    })
}

/// The length of a file, 0 where it is absent.
fn length_of(file: Option<&[u8]>) -> u64
    ensures { result ≡ length (bytes_in (option_copied file.entry)) }
{
    match file {
        Some(bytes) => bytes.len() as u64,
        None => 0,
    }
}

/// How many rows the table of a name has at the last moment, whose pages these are.
#[tactic(auto, unfolding(crate::specs::Drills::rows_named))]
fn rows_named(
    alloc: Global,
    snapshot: &Snapshot<'_, '_>,
    moment: Moment,
    name: &str,
) -> Result<u64, AllocError>
    requires moment { moment ≡ snapshot.now.moment }
    requires last { moment ≡ last_moment snapshot.now.case.now }
    ensures { IfOk result (λ rows. rows ≡ rows_named snapshot.now.case.now name.now) }
{
    match table_there(alloc, snapshot, moment, name) {
        Ok(table) => count_rows(alloc, snapshot, table.root),
        Err(Refused::Memory) => Err(AllocError),
        Err(_) => Ok(0),
    }
}

/// How many rows the tree with this root has.
fn count_rows(alloc: Global, snapshot: &Snapshot<'_, '_>, root: u32) -> Result<u64, AllocError>
    ensures { IfOk result (λ rows. rows ≡ count_by is_row (rows_of (tree_in (size_at snapshot.now.case.now snapshot.now.moment) (view_of snapshot.now.case.now snapshot.now.moment) (layout_of snapshot.now.case.now snapshot.now.moment).usable root))) }
{
    let rows = Rows::start(alloc, snapshot, snapshot.layout().usable, root)?;
    Ok(rows.filter(|item| is_row(*item)).count() as u64)
}

/// Whether an item is a row, and no fault in its place.
fn is_row(item: RowItem) -> bool
    ensures { result ≡ is_row item }
{
    matches!(item, RowItem::Row { .. })
}

/// How many candidates there are under all moments, the last of which is that of the snapshot.
#[tactic(auto, unfolding(crate::specs::Drills::candidate_count))]
pub fn candidate_count(
    alloc: Global,
    case: &Case<'_>,
    snapshot: &Snapshot<'_, '_>,
    moment: Moment,
) -> Result<u64, Refused>
    requires small { IsSmall case.now.database case.now.wal_bytes case.now.journal_bytes }
    requires case { snapshot.now.case.now ≡ case.now }
    requires moment { moment ≡ snapshot.now.moment }
    requires last { moment ≡ last_moment case.now }
    ensures told { IfOk result (λ count. count ≡ candidate_count case.now) }
    ensures may { IfErr result (λ refused. refused ≡ Memory) }
{
    let made = prepare(alloc, case, snapshot, Which::All, moment)?;
    Ok(count_candidates(case, snapshot, &made))
}
