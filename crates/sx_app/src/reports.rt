//! What `report` tells.
ghost use Rattle.std.specs.Prelude.{◌≡◌, [], ◌∷◌, length, map, Ok, IsTrue, IfOk, IfErr};
ghost use Rattle.std.specs.Option.{option_map};
ghost use Rattle.sx_moment.specs.Gathered.{is_moment, moments_of};
ghost use Rattle.sx_moment.specs.Limits.{IsSmall};
ghost use Rattle.sx_report.specs.Facts.{facts_by, file_by, journal_by, log_by};
ghost use Rattle.sx_words.specs.Words as words;
ghost use Rattle.sx_sweep.specs.Moments.{totals_at as swept_at};
ghost use Rattle.sx_app.specs.Drills.{candidate_count};
ghost use Rattle.sx_app.specs.Reports.{facts_of, report_of, file_facts, journal_facts, log_facts, moment_facts, totals_at};
ghost use Rattle.sx_app.specs.Owed.{Gives};
ghost use Rattle.sx_app.specs.Stages.{MayMeet, Deciding};
ghost use Rattle.sx_app.specs.declared.refused.Refused.TheVariants.{Memory};

use crate::carving::{count_candidates, prepare_all};
use crate::moments::last_snapshot;
use crate::refused::Refused;
use std::alloc::{AllocError, Global};
use sx_base::{Moment, Pages};
use sx_map_text::{MapTotals, headless_totals};
use sx_moment::{Case, Snapshot};
use sx_report::{
    CaseFacts, FileFacts, JournalFacts, MomentFacts, WalFacts, case_json, digest_text,
};
use sx_sweep::MomentTotals;
use sx_timeline_text::count_classes;

/// The line of `report`, without its line feed.
///
/// The moments are gone over once, at the price of what changes from one to the next, for the totals of each and for what is
/// owned under all of them.
pub fn report_line(alloc: Global, case: &Case<'_>) -> Result<Vec<u8>, Refused>
    requires { IsSmall case.now.database case.now.wal_bytes case.now.journal_bytes }
    ensures told { Gives (λ line. line.items ∷ []) result (Ok (report_of case.now)) }
    ensures may { IfErr result (MayMeet (Deciding words.Report)) }
{
    let facts = case_facts(alloc, case)?;
    let line = case_json(alloc, &facts)?;
    Ok(line)
}

/// What is told of a case.
#[tactic(auto, unfolding(crate::specs::Drills::candidate_count))]
fn case_facts(alloc: Global, case: &Case<'_>) -> Result<CaseFacts, Refused>
    requires { IsSmall case.now.database case.now.wal_bytes case.now.journal_bytes }
    ensures told { IfOk result (λ facts. facts_by facts ≡ facts_of case.now) }
    ensures may { IfErr result (λ refused. refused ≡ Memory) }
{
    let snapshot = last_snapshot(case);
    let made = prepare_all(alloc, case, &snapshot, case.last())?;
    let candidates = count_candidates(case, &snapshot, &made.carving);
    let moments = all_facts(alloc, case, made.totals.as_slice())?;
    let facts = with_files(alloc, case, moments, candidates)?;
    Ok(facts)
}

/// What is told of a case, with what is told of its moments and this number of candidates.
fn with_files(
    alloc: Global,
    case: &Case<'_>,
    moments: Vec<MomentFacts>,
    candidates: u64,
) -> Result<CaseFacts, AllocError>
    requires moments { moments.items ≡ map (moment_facts case.now) (moments_of case.now) }
    requires candidates { candidates ≡ candidate_count case.now }
    ensures { IfOk result (λ facts. facts_by facts ≡ facts_of case.now) }
{
    let database = file_facts(alloc, case.evidence().database)?;
    let wal = log_facts(alloc, case)?;
    let journal = journal_facts(alloc, case)?;
    Ok(CaseFacts {
        page_size: case.header().page_size,
        usable: case.header().usable,
        database,
        wal,
        journal,
        moments,
        candidates,
    })
}

/// What is told of a file.
fn file_facts(alloc: Global, bytes: &[u8]) -> Result<FileFacts, AllocError>
    ensures { IfOk result (λ facts. file_by facts ≡ file_facts bytes.now) }
{
    let sha256 = digest_text(alloc, bytes)?;
    Ok(FileFacts {
        bytes: bytes.len() as u64,
        sha256,
    })
}

/// What is told of the write-ahead log, where there is one.
fn log_facts(alloc: Global, case: &Case<'_>) -> Result<Option<WalFacts>, AllocError>
    ensures { IfOk result (λ facts. option_map log_by facts ≡ log_facts case.now) }
{
    let Some(bytes) = case.evidence().wal else {
        return Ok(None);
    };
    let wal = case.wal();
    let tally = count_classes(wal);
    Ok(Some(WalFacts {
        file: file_facts(alloc, bytes)?,
        state: wal.state(),
        frames: wal.slots(),
        committed: tally.committed,
        pending: tally.pending,
        foreign: tally.foreign,
        broken: tally.broken,
    }))
}

/// What is told of the journal, where there is one.
fn journal_facts(alloc: Global, case: &Case<'_>) -> Result<Option<JournalFacts>, AllocError>
    ensures { IfOk result (λ facts. option_map journal_by facts ≡ journal_facts case.now) }
{
    let Some(bytes) = case.evidence().journal else {
        return Ok(None);
    };
    let journal = case.journal();
    Ok(Some(JournalFacts {
        file: file_facts(alloc, bytes)?,
        state: journal.state(),
        records: journal.entries(),
        good: journal.good(),
    }))
}

/// What is told of each moment, in order, where these are their totals.
fn all_facts(
    alloc: Global,
    case: &Case<'_>,
    totals: &[Option<MomentTotals>],
) -> Result<Vec<MomentFacts>, AllocError>
    requires { totals.now ≡ map (swept_at case.now) (moments_of case.now) }
    ensures { IfOk result (λ facts. facts.items ≡ map (moment_facts case.now) (moments_of case.now)) }
{
    let mut facts = Vec::new(alloc);
    for i in 0..case.moments() {
        let told = facts_at(case, case.moment(i), totals[i as usize]);
        facts.push(told)?;
    }
    Ok(facts)
}

/// What is told of a moment of the evidence, where these are its totals.
fn facts_at(case: &Case<'_>, moment: Moment, swept: Option<MomentTotals>) -> MomentFacts
    requires there { IsTrue (is_moment case.now moment) }
    requires swept { swept ≡ swept_at case.now moment }
    ensures { result ≡ moment_facts case.now moment }
{
    let Some(snapshot) = case.snapshot(moment) else {
        unreachable!()
    };
    let totals = totals_at(&snapshot, swept);
    MomentFacts {
        at: moment,
        pages: snapshot.size(),
        held: snapshot.held(),
        uncertain: snapshot.uncertain_count(),
        owned: totals.owned,
        slack: totals.slack,
        fault: totals.fault,
        dead: totals.dead,
    }
}

/// The totals of a moment as `map` tells them, where these were found: without a head there are none, and each byte is a
/// fault.
#[tactic(auto, using(crate::proofs::Layouts::page_size_is, crate::proofs::Swept::headless_is, crate::proofs::Swept::headed_is))]
fn totals_at(snapshot: &Snapshot<'_, '_>, swept: Option<MomentTotals>) -> MapTotals
    requires { swept ≡ swept_at snapshot.now.case.now snapshot.now.moment }
    ensures { result ≡ totals_at snapshot.now.case.now snapshot.now.moment }
{
    let size = snapshot.size();
    let page_size = snapshot.layout().page_size;
    match swept {
        None => headless_totals(size, page_size),
        Some(totals) => MapTotals {
            bytes: u64::from(size) * u64::from(page_size),
            owned: totals.owned,
            slack: totals.slack,
            fault: totals.fault,
            dead: totals.dead,
        },
    }
}
