//! The lines of `generations`.
ghost use Rattle.std.specs.Prelude.{◌≡◌, Ok, IfOk, IfErr};
ghost use Rattle.std.specs.Option.{option_copied};
ghost use Rattle.sx_generations.specs.Confirmed.{confirmed_of};
ghost use Rattle.sx_generations.specs.Older.{older_of};
ghost use Rattle.sx_moment.specs.Gathered.{bytes_in};
ghost use Rattle.sx_words.specs.Words as words;
ghost use Rattle.sx_app.specs.Generations.{generations_of};
ghost use Rattle.sx_app.specs.Owed.{Gives};
ghost use Rattle.sx_app.specs.Stages.{MayMeet, Deciding};

use crate::refused::Refused;
use std::alloc::{AllocError, Global};
use sx_generations::{Confirmed, Older, confirmed, older};
use sx_generations_text::GenerationsLines;
use sx_moment::Case;

/// The lines of `generations`. All runs and groups are found before the first is written.
#[tactic(auto, unfolding(crate::specs::Generations::generations_of))]
pub fn generations_lines<'c>(
    alloc: Global,
    case: &'c Case<'_>,
) -> Result<GenerationsLines<'c>, Refused>
    ensures told { Gives (λ lines. lines) result (Ok (generations_of case.entry.now)) }
    ensures may { IfErr result (MayMeet (Deciding words.Generations)) }
{
    let older = older_in(alloc, case)?;
    let confirmed = confirmed_in(alloc, case)?;
    Ok(GenerationsLines::new(case.wal(), older, confirmed))
}

/// The runs of older generations in the log.
fn older_in(alloc: Global, case: &Case<'_>) -> Result<Older, AllocError>
    ensures { IfOk result (λ older. older ≡ older_of case.now.header.page_size (bytes_in case.now.wal_bytes)) }
{
    let _header = case.header();
    older(alloc, or_empty(case.evidence().wal), case.wal())
}

/// The groups of confirmed records in the journal.
fn confirmed_in(alloc: Global, case: &Case<'_>) -> Result<Confirmed, AllocError>
    ensures { IfOk result (λ confirmed. confirmed ≡ confirmed_of case.now.header.page_size (bytes_in case.now.journal_bytes)) }
{
    let _header = case.header();
    confirmed(alloc, or_empty(case.evidence().journal), case.journal())
}

/// The bytes of a file, none where it is absent.
fn or_empty(bytes: Option<&[u8]>) -> &[u8]
    ensures { result.now ≡ bytes_in (option_copied bytes.entry) }
{
    match bytes {
        Some(bytes) => bytes,
        None => &[],
    }
}
