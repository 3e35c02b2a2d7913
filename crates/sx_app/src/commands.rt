//! The table of commands: what each makes of the gathered evidence.
ghost use Rattle.std.specs.Prelude.{◌≡◌, List, Ok, IfErr};
ghost use Rattle.sx_base.specs.declared.moment.Moment.{Moment};
ghost use Rattle.sx_page_text.specs.Rest.{page_rest};
ghost use Rattle.sx_words.specs.Words.{question_by};
ghost use Rattle.sx_words.specs.Words as words;
ghost use Rattle.sx_moment.specs.Limits.{IsSmall};
ghost use Rattle.sx_words.specs.declared.request.When.{When};
ghost use Rattle.sx_app.specs.Commands.{part_named, reply_over};
ghost use Rattle.sx_app.specs.Carving.{carve_at, selected, IsCarving};
ghost use Rattle.sx_app.specs.Labels.{explain_at, map_at};
ghost use Rattle.sx_app.specs.Owed.{Gives, IsAnswered};
ghost use Rattle.sx_app.specs.Stages.{MayMeet, Deciding};

use crate::carving::{Carving, carve_lines, latest, prepare, spill_lines};
use crate::finish::{finish, finish_line};
use crate::generations::generations_lines;
use crate::histories::history_lines;
use crate::labels::{explain_lines, headless_lines, images_in, map_lines, roots_at};
use crate::moments::{moment_meant, snapshot_asked};
use crate::refused::Refused;
use crate::reports::report_line;
use crate::tables::show_lines;
use std::alloc::Global;
use sx_base::{Moment, Part, Place};
use sx_edge::Sink;
use sx_explain_text::ExplainLines;
use sx_map_text::HeadlessLines;
use sx_moment::{Case, Snapshot};
use sx_page_text::PageLines;
use sx_timeline_text::TimelineLines;
use sx_words::{Question, When, Which};

/// The part of the evidence that a question names, the database where it names none.
pub fn part_named(question: &Question<'_>) -> Part
    ensures { result ≡ part_named (question_by question.now) }
{
    match question {
        Question::Explain { place, .. } => place.part,
        Question::Timeline
        | Question::Show { .. }
        | Question::Map { .. }
        | Question::Page { .. }
        | Question::Carve { .. }
        | Question::Generations
        | Question::History { .. }
        | Question::Report => Part::Database,
    }
}

/// Answers a question over a case: one arm a command.
pub fn answer_question<W: Sink>(
    alloc: Global,
    question: &Question<'_>,
    case: &Case<'_>,
    out: &mut W,
) -> Result<(), Refused>
    requires { IsSmall case.now.database case.now.wal_bytes case.now.journal_bytes }
    ensures { IsAnswered (question_by question.now) (reply_over (question_by question.now) case.now)
        (W.taken out.old) (W.taken out.new) (W.faults out.old) (W.faults out.new) result }
{
    match question {
        Question::Timeline => finish(alloc, question, Ok(TimelineLines::new(case)), out),
        Question::Show { table, at } => answer_show(alloc, question, case, table, *at, out),
        Question::Map { at } => answer_map(alloc, question, case, *at, out),
        Question::Page { no, at } => finish(alloc, question, page_lines(case, *no, *at), out),
        Question::Carve { at, spill } => answer_carve(alloc, question, case, *at, *spill, out),
        Question::Explain { place, at } => answer_explain(alloc, question, case, *place, *at, out),
        Question::Generations => finish(alloc, question, generations_lines(alloc, case), out),
        Question::History { table, rowid } => finish(
            alloc,
            question,
            history_lines(alloc, case, table, *rowid),
            out,
        ),
        Question::Report => finish_line(alloc, question, report_line(alloc, case), out),
    }
}

// Answers `show`, over the pages of the moment that it asks for.
fn answer_show<W: Sink>(
    alloc: Global,
    question: &Question<'_>,
    case: &Case<'_>,
    table: &str,
    at: When,
    out: &mut W,
) -> Result<(), Refused>
    requires { question_by question.now ≡ words.Show table.now at }
    ensures { IsAnswered (question_by question.now) (reply_over (words.Show table.now at) case.now)
        (W.taken out.old) (W.taken out.new) (W.faults out.old) (W.faults out.new) result }
{
    let moment = moment_meant(case, at);
    match snapshot_asked(case, at) {
        Ok(snapshot) => finish(
            alloc,
            question,
            show_lines(alloc, &snapshot, moment, table),
            out,
        ),
        Err(refused) => finish::<PageLines<'_>, W>(alloc, question, Err(refused), out),
    }
}

// Answers `map`, over the pages of the moment that it asks for.
fn answer_map<W: Sink>(
    alloc: Global,
    question: &Question<'_>,
    case: &Case<'_>,
    at: When,
    out: &mut W,
) -> Result<(), Refused>
    requires { question_by question.now ≡ words.Map at }
    ensures { IsAnswered (question_by question.now) (reply_over (words.Map at) case.now)
        (W.taken out.old) (W.taken out.new) (W.faults out.old) (W.faults out.new) result }
{
    match snapshot_asked(case, at) {
        Ok(snapshot) => map_pages(alloc, question, &snapshot, out),
        Err(refused) => finish::<HeadlessLines, W>(alloc, question, Err(refused), out),
    }
}

// Answers `map`, over the pages of a moment.
#[tactic(auto, unfolding(crate::specs::Labels::map_at))]
fn map_pages<W: Sink>(
    alloc: Global,
    question: &Question<'_>,
    snapshot: &Snapshot<'_, '_>,
    out: &mut W,
) -> Result<(), Refused>
    ensures { IsAnswered (question_by question.now) (Ok (map_at snapshot.now.case.now snapshot.now.moment))
        (W.taken out.old) (W.taken out.new) (W.faults out.old) (W.faults out.new) result }
{
    if snapshot.head().is_none() {
        return finish(alloc, question, Ok(headless_lines(snapshot)), out);
    }
    match roots_at(alloc, snapshot) {
        Ok(roots) => finish(
            alloc,
            question,
            map_lines(alloc, snapshot, roots.as_slice()),
            out,
        ),
        Err(refused) => finish::<HeadlessLines, W>(alloc, question, Err(refused), out),
    }
}

// Answers `carve`, over the moments that it asks for.
fn answer_carve<W: Sink>(
    alloc: Global,
    question: &Question<'_>,
    case: &Case<'_>,
    which: Which,
    spill: bool,
    out: &mut W,
) -> Result<(), Refused>
    requires asked { question_by question.now ≡ words.Carve which spill }
    requires small { IsSmall case.now.database case.now.wal_bytes case.now.journal_bytes }
    ensures { IsAnswered (question_by question.now) (reply_over (words.Carve which spill) case.now)
        (W.taken out.old) (W.taken out.new) (W.faults out.old) (W.faults out.new) result }
{
    let at = latest(which);
    let moment = moment_meant(case, at);
    match snapshot_asked(case, at) {
        Ok(snapshot) => carve_moments(alloc, question, case, &snapshot, moment, which, spill, out),
        Err(refused) => finish::<HeadlessLines, W>(alloc, question, Err(refused), out),
    }
}

// Answers `carve`, over moments of which this is the last.
fn carve_moments<W: Sink>(
    alloc: Global,
    question: &Question<'_>,
    case: &Case<'_>,
    snapshot: &Snapshot<'_, '_>,
    moment: Moment,
    which: Which,
    spill: bool,
    out: &mut W,
) -> Result<(), Refused>
    requires asked { question_by question.now ≡ words.Carve which spill }
    requires small { IsSmall case.now.database case.now.wal_bytes case.now.journal_bytes }
    requires case { snapshot.now.case.now ≡ case.now }
    requires moment { moment ≡ snapshot.now.moment }
    ensures { IsAnswered (question_by question.now) (Ok (carve_at case.now (selected case.now which moment) moment spill))
        (W.taken out.old) (W.taken out.new) (W.faults out.old) (W.faults out.new) result }
{
    match prepare(alloc, case, snapshot, which, moment) {
        Ok(made) => carve_prepared(alloc, question, case, snapshot, &made, spill, out),
        Err(refused) => finish::<HeadlessLines, W>(alloc, question, Err(refused), out),
    }
}

// Answers `carve`, over what was prepared for it: with completed candidates or without.
fn carve_prepared<W: Sink>(
    alloc: Global,
    question: &Question<'_>,
    case: &Case<'_>,
    snapshot: &Snapshot<'_, '_>,
    made: &Carving,
    spill: bool,
    out: &mut W,
) -> Result<(), Refused>
    requires case { snapshot.now.case.now ≡ case.now }
    requires made { (moments : List Moment) × IsCarving case.now moments snapshot.now.moment made.now }
    ensures { (moments : List Moment) (last : Moment) → last ≡ snapshot.now.moment → IsCarving case.now moments snapshot.now.moment made.now → IsAnswered (question_by question.now) (Ok (carve_at case.now moments last spill))
        (W.taken out.old) (W.taken out.new) (W.faults out.old) (W.faults out.new) result }
{
    if spill {
        let lines = spill_lines(alloc, case, snapshot, made);
        finish(alloc, question, Ok(lines), out)
    } else {
        let lines = carve_lines(case, snapshot, made);
        finish(alloc, question, Ok(lines), out)
    }
}

// Answers `explain`, over the evidence and the pages of the moment that it asks for.
fn answer_explain<W: Sink>(
    alloc: Global,
    question: &Question<'_>,
    case: &Case<'_>,
    place: Place,
    at: When,
    out: &mut W,
) -> Result<(), Refused>
    requires asked { question_by question.now ≡ words.Explain place at }
    requires small { IsSmall case.now.database case.now.wal_bytes case.now.journal_bytes }
    ensures { IsAnswered (question_by question.now) (reply_over (words.Explain place at) case.now)
        (W.taken out.old) (W.taken out.new) (W.faults out.old) (W.faults out.new) result }
{
    let moment = moment_meant(case, at);
    match snapshot_asked(case, at) {
        Ok(snapshot) => explain_byte(alloc, question, case, &snapshot, moment, place, out),
        Err(refused) => finish::<ExplainLines<'_>, W>(alloc, question, Err(refused), out),
    }
}

// Answers `explain`, over the pages of a moment.
fn explain_byte<W: Sink>(
    alloc: Global,
    question: &Question<'_>,
    case: &Case<'_>,
    snapshot: &Snapshot<'_, '_>,
    moment: Moment,
    place: Place,
    out: &mut W,
) -> Result<(), Refused>
    requires asked { (at : When) × (question_by question.now ≡ words.Explain place at) }
    requires small { IsSmall case.now.database case.now.wal_bytes case.now.journal_bytes }
    requires case { snapshot.now.case.now ≡ case.now }
    requires moment { moment ≡ snapshot.now.moment }
    ensures { IsAnswered (question_by question.now) (explain_at case.now moment place)
        (W.taken out.old) (W.taken out.new) (W.faults out.old) (W.faults out.new) result }
{
    match images_in(alloc, case) {
        Ok(images) => finish(
            alloc,
            question,
            explain_lines(alloc, case, snapshot, moment, &images, place),
            out,
        ),
        Err(refused) => finish::<ExplainLines<'_>, W>(alloc, question, Err(refused), out),
    }
}

// The lines of `page`.
fn page_lines<'a>(case: &Case<'a>, no: u32, at: When) -> Result<PageLines<'a>, Refused>
    ensures told { Gives page_rest result (reply_over (words.Page «no» at) case.now) }
    ensures may { IfErr result (MayMeet (Deciding (words.Page «no» at))) }
{
    let snapshot = snapshot_asked(case, at)?;
    Ok(PageLines::new(&snapshot, no))
}
