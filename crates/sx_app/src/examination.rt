//! The top call.
ghost use Rattle.std.specs.Prelude.{◌≡◌, ◌<◌, ◌≤◌, Some, Err, IfErr, IfSome, IsErrOf, IsTrue};
ghost use Rattle.sx_base.specs.Causes.{Rose};
ghost use Rattle.sx_base.specs.declared.evidence.Part.{Part};
ghost use Rattle.sx_edge.specs.declared.whole_file.TheConstants.{GREATEST_FILE};
ghost use Rattle.sx_words.specs.Words.{texts, request_of, asked_by, question_by, Evidence};
ghost use Rattle.sx_app.specs.Answers.{Answers, answer, storeless, part_asked, Prints};
ghost use Rattle.sx_app.specs.Commands.{reply_over};
ghost use Rattle.sx_app.specs.Evidence.{case_of};
ghost use Rattle.sx_app.specs.Loaded.{evidence_by};
ghost use Rattle.sx_app.specs.Owed.{IsAnswered, IsExamined};
ghost use Rattle.sx_app.specs.Stages.{MayAnswer};

use crate::commands::{answer_question, part_named};
use crate::drills::run_drill;
use crate::evidence::{gather, open_evidence};
use crate::loaded::Loaded;
use crate::refusals::refuse;
use crate::refused::Refused;
use std::alloc::Global;
use sx_base::Part;
use sx_edge::{Sink, Store};
use sx_words::{Question, Request, read_words};

/// Examines the evidence that the words name, and writes the answer.
///
/// The answer is a function of the words and of the store's files alone: its lines, or a refusal with its text. All
/// reads and all refusals are decided before the first byte is written. `ReadFault` comes only where the store failed
/// in this call, and then nothing is written; `WriteFault` only where the sink failed, and `Memory` where memory ran
/// out: then a front of the answer's text is written. Words outside the grammar and a database that isn't there are
/// refused without memory. A drill asks the store for nothing: its evidence is made from its seed.
///
/// The cost is that of reading the files, of finding the answer and of writing the text. Most commands find it at the price
/// of one moment's pages; `carve` at all moments, `report` and `drill` at that of what changes from one moment to the next;
/// `history` at that of each moment's schema, and of the table's whole tree where what changed doesn't leave its answer.
pub fn examine<S: Store, W: Sink>(
    alloc: Global,
    words: &[String],
    store: &mut S,
    out: &mut W,
) -> Result<(), Refused>
    // Over a store that tells its files: the answer, and exactly its text.
    ensures told { IfSome (S.contents store.old) (λ files.
        Answers (answer (request_of (texts words.now)) files) (W.taken out.old) (W.taken out.new) result) }

    // Over every store and every sink.
    ensures storeless { IfSome (storeless (request_of (texts words.now))) (λ answer.
        Answers answer (W.taken out.old) (W.taken out.new) result) }
    ensures may { IfErr result (MayAnswer (request_of (texts words.now)) (S.contents store.old)) }
    ensures prints { IfErr result (Prints (part_asked (request_of (texts words.now))) (W.taken out.old) (W.taken out.new)) }
    ensures no_database { IsErrOf result Refused.NoDatabase → IsTrue (S.absent store.new) }
    ensures too_large { (part : Part) → IsErrOf result (Refused.TooLarge part) → GREATEST_FILE < S.given store.new }
    ensures read_fault { IsErrOf result Refused.ReadFault → Rose (S.faults store.old) (S.faults store.new) }
    ensures write_fault { IsErrOf result Refused.WriteFault → Rose (W.faults out.old) (W.faults out.new) }
    ensures contents { S.contents store.new ≡ S.contents store.old }
    ensures later { (S.faults store.old ≤ S.faults store.new) × (W.faults out.old ≤ W.faults out.new) }
{
    match read_words(words) {
        Ok(request) => carry_out(alloc, &request, store, out),
        Err(_) => Err(refuse(alloc, Part::Database, Refused::Usage, out)),
    }
}

// What a request asks for.
fn carry_out<S: Store, W: Sink>(
    alloc: Global,
    request: &Request<'_>,
    store: &mut S,
    out: &mut W,
) -> Result<(), Refused>
    ensures contents { S.contents store.new ≡ S.contents store.old }
    ensures examined { IsExamined (Some (asked_by request.now)) (S.contents store.old) (S.faults store.old) (S.faults store.new)
        (S.absent store.new) (S.given store.new) (W.taken out.old) (W.taken out.new) (W.faults out.old) (W.faults out.new) result }
{
    match request {
        Request::Evidence { db, question } => examine_evidence(alloc, db, question, store, out),
        Request::Drill(drill) => run_drill(alloc, drill, out),
    }
}

// What a question about the evidence of a database's name asks for.
fn examine_evidence<S: Store, W: Sink>(
    alloc: Global,
    db: &str,
    question: &Question<'_>,
    store: &mut S,
    out: &mut W,
) -> Result<(), Refused>
    ensures contents { S.contents store.new ≡ S.contents store.old }
    ensures examined { IsExamined (Some (Evidence db.now (question_by question.now))) (S.contents store.old) (S.faults store.old) (S.faults store.new)
        (S.absent store.new) (S.given store.new) (W.taken out.old) (W.taken out.new) (W.faults out.old) (W.faults out.new) result }
{
    match open_evidence(alloc, store, db) {
        Ok(loaded) => answer_over(alloc, question, &loaded, out),
        Err(refused) => Err(refuse(alloc, part_named(question), refused, out)),
    }
}

// What a question asks for, over evidence that was opened.
fn answer_over<W: Sink>(
    alloc: Global,
    question: &Question<'_>,
    loaded: &Loaded,
    out: &mut W,
) -> Result<(), Refused>
    ensures { IsAnswered (question_by question.now) (reply_over (question_by question.now) (case_of (evidence_by loaded.now)))
        (W.taken out.old) (W.taken out.new) (W.faults out.old) (W.faults out.new) result }
{
    let case = gather(alloc, loaded)?;
    answer_question(alloc, question, &case, out)
}
