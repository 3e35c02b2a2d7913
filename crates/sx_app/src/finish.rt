//! How an examination of evidence that was opened ends.
ghost use Rattle.std.specs.Prelude.{◌≡◌, ◌≤◌, ℕ, List, [], ◌∷◌, Result, Ok, IfErr, IsErrOf, OnOk, OnErr};
ghost use Rattle.std.specs.Io.KnownBytes.{Appends};
ghost use Rattle.sx_base.specs.Causes.{Rose};
ghost use Rattle.sx_lines.specs.Lines.{AppendsSome, text_of};
ghost use Rattle.sx_words.specs.Words.{question_by};
ghost use Rattle.sx_app.specs.Owed.{Gives, IsAnswered};
ghost use Rattle.sx_app.specs.Stages.{MayMeet, Deciding, Writing};
ghost use Rattle.sx_app.specs.declared.refused.Refused.{Refused};

use crate::commands::part_named;
use crate::refusals::refuse;
use crate::refused::Refused;
use std::alloc::Global;
use sx_edge::Sink;
use sx_lines::{Lines, write_lines, write_piece};
use sx_words::Question;

/// Ends with the lines that a question asks for, or with the refusal that it met. The refusal is one that the question
/// may meet; whatever the reply is that these lines or this refusal give, the examination answers with it.
pub fn finish<L: Lines + Drop, W: Sink>(
    alloc: Global,
    question: &Question<'_>,
    prepared: Result<L, Refused>,
    out: &mut W,
) -> Result<(), Refused>
    requires { IfErr prepared (MayMeet (Deciding (question_by question.now))) }
    ensures { (given : Result (List (List ℕ)) Refused) → Gives L.lines prepared given → IsAnswered (question_by question.now) given
        (W.taken out.old) (W.taken out.new) (W.faults out.old) (W.faults out.new) result }
{
    match prepared {
        Ok(lines) => write(alloc, lines, out),
        Err(refused) => Err(refuse(alloc, part_named(question), refused, out)),
    }
}

/// Ends with the one line that a question asks for, or with the refusal that it met.
pub fn finish_line<W: Sink>(
    alloc: Global,
    question: &Question<'_>,
    prepared: Result<Vec<u8>, Refused>,
    out: &mut W,
) -> Result<(), Refused>
    requires { IfErr prepared (MayMeet (Deciding (question_by question.now))) }
    ensures { (given : Result (List (List ℕ)) Refused) → Gives (λ line. line.items ∷ []) prepared given → IsAnswered (question_by question.now) given
        (W.taken out.old) (W.taken out.new) (W.faults out.old) (W.faults out.new) result }
{
    match prepared {
        Ok(line) => write_line(line, out),
        Err(refused) => Err(refuse(alloc, part_named(question), refused, out)),
    }
}

// Writes one line, with its line feed, in one piece.
#[tactic(auto, using(crate::proofs::Lines::one_line))]
fn write_line<W: Sink>(line: Vec<u8>, out: &mut W) -> Result<(), Refused>
    ensures whole { OnOk result (Appends (W.taken out.old) (W.taken out.new) (text_of (line.items ∷ []))) }
    ensures front { OnErr result (AppendsSome (W.taken out.old) (W.taken out.new) (text_of (line.items ∷ []))) }
    ensures later { W.faults out.old ≤ W.faults out.new }
    ensures may { IfErr result (MayMeet Writing) }
    ensures cause { IsErrOf result Refused.WriteFault → Rose (W.faults out.old) (W.faults out.new) }
{
    let mut piece = line;
    if piece.push(b'\n').is_err() {
        return Err(Refused::Memory);
    }
    write_piece(out, piece.as_slice())?;
    Ok(())
}

/// Writes the lines. What can keep them from being written is a fault of the sink, or want of memory.
pub fn write<L: Lines + Drop, W: Sink>(
    alloc: Global,
    mut lines: L,
    out: &mut W,
) -> Result<(), Refused>
    ensures whole { OnOk result (Appends (W.taken out.old) (W.taken out.new) (text_of (L.lines lines))) }
    ensures front { OnErr result (AppendsSome (W.taken out.old) (W.taken out.new) (text_of (L.lines lines))) }
    ensures later { W.faults out.old ≤ W.faults out.new }
    ensures may { IfErr result (MayMeet Writing) }
    ensures cause { IsErrOf result Refused.WriteFault → Rose (W.faults out.old) (W.faults out.new) }
{
    write_lines(alloc, &mut lines, out)?;
    Ok(())
}
