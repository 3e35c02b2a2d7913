//! What stands behind the list of a table's text.
ghost use Rattle.std.specs.Prelude.{◌≡◌, ◌&&◌, not, true};
ghost use Rattle.sx_ddl.specs.Given.{Gives};
ghost use Rattle.sx_ddl.specs.Options.{behind_option, behind_semicolon, due_behind, may_end, rowid_behind, wants_rowid};

use crate::kinds::{ends_statement, is_rowid, is_strict, is_without, separates};
use crate::refused::DdlRefused;
use crate::token::{End, Kind, Token};

/// What may stand next.
#[derive(Clone, Copy, Debug, PartialEq, Eq)]
pub enum Due {
    /// An option, a semicolon or the end.
    First,
    /// An option, behind a comma.
    Another,
    /// The word ROWID.
    Rowid,
    /// A comma, a semicolon or the end.
    Separator,
    /// The end.
    Nothing,
}

/// Whether the table has rowids, as the tokens behind the list say it.
#[tactic(auto, using(crate::proofs::OptionLemmas::option_fits, crate::proofs::OptionLemmas::option_refused, crate::proofs::OptionLemmas::option_end))]
pub(crate) fn read_options(end: End, tokens: &[Token]) -> Result<bool, DdlRefused>
    ensures { Gives (rowid_behind end Due.First true tokens.now) result (λ rowid. rowid) }
{
    let mut due = Due::First;
    let mut rowid = true;
    for place in 0..tokens.len() {
        let token = tokens[place];
        match due_behind(due, token.kind) {
            Some(next) => {
                rowid = keeps_rowid(due, rowid);
                due = next;
            }
            None => return Err(DdlRefused::Unknown(token.at)),
        }
    }
    if may_end(due) && end.whole {
        Ok(rowid)
    } else {
        Err(DdlRefused::Unknown(end.at))
    }
}

/// What is due behind a token, where the token fits what was due.
#[tactic(auto, unfolding(crate::specs::Options::due_behind))]
fn due_behind(due: Due, kind: Kind) -> Option<Due>
    ensures { result ≡ due_behind due kind }
{
    match due {
        Due::First => match behind_option(kind) {
            Some(next) => Some(next),
            None => behind_semicolon(kind),
        },
        Due::Another => behind_option(kind),
        Due::Rowid if is_rowid(kind) => Some(Due::Separator),
        Due::Separator if separates(kind) => Some(Due::Another),
        Due::Separator => behind_semicolon(kind),
        Due::Rowid | Due::Nothing => None,
    }
}

/// STRICT is an option by itself, and ROWID is to follow WITHOUT.
fn behind_option(kind: Kind) -> Option<Due>
    ensures { result ≡ behind_option kind }
{
    if is_strict(kind) {
        Some(Due::Separator)
    } else if is_without(kind) {
        Some(Due::Rowid)
    } else {
        None
    }
}

/// A semicolon is the last token.
fn behind_semicolon(kind: Kind) -> Option<Due>
    ensures { result ≡ behind_semicolon kind }
{
    if ends_statement(kind) {
        Some(Due::Nothing)
    } else {
        None
    }
}

/// Whether the text may end here.
fn may_end(due: Due) -> bool
    ensures { result ≡ may_end due }
{
    match due {
        Due::First | Due::Separator | Due::Nothing => true,
        Due::Another | Due::Rowid => false,
    }
}

/// Whether ROWID was due.
fn wants_rowid(due: Due) -> bool
    ensures { result ≡ wants_rowid due }
{
    match due {
        Due::Rowid => true,
        Due::First | Due::Another | Due::Separator | Due::Nothing => false,
    }
}

/// Whether the table still has rowids behind a token that fits.
fn keeps_rowid(due: Due, rowid: bool) -> bool
    ensures { result ≡ (rowid && not (wants_rowid due)) }
{
    rowid && !wants_rowid(due)
}
