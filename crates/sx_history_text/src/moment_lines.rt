//! The lines of a moment.
use crate::lack::Lack;
use crate::row_lines::RowLines;
use crate::texts::put_lack_line;
use std::alloc::AllocError;
use sx_base::Moment;
use sx_lines::Lines;

/// The lines of a moment that are still to come.
#[derive(Drop)]
pub enum MomentLines<'c, 'a> {
    /// Why there are no rows.
    Lacking { moment: Moment, lack: Lack },
    /// The rows with the rowid, and how many rows and faults there are.
    Rows(RowLines<'c, 'a>),
    /// None.
    End,
}

impl<'c, 'a> Lines for MomentLines<'c, 'a> {
    ghost use Rattle.sx_history_text.specs.Moments.{moment_rest};

    ghost lines = { moment_rest };

    fn next_line(&mut self, line: &mut String) -> Result<bool, AllocError> {
        match self {
            MomentLines::Lacking { moment, lack } => {
                put_lack_line(*moment, *lack, line)?;
                *self = MomentLines::End;
                Ok(true)
            }
            MomentLines::Rows(rows) => rows.next_line(line),
            MomentLines::End => Ok(false),
        }
    }
}
