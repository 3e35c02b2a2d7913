//! What is read of a candidate.
ghost use Rattle.std.specs.Prelude.{◌≡◌, ◌^◌, ◌<◌, ◌≤◌, length, slice_get, Some, None, MatchOption, IfSome};
ghost use Rattle.sx_grammar.specs.Sightings.{Sighting, seen_of, has_lost};

use crate::columns::Columns;
use crate::form::Form;
use crate::shown::Shown;
use std::marker::Model;

/// A span that a form accepts, and what it says of a row.
#[derive(Drop)]
pub struct Reading<'a> {
    pub(crate) form: Form,
    pub(crate) len: u32,
    pub(crate) rowid: Option<i64>,
    pub(crate) overflow: Option<u32>,
    /// The length of a whole cell's payload; of another form it follows from the span's.
    pub(crate) payload: u64,
    /// The local part of a whole cell's payload; empty for another form.
    pub(crate) local: &'a [u8],
    pub(crate) columns: u32,
    pub(crate) types: &'a [u8],
    pub(crate) bodies: &'a [u8],
}

impl<'a> Model for Reading<'a> {
    ghost use Rattle.sx_grammar.specs.Sightings.{Sighting, AreShown, IsPart, payload_in, local_in, columns_in};

    ghost Value = { Sighting };

    ghost view = { λ reading. record { form = reading.form; len = reading.len; rowid = reading.rowid; overflow = reading.overflow; payload = payload_in reading.form reading.len reading.payload; local = local_in reading.form reading.local.now; columns = columns_in reading.form reading.types.now reading.bodies.now } };

    ghost invariant = { λ reading. (AreShown reading.form reading.types.now reading.bodies.now reading.columns) × (IsPart reading.form reading.payload reading.local.now) };
}

impl<'a> Reading<'a> {
    /// The form.
    pub fn form(&self) -> Form
        ensures { result ≡ self.now.form }
    {
        self.form
    }

    /// The length of the span in bytes.
    pub fn len(&self) -> u32
        ensures { result ≡ self.now.len }
    {
        self.len
    }

    /// The rowid: none but for a whole cell.
    pub fn rowid(&self) -> Option<i64>
        ensures { result ≡ self.now.rowid }
    {
        self.rowid
    }

    /// The first overflow page: none where the payload stands whole in its cell.
    pub fn overflow(&self) -> Option<u32>
        ensures { result ≡ self.now.overflow }
    {
        self.overflow
    }

    /// The length of the payload in bytes, its overflow pages among them.
    pub fn payload(&self) -> u64
        ensures payload { result ≡ self.now.payload }
        ensures few { result < 2 ^ 32 }
    {
        let len = u64::from(self.len);
        match self.form {
            Form::Full => self.payload,
            Form::Tail(e) => len.saturating_sub(4 + u64::from(e)),
            Form::Types(_) => len.saturating_sub(3),
            Form::Lost(_, _) => len.saturating_sub(2),
        }
    }

    /// The local part of the payload, for a whole cell: a borrow of the run. None for another form.
    pub fn local(&self) -> Option<&'a [u8]>
        ensures local { MatchOption result (self.now.local ≡ None) (λ local. self.now.local ≡ Some local.now) }
        ensures part { IfSome result (λ local. length local.now ≤ self.now.payload) }
    {
        match self.form {
            Form::Full => Some(self.local),
            Form::Tail(_) | Form::Types(_) | Form::Lost(_, _) => None,
        }
    }

    /// How many columns there are.
    pub fn columns(&self) -> u32
        ensures { result ≡ length self.now.columns }
    {
        self.columns
    }

    /// What is shown of the columns, in order.
    #[tactic(auto, using(crate::proofs::ColumnLemmas::columns_are))]
    pub fn values(&self) -> Columns<'a>
        ensures { result ≡ self.now.columns }
    {
        Columns::new(has_lost(self.form), self.types, self.bodies)
    }

    /// What is shown of the column of this number, from 0.
    pub fn value(&self, i: u32) -> Shown<'a>
        requires { i < length self.now.columns }
        ensures { slice_get self.now.columns i ≡ Some (seen_of result) }
    {
        let mut columns = self.values();
        for _ in 0..i {
            let _ = columns.next();
        }
        columns.next().unwrap()
    }
}

/// Whether the type of the first column is lost.
fn has_lost(form: Form) -> bool
    ensures { result ≡ has_lost form }
{
    match form {
        Form::Full | Form::Tail(_) | Form::Types(_) => false,
        Form::Lost(_, _) => true,
    }
}
