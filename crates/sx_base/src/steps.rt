//! A count of steps that costs nothing.
ghost use Rattle.std.specs.Prelude.{◌≡◌, ℕ, ◌+◌, ◌-◌, ◌^◌, ◌<◌};

use std::marker::Model;
use std::sync::ledger::{Blank, Book, Ledger, Share};

/// How many steps were taken.
///
/// It holds no bytes when the program runs, and `tick` has no code then: the count stands in contracts alone. A call
/// that takes one says what a step is, and bounds by it how much work it does.
///
/// It keeps the book of a ledger together with some part of it. No one else can change the total of that book.
#[derive(Drop)]
pub struct Steps<L: Ledger> {
    book: Book<L>,
    share: Share<L>,
}

impl<L: Ledger> Model for Steps<L> {
    ghost Value = { ℕ };

    ghost view = { λ steps. steps.book.total };

    ghost invariant = { λ steps. 0 < steps.share.parts };
}

impl<L: Ledger> Steps<L> {
    /// A count of no steps.
    ///
    /// The ledger is a new one, with at least one part. Whoever counts nothing makes one of `Blank::new(1)`.
    pub fn zero(blank: Blank) -> Self
        requires name { blank.name ≡ L.name }
        requires parts { blank.parts ≡ L.parts }
        requires some_parts { 0 < blank.parts }
        ensures { result ≡ 0 }
    {
        let (book, share) = blank.open::<L>();
        Steps { book, share }
    }

    /// Counts one step more. The count is below 18,446,744,073,709,551,615.
    pub fn tick(&mut self)
        requires { self.old < 2 ^ 64 - 1 }
        ensures { self.new ≡ self.old + 1 }
    {
        self.book.add(&mut self.share, 1);
    }
}
