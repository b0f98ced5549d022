ghost use Rattle.std.specs.Prelude.{◌≡◌, ◌+◌};

use std::marker::Model;
use std::sync::ledger::{Blank, Book, Ledger, Share};

/// How many probes were taken. It has no bytes, and only a probe changes it.
#[derive(Drop)]
pub struct Steps<L: Ledger> {
    book: Book<L>,
    share: Share<L>,
}

impl<L: Ledger> Model for Steps<L> {
    ghost use Rattle.std.specs.Prelude.{ℕ, ◌<◌};

    ghost Value = { ℕ };

    ghost view = { λ s. s.book.total };

    ghost invariant = { λ s. 0 < s.share.parts };
}

impl<L: Ledger> Steps<L> {
    /// A count that begins with 0.
    pub fn new(blank: Blank) -> Self
        requires name { blank.name ≡ L.name }
        requires parts { blank.parts ≡ L.parts }
        requires some { blank.parts ≡ 1 }
        ensures exact { result ≡ 0 }
    {
        let (book, share) = blank.open();
        Steps { book, share }
    }

    pub(crate) fn tick(&mut self)
        ensures exact { self.new ≡ self.old + 1 }
    {
        self.book.add(&mut self.share, 1);
    }
}
