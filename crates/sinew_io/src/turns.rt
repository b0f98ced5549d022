ghost use Rattle.std.specs.Prelude.{◌≡◌, ◌+◌};

use std::marker::Model;
use std::sync::ledger::{Blank, Book, Ledger, Share};

/// How many turns a reading took. It has no bytes, and only a turn changes it.
#[derive(Drop)]
pub struct Turns<L: Ledger> {
    book: Book<L>,
    share: Share<L>,
}

impl<L: Ledger> Model for Turns<L> {
    ghost use Rattle.std.specs.Prelude.{ℕ, ◌<◌};

    ghost Value = { ℕ };

    ghost view = { λ t. t.book.total };

    ghost invariant = { λ t. 0 < t.share.parts };
}

impl<L: Ledger> Turns<L> {
    /// No turn yet.
    pub fn new(blank: Blank) -> Self
        requires name { blank.name ≡ L.name }
        requires parts { blank.parts ≡ L.parts }
        requires some { blank.parts ≡ 1 }
        ensures exact { result ≡ 0 }
    {
        let (book, share) = blank.open();
        Turns { book, share }
    }

    pub(crate) fn tick(&mut self)
        ensures exact { self.new ≡ self.old + 1 }
    {
        self.book.add(&mut self.share, 1);
    }
}
