ghost use Rattle.std.specs.Prelude.{◌≡◌, ◌<◌, ◌≤◌};
ghost use Rattle.std.specs.Option.{ForSome};
ghost use Rattle.phys_columns.specs.Pages.{AreSlots};
ghost use Rattle.phys_columns.specs.Inside.{most_pages};

use crate::page::Page;
use doc_values::ValueRef;

/// The values of a page in the order of their versions, each with its version.
#[derive(Drop)]
pub struct Walk<'a> {
    page: Option<&'a Page>,
    place: usize,
    ghost whole: { ForSome page (λ p. AreSlots p.now.slots) },
    ghost low: { ForSome page (λ p. p.now.number < most_pages) },
    ghost within: { place ≤ 1024 },
}

impl<'a> Walk<'a> {
    ghost use Rattle.phys_columns.specs.Walked.{left_of, all_of};

    pub(crate) fn new(page: Option<&'a Page>) -> Self
        requires whole { ForSome page (λ p. AreSlots p.now.slots) }
        requires low { ForSome page (λ p. p.now.number < most_pages) }
        ensures exact { left_of result ≡ all_of page.entry }
    {
        Walk { page, place: 0 }
    }
}

impl<'a> Iterator for Walk<'a> {
    ghost use Rattle.std.specs.Iterator.{YieldsFirstBy, item_count};
    ghost use Rattle.phys_columns.specs.Walked.{left_of, shown};

    type Item = (u32, ValueRef<'a>);

    ghost next_gives = { YieldsFirstBy shown left_of };

    ghost remaining = { item_count left_of };

    fn next(&mut self) -> Option<(u32, ValueRef<'a>)> {
        let page = self.page?;
        let place = page.marks.next(self.place);
        if place == 1024 {
            self.place = 1024;
            return None;
        }
        self.place = place + 1;
        Some((1024 * page.number + place as u32, page.slots.lend(place)))
    }
}
