ghost use Rattle.std.specs.Prelude.{◌≡◌, ◌<◌, ◌≤◌, ◌≢◌, ◌+◌, ◌*◌, ◌/◌, ℕ, [], Some, None, MatchResult, IfSome, OnOk, OnErr, true, false, is_some, length, option_map, slice_get};
ghost use Rattle.std.specs.Option.{ForSome};
ghost use Rattle.doc_values.specs.declared.kind.Kind.{Kind as KindOf};
ghost use Rattle.doc_values.specs.declared.value.Value.{Value as ValueOf};
ghost use Rattle.doc_values.specs.Value.{kind_of, IsStorable};
ghost use Rattle.doc_values.specs.Lent.{owned};
ghost use Rattle.phys_columns.specs.Filtered.{is_bit, is_met};
ghost use Rattle.phys_columns.specs.Pages.{IsPage, AreSlots, Holds};
ghost use Rattle.phys_columns.specs.Inside.{ArePages, FitsAt, IsOfKind, page_at, column_value, most_pages};

use crate::compare_int::CompareInt;
use crate::mask::Mask;
use crate::page::Page;
use doc_values::{Kind, Value, ValueRef};
use std::alloc::{AllocError, Global};

/// The pages of an attribute, in the order of their numbers. A page without values is here only where room is reserved.
#[derive(Drop)]
pub(crate) struct Column {
    pub(crate) pages: Vec<Page>,
}

impl Column {
    pub(crate) fn new(alloc: Global) -> Column
        ensures exact { result.pages.items ≡ [] }
    {
        Column {
            pages: Vec::new(alloc),
        }
    }

    /// The page with a number.
    pub(crate) fn page(&self, number: u32) -> Option<&Page>
        requires { ArePages 0 self.now.pages.items }
        ensures exact { option_map (λ page. page.now) result ≡ page_at number self.now.pages.items }
        ensures page { IfSome result (λ page. IsPage page.now) }
        ensures low { ForSome result (λ page. page.now.number < most_pages) }
        ensures whole { ForSome result (λ page. AreSlots page.now.slots) }
    {
        match place(&self.pages, number) {
            Ok(place) => Some(&self.pages[place]),
            Err(_) => None,
        }
    }

    /// Whether a value stands in a version.
    pub(crate) fn has(&self, version: u32) -> bool
        requires { ArePages 0 self.now.pages.items }
        ensures exact { result ≡ is_some (column_value self.now.pages.items version) }
    {
        match self.page(version / 1024) {
            Some(page) => page.has((version % 1024) as usize),
            None => false,
        }
    }

    /// The value in a version, lent.
    pub(crate) fn lend(&self, version: u32) -> Option<ValueRef<'_>>
        requires { ArePages 0 self.now.pages.items }
        ensures exact { option_map owned result ≡ column_value self.now.pages.items version }
    {
        match self.page(version / 1024) {
            Some(page) => page.lend((version % 1024) as usize),
            None => None,
        }
    }

    /// A bit for each version of a page: whether a number stands there and meets the comparison.
    pub(crate) fn filter(&self, number: u32, test: CompareInt) -> Mask
        requires { ArePages 0 self.now.pages.items }
        ensures exact { (w j : ℕ) → w < 16 → j < 64 → is_bit result.words w j ≡ is_met test (column_value self.now.pages.items (1024 * number + (64 * w + j))) }
    {
        match self.page(number) {
            Some(page) => page.filter(test),
            None => Mask { words: [0; 16] },
        }
    }

    /// Makes the page of a version, for values of a kind, where it is not there.
    pub(crate) fn make_room(
        &mut self,
        alloc: Global,
        version: u32,
        kind: Kind,
    ) -> Result<(), AllocError>
        requires pages { ArePages 0 self.old.pages.items }
        requires held { (n : ℕ) → IfSome (page_at n self.old.pages.items) Holds }
        requires alike { (w : ℕ) (v : ValueOf) → column_value self.old.pages.items w ≡ Some v → kind_of v ≡ kind }
        ensures pages { ArePages 0 self.new.pages.items }
        ensures kept { (w : ℕ) → column_value self.new.pages.items w ≡ column_value self.old.pages.items w }
        ensures others { (n : ℕ) → n ≢ version / 1024 → page_at n self.new.pages.items ≡ page_at n self.old.pages.items }
        ensures room { OnOk result (IsOfKind kind (page_at (version / 1024) self.new.pages.items)) }
        ensures memory { OnErr result (self.new.pages.items ≡ self.old.pages.items) }
    {
        let number = version / 1024;
        match place(&self.pages, number) {
            Ok(_) => Ok(()),
            Err(place) => {
                self.pages.insert(place, Page::new(alloc, number, kind)?)?;
                Ok(())
            }
        }
    }

    /// Puts a value in a version whose page is there.
    pub(crate) fn put(&mut self, version: u32, value: Value)
        requires pages { ArePages 0 self.old.pages.items }
        requires room { IsOfKind (kind_of value) (page_at (version / 1024) self.old.pages.items) }
        requires storable { IsStorable value }
        ensures pages { ArePages 0 self.new.pages.items }
        ensures here { column_value self.new.pages.items version ≡ Some value }
        ensures kept { (w : ℕ) → w ≢ version → column_value self.new.pages.items w ≡ column_value self.old.pages.items w }
        ensures others { (n : ℕ) → n ≢ version / 1024 → page_at n self.new.pages.items ≡ page_at n self.old.pages.items }
        ensures held { IfSome (page_at (version / 1024) self.new.pages.items) Holds }
    {
        if let Ok(place) = place(&self.pages, version / 1024) {
            self.pages[place].put((version % 1024) as usize, value);
        }
    }

    /// Takes the value out of a version, and lets the page go if it holds no value then and is not to be kept.
    pub(crate) fn clear(&mut self, alloc: Global, version: u32, keep: bool) -> Option<Value>
        requires pages { ArePages 0 self.old.pages.items }
        ensures exact { result ≡ column_value self.old.pages.items version }
        ensures pages { ArePages 0 self.new.pages.items }
        ensures here { column_value self.new.pages.items version ≡ None }
        ensures kept { (w : ℕ) → w ≢ version → column_value self.new.pages.items w ≡ column_value self.old.pages.items w }
        ensures others { (n : ℕ) → n ≢ version / 1024 → page_at n self.new.pages.items ≡ page_at n self.old.pages.items }
        ensures room { keep ≡ true → (k : KindOf) → IsOfKind k (page_at (version / 1024) self.old.pages.items) → IsOfKind k (page_at (version / 1024) self.new.pages.items) }
        ensures held { keep ≡ false → IfSome (page_at (version / 1024) self.new.pages.items) Holds }
    {
        let taken = self.take(alloc, version);
        if !keep {
            self.let_go(version);
        }
        taken
    }

    // Takes the value out of a version, and keeps the page.
    fn take(&mut self, alloc: Global, version: u32) -> Option<Value>
        requires pages { ArePages 0 self.old.pages.items }
        ensures exact { result ≡ column_value self.old.pages.items version }
        ensures pages { ArePages 0 self.new.pages.items }
        ensures here { column_value self.new.pages.items version ≡ None }
        ensures kept { (w : ℕ) → w ≢ version → column_value self.new.pages.items w ≡ column_value self.old.pages.items w }
        ensures others { (n : ℕ) → n ≢ version / 1024 → page_at n self.new.pages.items ≡ page_at n self.old.pages.items }
        ensures room { (k : KindOf) → IsOfKind k (page_at (version / 1024) self.old.pages.items) → IsOfKind k (page_at (version / 1024) self.new.pages.items) }
    {
        match place(&self.pages, version / 1024) {
            Ok(place) => self.pages[place].take(alloc, (version % 1024) as usize),
            Err(_) => None,
        }
    }

    /// Lets the page of a version go, if it holds no value.
    pub(crate) fn let_go(&mut self, version: u32)
        requires pages { ArePages 0 self.old.pages.items }
        ensures pages { ArePages 0 self.new.pages.items }
        ensures kept { (w : ℕ) → column_value self.new.pages.items w ≡ column_value self.old.pages.items w }
        ensures others { (n : ℕ) → n ≢ version / 1024 → page_at n self.new.pages.items ≡ page_at n self.old.pages.items }
        ensures held { IfSome (page_at (version / 1024) self.new.pages.items) Holds }
    {
        match place(&self.pages, version / 1024) {
            Ok(place) => {
                if self.pages[place].is_empty() {
                    self.pages.remove(place);
                }
            }
            Err(_) => {}
        }
    }
}

// Where the page with a number stands, or where it would. Where no page is missing between, the first number tells.
pub(crate) fn place(pages: &[Page], number: u32) -> Result<usize, usize>
    requires { ArePages 0 pages.now }
    ensures exact { MatchResult result (λ place. (place < length pages.now) × (slice_get pages.now place ≡ page_at number pages.now)) (λ place. (place ≤ length pages.now) × (page_at number pages.now ≡ None) × FitsAt number place pages.now) }
{
    if let Some(first) = pages.first() {
        let guess = number.wrapping_sub(first.number) as usize;
        if guess < pages.len() && pages[guess].number == number {
            return Ok(guess);
        }
    }
    pages.binary_search_by_key(&number, |page| page.number)
}
