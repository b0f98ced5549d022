ghost use Rattle.std.specs.Prelude.{◌≡◌, ◌<◌, ◌≢◌, ◌+◌, ◌*◌, ◌&&◌, ℕ, pos, length, slice_index_or, Some, None, true, false, IfOk, is_some, option_map};
ghost use Rattle.doc_values.specs.declared.value.Value.TheVariants.{Int as IntOf};
ghost use Rattle.doc_values.specs.Value.{kind_of, IsStorable};
ghost use Rattle.doc_values.specs.Lent.{owned};
ghost use Rattle.phys_columns.specs.Filtered.{is_bit, is_met, admits_number};
ghost use Rattle.phys_columns.specs.Pages.{kind_in, value_at, is_marked, page_len, IsPage, Holds};

use crate::compare_int::CompareInt;
use crate::comparing::met;
use crate::marks::Marks;
use crate::mask::Mask;
use crate::slots::Slots;
use doc_values::{Kind, Value, ValueRef};
use std::alloc::{AllocError, Global};

/// The values of one attribute in 1,024 versions: a mark for each version that has one, and the values by place.
#[derive(Drop)]
pub(crate) struct Page {
    pub(crate) number: u32,
    pub(crate) marks: Marks,
    pub(crate) slots: Slots,
}

impl Page {
    /// A page without values, with room for those of a kind.
    pub(crate) fn new(alloc: Global, number: u32, kind: Kind) -> Result<Page, AllocError>
        ensures ok { IfOk result (λ page. (page.number ≡ number) × (kind_in page.slots ≡ kind) × IsPage page) }
        ensures empty { IfOk result (λ page. (k : ℕ) → value_at page k ≡ None) }
    {
        let slots = Slots::new(alloc, kind)?;
        Ok(Page {
            number,
            marks: Marks::none(),
            slots,
        })
    }

    pub(crate) fn has(&self, place: usize) -> bool
        requires within { place < page_len }
        ensures exact { result ≡ is_some (value_at self.now place) }
    {
        self.marks.has(place)
    }

    /// The value at a place, lent.
    pub(crate) fn lend(&self, place: usize) -> Option<ValueRef<'_>>
        requires within { place < page_len }
        requires page { IsPage self.now }
        ensures exact { option_map owned result ≡ value_at self.now place }
    {
        if !self.marks.has(place) {
            return None;
        }
        Some(self.slots.lend(place))
    }

    /// A bit for each version: whether a number stands there and meets the comparison.
    pub(crate) fn filter(&self, test: CompareInt) -> Mask
        requires page { IsPage self.now }
        ensures exact { (w j : ℕ) → w < 16 → j < 64 → is_bit result.words w j ≡ is_met test (value_at self.now (64 * w + j)) }
    {
        match &self.slots {
            Slots::Numbers(numbers) => filter_numbers(&self.marks, numbers, test),
            _ => Mask { words: [0; 16] },
        }
    }

    /// Puts a value at a place.
    pub(crate) fn put(&mut self, place: usize, value: Value)
        requires within { place < page_len }
        requires page { IsPage self.old }
        requires kind { kind_in self.old.slots ≡ kind_of value }
        requires storable { IsStorable value }
        ensures here { value_at self.new place ≡ Some value }
        ensures kept { (k : ℕ) → k ≢ place → value_at self.new k ≡ value_at self.old k }
        ensures number { self.new.number ≡ self.old.number }
        ensures page { IsPage self.new }
        ensures held { Holds self.new }
    {
        self.slots.put(place, value);
        self.marks.set(place);
    }

    /// Takes the value at a place out.
    pub(crate) fn take(&mut self, alloc: Global, place: usize) -> Option<Value>
        requires within { place < page_len }
        requires page { IsPage self.old }
        ensures exact { result ≡ value_at self.old place }
        ensures here { value_at self.new place ≡ None }
        ensures kept { (k : ℕ) → k ≢ place → value_at self.new k ≡ value_at self.old k }
        ensures number { self.new.number ≡ self.old.number }
        ensures kind { kind_in self.new.slots ≡ kind_in self.old.slots }
        ensures page { IsPage self.new }
    {
        if !self.marks.has(place) {
            return None;
        }
        self.marks.clear(place);
        Some(self.slots.take(alloc, place))
    }

    /// Whether no value stands in the page.
    pub(crate) fn is_empty(&self) -> bool
        ensures none { result ≡ true → (k : ℕ) → k < page_len → value_at self.now k ≡ None }
        ensures some { result ≡ false → Holds self.now }
    {
        self.marks.is_empty()
    }
}

// A bit for each marked number that meets the comparison.
fn filter_numbers(marks: &Marks, numbers: &[i64], test: CompareInt) -> Mask
    requires whole { length numbers.now ≡ page_len }
    requires storable { (k : ℕ) → IsStorable (IntOf (slice_index_or numbers.now k (pos 0))) }
    ensures exact { (w j : ℕ) → w < 16 → j < 64 → is_bit result.words w j ≡ (is_marked marks.now (64 * w + j) && admits_number test (slice_index_or numbers.now (64 * w + j) (pos 0))) }
{
    let mut words = marks.words;
    for place in 0..16_usize {
        words[place] &= met(numbers, 64 * place, test);
    }
    Mask { words }
}
