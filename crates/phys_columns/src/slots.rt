ghost use Rattle.std.specs.Prelude.{◌≡◌, ◌<◌, ◌≢◌, ℕ, List, [], pos, IfOk, length, slice_index_or};
ghost use Rattle.std.specs.List.{All};
ghost use Rattle.doc_values.specs.Value.{kind_of, IsStorable};
ghost use Rattle.doc_values.specs.Lent.{owned};
ghost use Rattle.phys_columns.specs.Pages.{AreSlots, kind_in, value_in, text_in, page_len};

use crate::marks::Marks;
use doc_values::{Kind, Utf, Value, ValueRef};
use std::alloc::{AllocError, Global};
use std::mem;

/// The values of a page, all of one kind. What stands where no version is marked means nothing.
#[derive(Drop)]
pub(crate) enum Slots {
    Truths(Box<Marks>),
    Numbers(Vec<i64>),
    Texts(Vec<Utf>),
    Arrays(Vec<Utf>),
    Objects,
}

impl Slots {
    /// Slots for the values of a kind.
    pub(crate) fn new(alloc: Global, kind: Kind) -> Result<Slots, AllocError>
        ensures ok { IfOk result (λ slots. (kind_in slots ≡ kind) × AreSlots slots × ((k : ℕ) → text_in slots k ≡ [])) }
        ensures storable { IfOk result (λ slots. (k : ℕ) → IsStorable (value_in slots k)) }
    {
        match kind {
            Kind::Bool => Ok(Slots::Truths(Box::new(alloc, Marks::none())?)),
            Kind::Int => Ok(Slots::Numbers(zeros(alloc)?)),
            Kind::Text => Ok(Slots::Texts(blanks(alloc)?)),
            Kind::Array => Ok(Slots::Arrays(blanks(alloc)?)),
            Kind::Object => Ok(Slots::Objects),
        }
    }

    /// What stands in a slot, lent.
    pub(crate) fn lend(&self, place: usize) -> ValueRef<'_>
        requires within { place < page_len }
        requires whole { AreSlots self.now }
        ensures exact { owned result ≡ value_in self.now place }
    {
        match self {
            Slots::Truths(truths) => ValueRef::Bool(truths.has(place)),
            Slots::Numbers(numbers) => ValueRef::Int(i128::from(numbers[place])),
            Slots::Texts(texts) => ValueRef::Text(texts[place].text()),
            Slots::Arrays(texts) => ValueRef::Array(texts[place].text()),
            Slots::Objects => ValueRef::Object,
        }
    }

    /// Puts a value in a slot.
    pub(crate) fn put(&mut self, place: usize, value: Value)
        requires within { place < page_len }
        requires whole { AreSlots self.old }
        requires kind { kind_in self.old ≡ kind_of value }
        requires storable { IsStorable value }
        ensures here { value_in self.new place ≡ value }
        ensures kept { (k : ℕ) → k ≢ place → (value_in self.new k ≡ value_in self.old k) × (text_in self.new k ≡ text_in self.old k) }
        ensures kind { kind_in self.new ≡ kind_in self.old }
        ensures whole { AreSlots self.new }
    {
        match self {
            Slots::Truths(truths) => {
                if let Value::Bool(true) = value {
                    truths.set(place);
                } else {
                    truths.clear(place);
                }
            }
            Slots::Numbers(numbers) => {
                if let Value::Int(number) = value {
                    numbers[place] = number as i64;
                }
            }
            Slots::Texts(texts) => {
                if let Value::Text(text) = value {
                    texts[place] = text;
                }
            }
            Slots::Arrays(texts) => {
                if let Value::Array(text) = value {
                    texts[place] = text;
                }
            }
            Slots::Objects => {}
        }
    }

    /// Takes the value out of a slot, with its text.
    pub(crate) fn take(&mut self, alloc: Global, place: usize) -> Value
        requires within { place < page_len }
        requires whole { AreSlots self.old }
        ensures exact { result ≡ value_in self.old place }
        ensures bare { text_in self.new place ≡ [] }
        ensures storable { ((k : ℕ) → IsStorable (value_in self.old k)) → (k : ℕ) → IsStorable (value_in self.new k) }
        ensures kept { (k : ℕ) → k ≢ place → (value_in self.new k ≡ value_in self.old k) × (text_in self.new k ≡ text_in self.old k) }
        ensures kind { kind_in self.new ≡ kind_in self.old }
        ensures whole { AreSlots self.new }
    {
        match self {
            Slots::Truths(truths) => Value::Bool(truths.has(place)),
            Slots::Numbers(numbers) => Value::Int(i128::from(numbers[place])),
            Slots::Texts(texts) => Value::Text(take_text(alloc, texts, place)),
            Slots::Arrays(texts) => Value::Array(take_text(alloc, texts, place)),
            Slots::Objects => Value::Object,
        }
    }
}

// A page of zeros.
fn zeros(alloc: Global) -> Result<Vec<i64>, AllocError>
    ensures len { IfOk result (λ numbers. length numbers.items ≡ page_len) }
    ensures zero { IfOk result (λ numbers. (k : ℕ) → slice_index_or numbers.items k (pos 0) ≡ pos 0) }
{
    let mut numbers = Vec::with_capacity(alloc, 1024)?;
    numbers.resize(1024, 0)?;
    Ok(numbers)
}

// A page of empty texts, which have no memory of their own.
fn blanks(alloc: Global) -> Result<Vec<Utf>, AllocError>
    ensures len { IfOk result (λ texts. length texts.items ≡ page_len) }
    ensures blank { IfOk result (λ texts. (k : ℕ) → slice_index_or texts.items k [] ≡ []) }
{
    let mut texts = Vec::with_capacity(alloc, 1024)?;
    for _ in 0..1024_usize {
        texts.push(Utf::from(String::new(alloc)))?;
    }
    Ok(texts)
}

// Takes the text at a place, and leaves an empty one.
fn take_text(alloc: Global, texts: &mut Vec<Utf>, place: usize) -> Utf
    requires within { place < length texts.old.items }
    ensures exact { result ≡ slice_index_or texts.old.items place [] }
    ensures bare { slice_index_or texts.new.items place [] ≡ [] }
    ensures kept { (k : ℕ) → k ≢ place → slice_index_or texts.new.items k [] ≡ slice_index_or texts.old.items k [] }
    ensures len { length texts.new.items ≡ length texts.old.items }
{
    mem::replace(&mut texts[place], Utf::from(String::new(alloc)))
}
