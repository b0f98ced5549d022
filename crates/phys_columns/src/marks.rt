ghost use Rattle.std.specs.Prelude.{◌≡◌, ◌<◌, ◌≤◌, ◌≢◌, ℕ, true, false, IfSome, IfNone};
ghost use Rattle.std.specs.Int.{bit_at};
ghost use Rattle.phys_columns.specs.Pages.{is_marked};

/// A bit for each version of a page.
#[derive(Drop)]
pub(crate) struct Marks {
    pub(crate) words: [u64; 16],
}

impl Marks {
    pub(crate) fn none() -> Marks
        ensures exact { (k : ℕ) → is_marked result k ≡ false }
    {
        Marks { words: [0; 16] }
    }

    pub(crate) fn has(&self, place: usize) -> bool
        requires { place < 1024 }
        ensures exact { result ≡ is_marked self.now place }
    {
        (self.words[place / 64] >> (place % 64)) & 1 == 1
    }

    pub(crate) fn set(&mut self, place: usize)
        requires { place < 1024 }
        ensures here { is_marked self.new place ≡ true }
        ensures kept { (k : ℕ) → k ≢ place → is_marked self.new k ≡ is_marked self.old k }
    {
        self.words[place / 64] |= 1 << (place % 64);
    }

    pub(crate) fn clear(&mut self, place: usize)
        requires { place < 1024 }
        ensures here { is_marked self.new place ≡ false }
        ensures kept { (k : ℕ) → k ≢ place → is_marked self.new k ≡ is_marked self.old k }
    {
        self.words[place / 64] &= !(1 << (place % 64));
    }

    /// The first marked place from a place on, or 1,024.
    pub(crate) fn next(&self, from: usize) -> usize
        requires { from ≤ 1024 }
        ensures between { (from ≤ result) × (result ≤ 1024) }
        ensures none { (k : ℕ) → from ≤ k → k < result → is_marked self.now k ≡ false }
        ensures here { result < 1024 → is_marked self.now result ≡ true }
    {
        let mut place = from;
        while place < 1024 {
            match first_set(self.words[place / 64], place % 64) {
                Some(bit) => return place / 64 * 64 + bit,
                None => place = (place / 64 + 1) * 64,
            }
        }
        place
    }

    /// Whether no version is marked.
    pub(crate) fn is_empty(&self) -> bool
        ensures none { result ≡ true → (k : ℕ) → k < 1024 → is_marked self.now k ≡ false }
        ensures some { result ≡ false → (k : ℕ) × (k < 1024) × (is_marked self.now k ≡ true) }
    {
        self.next(0) == 1024
    }
}

// The first bit of a word that is set, from a place on.
fn first_set(word: u64, from: usize) -> Option<usize>
    requires { from < 64 }
    ensures none { IfNone result ((k : ℕ) → from ≤ k → k < 64 → bit_at word k ≡ 0) }
    ensures some { IfSome result (λ bit. (from ≤ bit) × (bit < 64) × (bit_at word bit ≡ 1) × ((k : ℕ) → from ≤ k → k < bit → bit_at word k ≡ 0)) }
{
    let rest = word >> from;
    if rest == 0 {
        return None;
    }
    Some(from + rest.trailing_zeros() as usize)
}
