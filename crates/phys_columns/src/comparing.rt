ghost use Rattle.std.specs.Prelude.{◌≡◌, ◌+◌, ◌<◌, ◌≤◌, ◌==◌, ℕ, pos, int_lt, FitsSigned, length, slice_index_or};
ghost use Rattle.std.specs.Ordering.{int_eq};
ghost use Rattle.std.specs.Int.{bit_at, w64};
ghost use Rattle.phys_columns.specs.Filtered.{admits_number};

use crate::compare_int::CompareInt;
use doc_values::CompareOp;
use std::simd::Simd;

/// A bit for each of 64 numbers from a place on: whether it meets the comparison.
pub(crate) fn met(numbers: &[i64], at: usize, test: CompareInt) -> u64
    requires within { at + 64 ≤ length numbers.now }
    requires fit { (k : ℕ) → FitsSigned w64 (slice_index_or numbers.now k (pos 0)) }
    ensures exact { (j : ℕ) → j < 64 → (bit_at result j == 1) ≡ admits_number test (slice_index_or numbers.now (at + j) (pos 0)) }
{
    match test.op {
        CompareOp::Eq => equal(numbers, at, test.with),
        CompareOp::Ne => !equal(numbers, at, test.with),
        CompareOp::Lt => below(numbers, at, test.with),
        CompareOp::Le => !above(numbers, at, test.with),
        CompareOp::Gt => above(numbers, at, test.with),
        CompareOp::Ge => !below(numbers, at, test.with),
    }
}

// A bit for each of 64 numbers from a place on, compared in lanes: whether it is below another one.
fn below(numbers: &[i64], at: usize, with: i64) -> u64
    requires within { at + 64 ≤ length numbers.now }
    requires fit { (k : ℕ) → FitsSigned w64 (slice_index_or numbers.now k (pos 0)) }
    ensures exact { (j : ℕ) → j < 64 → (bit_at result j == 1) ≡ int_lt (slice_index_or numbers.now (at + j) (pos 0)) with }
{
    let lanes = Simd::<i64, 64>::from_slice(&numbers[at..]);
    lanes.simd_lt(Simd::splat(with)).to_bitmask()
}

// The same: whether it is above another one.
fn above(numbers: &[i64], at: usize, with: i64) -> u64
    requires within { at + 64 ≤ length numbers.now }
    requires fit { (k : ℕ) → FitsSigned w64 (slice_index_or numbers.now k (pos 0)) }
    ensures exact { (j : ℕ) → j < 64 → (bit_at result j == 1) ≡ int_lt with (slice_index_or numbers.now (at + j) (pos 0)) }
{
    let lanes = Simd::<i64, 64>::from_slice(&numbers[at..]);
    Simd::splat(with).simd_lt(lanes).to_bitmask()
}

// The same: whether it is another one.
fn equal(numbers: &[i64], at: usize, with: i64) -> u64
    requires within { at + 64 ≤ length numbers.now }
    requires fit { (k : ℕ) → FitsSigned w64 (slice_index_or numbers.now k (pos 0)) }
    ensures exact { (j : ℕ) → j < 64 → (bit_at result j == 1) ≡ int_eq (slice_index_or numbers.now (at + j) (pos 0)) with }
{
    let lanes = Simd::<i64, 64>::from_slice(&numbers[at..]);
    lanes.simd_eq(Simd::splat(with)).to_bitmask()
}
