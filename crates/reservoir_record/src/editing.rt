ghost use Rattle.std.specs.Prelude.{ℕ, ◌≡◌, ◌+◌, ◌-◌, ◌*◌, ◌≤◌, ◌<◌, ◌++◌, List, length, take, drop, map, get_or};
ghost use Rattle.std.specs.List.{flat_map};
ghost use Rattle.std.specs.Vec.{vec_len, vec_capacity};
ghost use Rattle.reservoir_record.specs.Spelling.{number_bytes};
ghost use Rattle.reservoir_record.specs.Words.{word_at};

use crate::word::word;
use byteorder::{ByteOrder, LittleEndian};

/// Puts bytes in at a place. There is room for them.
pub(crate) fn insert(bytes: &mut Vec<u8>, at: usize, piece: &[u8])
    requires within { at ≤ length bytes.old.items }
    requires room { vec_len bytes.old + length piece.now ≤ vec_capacity bytes.old }
    ensures exact { bytes.new.items ≡ take at bytes.old.items ++ (piece.now ++ drop at bytes.old.items) }
    ensures len { vec_len bytes.new ≡ vec_len bytes.old + length piece.now }
    ensures kept { vec_capacity bytes.old ≤ vec_capacity bytes.new }
{
    let _ = bytes.extend_from_slice(piece);
    bytes[at..].rotate_right(piece.len());
}

/// Takes so many bytes out from a place on.
pub(crate) fn remove(bytes: &mut Vec<u8>, at: usize, len: usize)
    requires { at + len ≤ length bytes.old.items }
    ensures exact { bytes.new.items ≡ take at bytes.old.items ++ drop (at + len) bytes.old.items }
    ensures len { vec_len bytes.new + len ≡ vec_len bytes.old }
{
    bytes[at..].rotate_left(len);
    bytes.truncate(bytes.len() - len);
}

/// Puts a number in at a place. There is room for it.
#[tactic(auto, unfolding(crate::specs::Spelling::number_bytes))]
pub(crate) fn insert_word(bytes: &mut Vec<u8>, at: usize, number: u32)
    requires within { at ≤ length bytes.old.items }
    requires room { vec_len bytes.old + 4 ≤ vec_capacity bytes.old }
    ensures exact { bytes.new.items ≡ take at bytes.old.items ++ (number_bytes number ++ drop at bytes.old.items) }
    ensures len { vec_len bytes.new ≡ vec_len bytes.old + 4 }
    ensures kept { vec_capacity bytes.old ≤ vec_capacity bytes.new }
{
    let mut word = [0u8; 4];
    LittleEndian::write_u32(&mut word, number);
    insert(bytes, at, &word);
}

/// Writes a number over the four bytes from a place on.
#[tactic(auto, unfolding(crate::specs::Spelling::number_bytes))]
pub(crate) fn set_word(bytes: &mut [u8], at: usize, number: u32)
    requires { at + 4 ≤ length bytes.old }
    ensures exact { bytes.new ≡ take at bytes.old ++ (number_bytes number ++ drop (at + 4) bytes.old) }
{
    let mut word = [0u8; 4];
    LittleEndian::write_u32(&mut word, number);
    bytes[at..at + 4].copy_from_slice(&word);
}

/// Adds to each of so many numbers from a place on.
pub(crate) fn raise(bytes: &mut [u8], at: usize, count: usize, by: u32)
    requires within { at + 4 * count ≤ length bytes.old }
    requires room { (i : ℕ) → i < count → word_at bytes.old (at + 4 * i) + by < 4294967296 }
    ensures exact { (a ns c : List ℕ) → bytes.old ≡ a ++ (flat_map number_bytes ns ++ c) → length a ≡ at → length ns ≡ count → ((i : ℕ) → get_or ns i 0 < 4294967296) → bytes.new ≡ a ++ (flat_map number_bytes (map (λ n. n + by) ns) ++ c) }
{
    for place in 0..count {
        let here = at + 4 * place;
        let number = word(bytes, here) + by;
        set_word(bytes, here, number);
    }
}

/// Takes from each of so many numbers from a place on.
pub(crate) fn lower(bytes: &mut [u8], at: usize, count: usize, by: u32)
    requires within { at + 4 * count ≤ length bytes.old }
    requires room { (i : ℕ) → i < count → by ≤ word_at bytes.old (at + 4 * i) }
    ensures exact { (a ns c : List ℕ) → bytes.old ≡ a ++ (flat_map number_bytes ns ++ c) → length a ≡ at → length ns ≡ count → ((i : ℕ) → get_or ns i 0 < 4294967296) → bytes.new ≡ a ++ (flat_map number_bytes (map (λ n. n - by) ns) ++ c) }
{
    for place in 0..count {
        let here = at + 4 * place;
        let number = word(bytes, here) - by;
        set_word(bytes, here, number);
    }
}
