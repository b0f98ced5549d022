ghost use Rattle.std.specs.Prelude.{◌≡◌, ◌+◌, ◌≤◌, ◌++◌, length, OnOk, OnErr};
ghost use Rattle.reservoir_record.specs.Spelling.{number_bytes};
ghost use Rattle.reservoir_record.specs.Words.{word_at};

use byteorder::{ByteOrder, LittleEndian};
use std::alloc::AllocError;

/// The number in the four bytes from a place on.
#[tactic(auto, unfolding(crate::specs::Words::word_at))]
pub(crate) fn word(bytes: &[u8], at: usize) -> u32
    requires { at + 4 ≤ length bytes.now }
    ensures exact { result ≡ word_at bytes.now at }
{
    LittleEndian::read_u32(&bytes[at..])
}

/// Appends a number as four bytes.
#[tactic(auto, unfolding(crate::specs::Spelling::number_bytes))]
pub(crate) fn push_word(bytes: &mut Vec<u8>, number: u32) -> Result<(), AllocError>
    ensures ok { OnOk result (bytes.new.items ≡ bytes.old.items ++ number_bytes number) }
    ensures memory { OnErr result (bytes.new.items ≡ bytes.old.items) }
{
    let mut word = [0u8; 4];
    LittleEndian::write_u32(&mut word, number);
    bytes.extend_from_slice(&word)
}
