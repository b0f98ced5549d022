ghost use Rattle.std.specs.Prelude.{◌≡◌, ◌<◌, ◌≤◌, ◌+◌, ◌-◌, ◌^◌, min, IfOk, Err, length};
ghost use Rattle.sinew_io.specs.Count.{HasCause};
ghost use Rattle.sinew_io.specs.Piece.{ReadsPiece};
ghost use Rattle.sinew_io.specs.Whole.{ReadsUpTo, GaveAtMost};

use crate::got::Got;
use crate::piece::Piece;
use crate::source::Source;
use crate::take_fault::TakeFault;
use crate::taken::Taken;
use crate::turns::Turns;
use doc_values::Bytes;
use std::alloc::Global;
use std::marker::Brand;
use std::sync::ledger::{Blank, Ledger};

/// The longest buffer that a read is offered.
const PIECE: usize = 4096;

/// Reads until the end, or until one byte more than the limit was taken.
pub fn read_up_to<S: Source>(
    alloc: Global,
    source: &mut S,
    limit: usize,
) -> Result<Taken, TakeFault>
    requires { limit + 1 < 2 ^ 64 }
    ensures ok { IfOk result (λ t. ReadsUpTo limit (S.left source.old) (S.left source.new) t.bytes t.more) }
    ensures most { GaveAtMost (limit + 1) (S.left source.old) (S.left source.new) }
    ensures cause { HasCause (S.faults source.old) (S.faults source.new) (result ≡ Err TakeFault.Failed) }
{
    read_from_blank::<S, Brand>(alloc, source, limit, Blank::new(1))
}

/// Opens the count of turns.
fn read_from_blank<S: Source, L: Ledger>(
    alloc: Global,
    source: &mut S,
    limit: usize,
    blank: Blank,
) -> Result<Taken, TakeFault>
    requires limit { limit + 1 < 2 ^ 64 }
    requires name { blank.name ≡ L.name }
    requires parts { blank.parts ≡ L.parts }
    requires some { blank.parts ≡ 1 }
    ensures ok { IfOk result (λ t. ReadsUpTo limit (S.left source.old) (S.left source.new) t.bytes t.more) }
    ensures most { GaveAtMost (limit + 1) (S.left source.old) (S.left source.new) }
    ensures cause { HasCause (S.faults source.old) (S.faults source.new) (result ≡ Err TakeFault.Failed) }
{
    let mut turns = Turns::<L>::new(blank);
    read_in_turns(alloc, source, limit, &mut turns)
}

/// Reads likewise, and counts its turns, each of which is one read of the source.
pub fn read_in_turns<S: Source, L: Ledger>(
    alloc: Global,
    source: &mut S,
    limit: usize,
    turns: &mut Turns<L>,
) -> Result<Taken, TakeFault>
    requires { limit + 1 < 2 ^ 64 }
    ensures ok { IfOk result (λ t. ReadsUpTo limit (S.left source.old) (S.left source.new) t.bytes t.more) }
    ensures most { GaveAtMost (limit + 1) (S.left source.old) (S.left source.new) }
    ensures cause { HasCause (S.faults source.old) (S.faults source.new) (result ≡ Err TakeFault.Failed) }
    ensures turns_ok { IfOk result (λ t. turns.new ≤ turns.old + length t.bytes + 1) }
    ensures turns_most { turns.new ≤ turns.old + limit + 1 }
{
    let mut buffer = [0; PIECE];
    let mut bytes = Vec::new(alloc);
    loop {
        let room = PIECE.min(limit - bytes.len() + 1);
        match read_piece(source, &mut buffer[..room], limit, &mut bytes, turns)? {
            Piece::Within => {}
            Piece::End => {
                return Ok(Taken {
                    bytes: Bytes::from_vec(bytes),
                    more: false,
                });
            }
            Piece::Beyond => {
                return Ok(Taken {
                    bytes: Bytes::from_vec(bytes),
                    more: true,
                });
            }
        }
    }
}

/// Takes one turn: one read, behind the bytes that are held.
fn read_piece<S: Source, L: Ledger>(
    source: &mut S,
    buffer: &mut [u8],
    limit: usize,
    bytes: &mut Vec<u8>,
    turns: &mut Turns<L>,
) -> Result<Piece, TakeFault>
    requires held { length bytes.old.items ≤ limit }
    requires offered { length buffer.old ≡ min 4096 (limit + 1 - length bytes.old.items) }
    ensures exact { ReadsPiece result limit (S.left source.old) (S.left source.new) bytes.old.items bytes.new.items }
    ensures cause { HasCause (S.faults source.old) (S.faults source.new) (result ≡ Err TakeFault.Failed) }
    ensures turn { turns.new ≡ turns.old + 1 }
{
    turns.tick();
    let count = match source.read(buffer) {
        Got::Bytes(count) => count,
        Got::End => return Ok(Piece::End),
        Got::Failed => return Err(TakeFault::Failed),
    };
    let room = limit - bytes.len();
    if count <= room {
        bytes.extend_from_slice(&buffer[..count])?;
        return Ok(Piece::Within);
    }
    bytes.extend_from_slice(&buffer[..room])?;
    Ok(Piece::Beyond)
}
