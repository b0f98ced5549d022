ghost use Rattle.std.specs.Prelude.{ℕ, ◌≡◌, ◌≤◌, ◌+◌, ◌*◌, ◌++◌, length, IfOk, OnOk, OnErr};
ghost use Rattle.std.specs.List.{flat_map};
ghost use Rattle.reservoir_record.specs.Spelling.{Ascends, values, numbers, offsets, number_bytes, Spells};

use crate::fields::Field;
use crate::word::push_word;
use std::alloc::{AllocError, Global};

/// The record of these fields, in one allocation of its size.
pub fn build(alloc: Global, fields: &[Field]) -> Result<Vec<u8>, AllocError>
    requires ascend { Ascends 0 fields.now }
    requires fit { length (values fields.now) ≤ 16777216 }
    ensures ok { IfOk result (λ bytes. Spells fields.now bytes.items) }
{
    let mut bytes = Vec::with_capacity(alloc, 8 + 8 * fields.len() + values_len(fields))?;
    push_word(&mut bytes, fields.len() as u32)?;
    push_numbers(&mut bytes, fields)?;
    push_offsets(&mut bytes, fields)?;
    push_values(&mut bytes, fields)?;
    Ok(bytes)
}

// How many bytes the values have together.
fn values_len(fields: &[Field]) -> usize
    requires { length (values fields.now) ≤ 16777216 }
    ensures exact { result ≡ length (values fields.now) }
{
    let mut len = 0;
    for field in fields {
        len += field.bytes.items().len();
    }
    len
}

fn push_numbers(bytes: &mut Vec<u8>, fields: &[Field]) -> Result<(), AllocError>
    ensures ok { OnOk result (bytes.new.items ≡ bytes.old.items ++ flat_map number_bytes (numbers fields.now)) }
{
    for field in fields {
        push_word(bytes, field.id)?;
    }
    Ok(())
}

fn push_offsets(bytes: &mut Vec<u8>, fields: &[Field]) -> Result<(), AllocError>
    requires { length (values fields.now) ≤ 16777216 }
    ensures ok { OnOk result (bytes.new.items ≡ bytes.old.items ++ flat_map number_bytes (offsets 0 fields.now)) }
{
    push_word(bytes, 0)?;
    let mut end = 0;
    for field in fields {
        end += field.bytes.items().len() as u32;
        push_word(bytes, end)?;
    }
    Ok(())
}

fn push_values(bytes: &mut Vec<u8>, fields: &[Field]) -> Result<(), AllocError>
    ensures ok { OnOk result (bytes.new.items ≡ bytes.old.items ++ values fields.now) }
{
    for field in fields {
        bytes.extend_from_slice(field.bytes.items())?;
    }
    Ok(())
}
