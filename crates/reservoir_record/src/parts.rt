ghost use Rattle.std.specs.Prelude.{◌≡◌, ◌++◌, List, IfOk, OnOk};
ghost use Rattle.std.specs.List.{flat_map};
ghost use Rattle.reservoir_record.specs.Spelling.{number_bytes, AreFields, ArePartsOf, Spells};
ghost use Rattle.reservoir_record.specs.declared.fields.Field.{Field};

use crate::word::push_word;
use std::alloc::{AllocError, Global};

/// The record of fields whose numbers, ends of values and values lie apart, in one allocation of its size.
pub fn build_from_parts(
    alloc: Global,
    ids: &[u32],
    ends: &[u32],
    values: &[u8],
) -> Result<Vec<u8>, AllocError>
    requires { (fields : List Field) × (AreFields fields × ArePartsOf fields ids.now ends.now values.now) }
    ensures ok { (fields : List Field) → ArePartsOf fields ids.now ends.now values.now → IfOk result (λ bytes. Spells fields bytes.items) }
{
    let mut bytes = Vec::with_capacity(alloc, 8 + 8 * ids.len() + values.len())?;
    push_word(&mut bytes, ids.len() as u32)?;
    push_words(&mut bytes, ids)?;
    push_word(&mut bytes, 0)?;
    push_words(&mut bytes, ends)?;
    bytes.extend_from_slice(values)?;
    Ok(bytes)
}

fn push_words(bytes: &mut Vec<u8>, numbers: &[u32]) -> Result<(), AllocError>
    ensures ok { OnOk result (bytes.new.items ≡ bytes.old.items ++ flat_map number_bytes numbers.now) }
{
    for number in numbers {
        push_word(bytes, *number)?;
    }
    Ok(())
}
