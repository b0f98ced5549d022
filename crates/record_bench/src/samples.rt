ghost use Rattle.std.specs.Prelude.{◌≡◌, ◌*◌, ◌<◌, ◌≤◌, length, IfOk};
ghost use Rattle.reservoir_record.specs.Spelling.{Ascends, ArePartsOf, values};

use reservoir_record::{Field, FieldBytes, parts_of_one_more};
use std::alloc::{AllocError, Global};

/// The numbers, the ends of the values and the values of some fields.
#[derive(Drop)]
pub(crate) struct Parts {
    pub(crate) ids: Vec<u32>,
    pub(crate) ends: Vec<u32>,
    pub(crate) values: Vec<u8>,
}

/// So many fields of eight bytes each, numbered from 0.
pub(crate) fn fields_of(alloc: Global, count: u32) -> Result<Vec<Field>, AllocError>
    requires { count ≤ 4096 }
    ensures ascend { IfOk result (λ fields. Ascends 0 fields.items) }
    ensures fit { IfOk result (λ fields. length (values fields.items) ≡ 8 * count) }
{
    let mut fields = Vec::with_capacity(alloc, count as usize)?;
    for id in 0..count {
        let bytes = FieldBytes::from_vec(Vec::from_slice(alloc, &u64::from(id).to_le_bytes())?);
        fields.push(Field { id, bytes })?;
    }
    Ok(fields)
}

/// The parts of some fields.
pub(crate) fn parts_of(alloc: Global, fields: &[Field]) -> Result<Parts, AllocError>
    requires { length (values fields.now) ≤ 16777216 }
    ensures ok { IfOk result (λ parts. ArePartsOf fields.now parts.ids.items parts.ends.items parts.values.items) }
{
    parts_of_one_more();
    let mut ids = Vec::new(alloc);
    let mut ends = Vec::new(alloc);
    let mut values = Vec::new(alloc);
    for field in fields {
        ids.push(field.id)?;
        values.extend_from_slice(field.bytes.items())?;
        ends.push(values.len() as u32)?;
    }
    Ok(Parts { ids, ends, values })
}

/// The plain list of some fields.
pub(crate) fn list_of(alloc: Global, fields: &[Field]) -> Result<Vec<(u32, Vec<u8>)>, AllocError> {
    let mut list = Vec::with_capacity(alloc, fields.len())?;
    for field in fields {
        list.push((field.id, Vec::from_slice(alloc, field.bytes.items())?))?;
    }
    Ok(list)
}
