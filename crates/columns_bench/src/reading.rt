use anyhow::Result;
use doc_values::AttrId;
use phys_columns::{Columns, Mask, ValueRef};
use std::alloc::Global;

/// A value as it is printed, or `none`.
pub(crate) fn shown(alloc: Global, value: Option<ValueRef>) -> Result<String> {
    Ok(match value {
        None => "none".to_string(alloc)?,
        Some(ValueRef::Bool(b)) => format!(in alloc; "{b}")?,
        Some(ValueRef::Int(n)) => format!(in alloc; "{n}")?,
        Some(ValueRef::Text(text)) => format!(in alloc; "'{text}'")?,
        Some(ValueRef::Array(text)) => format!(in alloc; "{text}")?,
        Some(ValueRef::Object) => "{}".to_string(alloc)?,
    })
}

/// The values of a page, each as its version and the value.
pub(crate) fn walked(alloc: Global, columns: &Columns, id: u32, page: u32) -> Result<String> {
    let mut out = String::new(alloc);
    for (version, value) in columns.walk(AttrId(id), page) {
        let value = shown(alloc, Some(value))?;
        out.push_str(&format!(in alloc; " {version}:{value}")?)?;
    }
    Ok(out)
}

/// The words of a mask that are not 0, each as its place and the word.
pub(crate) fn masked(alloc: Global, mask: &Mask) -> Result<String> {
    let mut out = String::new(alloc);
    for place in 0..16_usize {
        let word = mask.words[place];
        if word != 0 {
            out.push_str(&format!(in alloc; " {place}:{word}")?)?;
        }
    }
    Ok(out)
}
