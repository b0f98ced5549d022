// Equal lists of the parts of a plan.
ghost use Rattle.std.specs.Prelude.{◌≡◌, IfOk};

use crate::expr::Expr;
use crate::join_plan::JoinPlan;
use crate::key_plan::KeyPlan;
use doc_values::{ColRef, Utf};
use sqlite_items::Items;
use std::alloc::{AllocError, Global};

pub(crate) fn copy_condition(
    alloc: Global,
    condition: &Option<Expr>,
) -> Result<Option<Expr>, AllocError>
    ensures ok { IfOk result (λ copy. copy ≡ condition.now) }
{
    match condition {
        Some(expr) => Ok(Some(expr.copy(alloc)?)),
        None => Ok(None),
    }
}

pub(crate) fn copy_names(alloc: Global, names: &[Utf]) -> Result<Items<Utf>, AllocError>
    ensures ok { IfOk result (λ copies. copies ≡ names.now) }
{
    let mut copies = Items::new(alloc);
    for name in names {
        copies.push(name.copy()?)?;
    }
    Ok(copies)
}

pub(crate) fn copy_joins(alloc: Global, joins: &[JoinPlan]) -> Result<Items<JoinPlan>, AllocError>
    ensures ok { IfOk result (λ copies. copies ≡ joins.now) }
{
    let mut copies = Items::new(alloc);
    for join in joins {
        copies.push(join.copy(alloc)?)?;
    }
    Ok(copies)
}

pub(crate) fn copy_keys(alloc: Global, keys: &[KeyPlan]) -> Result<Items<KeyPlan>, AllocError>
    ensures ok { IfOk result (λ copies. copies ≡ keys.now) }
{
    let mut copies = Items::new(alloc);
    for key in keys {
        copies.push(key.copy(alloc)?)?;
    }
    Ok(copies)
}

pub(crate) fn copy_columns(alloc: Global, columns: &[ColRef]) -> Result<Items<ColRef>, AllocError>
    ensures ok { IfOk result (λ copies. copies ≡ columns.now) }
{
    let mut copies = Items::new(alloc);
    for column in columns {
        copies.push(column.copy()?)?;
    }
    Ok(copies)
}

// One list of columns for each table.
pub(crate) fn copy_refs(
    alloc: Global,
    refs: &[Items<ColRef>],
) -> Result<Items<Items<ColRef>>, AllocError>
    ensures ok { IfOk result (λ copies. copies ≡ refs.now) }
{
    let mut copies = Items::new(alloc);
    for columns in refs {
        copies.push(copy_columns(alloc, columns.as_slice())?)?;
    }
    Ok(copies)
}
