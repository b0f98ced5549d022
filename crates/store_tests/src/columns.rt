use row_columns::{CellColumn, TableRows, Tuples, ValueRef};
use std::test::Fail;

#[test]
fn lends_what_was_pushed(rt: HostRuntime) -> Result<(), Fail> {
    let alloc = rt.alloc();
    let mut column = CellColumn::new(alloc);
    column.reserve(5)?;
    column.push(Some(ValueRef::Text("é")))?;
    column.push(None)?;
    column.push(Some(ValueRef::Int(1 << 126)))?;
    column.push(Some(ValueRef::Array("[1]")))?;
    column.push(Some(ValueRef::Text("")))?;
    let mut columns = Vec::new(alloc);
    columns.push(column)?;
    let table = TableRows::new(6, columns, Vec::new(alloc));
    let tuples = Tuples::over(alloc, table)?;
    assert_eq!(rt; tuples.len(), 6);
    assert!(rt; matches!(tuples.get(0).cell(0, 0), Some(ValueRef::Text("é"))));
    assert!(rt; tuples.get(1).cell(0, 0).is_none());
    assert!(rt; matches!(tuples.get(2).cell(0, 0), Some(ValueRef::Int(n)) if n == 1 << 126));
    assert!(rt; matches!(tuples.get(3).cell(0, 0), Some(ValueRef::Array("[1]"))));
    assert!(rt; matches!(tuples.get(4).cell(0, 0), Some(ValueRef::Text(""))));
    assert!(rt; tuples.get(5).cell(0, 0).is_none());
    assert!(rt; tuples.get(0).cell(0, 1).is_none());
    assert!(rt; tuples.get(0).cell(1, 0).is_none());
    assert!(rt; tuples.get(0).doc().is_none());
    Ok(())
}
