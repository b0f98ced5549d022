ghost use Rattle.std.specs.Prelude.{◌≡◌, [], ◌∷◌, IfOk, codes};
ghost use Rattle.std.specs.Int.{w64, to_le_bytes};
ghost use Rattle.doc_values.specs.Value.{IsStorable};
ghost use Rattle.attr_catalog.specs.Attribute.{fresh};

use attr_catalog::{AddFault, Catalog};
use doc_values::{Kind, Utf, Value, ValueRef};
use document_records::{
    Parts, Record, document, kind_stored, push_value, read_value, value_of_kind, value_under,
};
use std::alloc::{AllocError, Global};
use std::test::Fail;

// Whether a value is written as these bytes, and what they are read as is written alike.
fn is_stored_as(alloc: Global, value: &Value, bytes: &[u8]) -> Result<bool, AllocError>
    requires { IsStorable value.now }
{
    let kind = kind_stored(ValueRef::of(value));
    let mut written = Vec::new(alloc);
    push_value(&mut written, ValueRef::of(value))?;
    let back = read_value(alloc, kind, &written)?;
    let mut again = Vec::new(alloc);
    push_value(&mut again, ValueRef::of(&back))?;
    Ok(written.as_slice() == bytes && again.as_slice() == bytes && back.kind() == kind)
}

#[test]
fn values_have_their_bytes(rt: HostRuntime) -> Result<(), Fail> {
    let alloc = rt.alloc();
    let text = Value::Text(Utf::of(alloc, "é")?);
    let array = Value::Array(Utf::of(alloc, "[1]")?);
    assert!(rt; is_stored_as(alloc, &Value::Bool(true), &[1])?);
    assert!(rt; is_stored_as(alloc, &Value::Bool(false), &[0])?);
    assert!(rt; is_stored_as(alloc, &Value::Int(7), &[7, 0, 0, 0, 0, 0, 0, 0])?);
    assert!(rt;
        is_stored_as(
            alloc,
            &Value::Int(-2),
            &[254, 255, 255, 255, 255, 255, 255, 255]
        )?
    );
    assert!(rt; is_stored_as(alloc, &text, &[195, 169])?);
    assert!(rt; is_stored_as(alloc, &array, &[91, 49, 93])?);
    assert!(rt; is_stored_as(alloc, &Value::Object, &[])?);
    Ok(())
}

// A catalog in which whole numbers under "a" have the number 0.
fn catalog_of_a(alloc: Global) -> Result<Catalog, AddFault>
    ensures ok { IfOk result (λ catalog. catalog ≡ fresh (codes "a") Kind.Int ∷ []) }
{
    let mut catalog = Catalog::new(alloc);
    catalog.add("a", Kind::Int)?;
    Ok(catalog)
}

// The record of the document in which 7 stands under "a".
fn record_of_a(alloc: Global) -> Result<Record, AllocError>
    ensures ok { IfOk result (λ made. made ≡ record { id = 0; bytes = to_le_bytes w64 7 } ∷ []) }
{
    let mut parts = Parts::new(alloc);
    parts.push(0, ValueRef::Int(7))?;
    parts.record(alloc)
}

// Whether 7 is read of a record under "a", as a whole number, of whichever kind, and in the whole document.
fn has_seven(alloc: Global, catalog: &Catalog, stored: &Record) -> Result<bool, AllocError>
    requires catalog { catalog.now ≡ fresh (codes "a") Kind.Int ∷ [] }
    requires stored { stored.now ≡ record { id = 0; bytes = to_le_bytes w64 7 } ∷ [] }
{
    let kinds = catalog.kinds_of("a");
    let mut guess = 0;
    let number = value_of_kind(Kind::Int, kinds.int_id, stored, &mut guess);
    let any = value_under(&kinds, stored, &mut guess);
    let whole = document(alloc, catalog, stored)?;
    Ok(
        matches!(number, Some(ValueRef::Int(7)))
            && matches!(any, Some(ValueRef::Int(7)))
            && whole.len() == 1
            && matches!(whole.get("a"), Some(Value::Int(7))),
    )
}

#[test]
fn a_document_comes_back_from_its_record(rt: HostRuntime) -> Result<(), Fail> {
    let alloc = rt.alloc();
    let catalog = catalog_of_a(alloc)?;
    let stored = record_of_a(alloc)?;
    assert_eq!(rt; stored.len(), 1);
    assert!(rt; stored.find(0) == Some([7, 0, 0, 0, 0, 0, 0, 0].as_slice()));
    assert!(rt; stored.find(1).is_none());
    assert!(rt; has_seven(alloc, &catalog, &stored)?);
    Ok(())
}
