use doc_values::{Argv, Bytes, Calls, ColRef, Doc, Kind, Utf, Value, spell};
use std::alloc::Global;
use std::test::Fail;

// The fields in their order, each as `name=value;`.
fn shown(alloc: Global, doc: &Doc) -> Result<String, Fail> {
    let mut out = Vec::new(alloc);
    for place in 0..doc.len() {
        let (name, value) = doc.field(place);
        out.extend_from_slice(name.as_bytes())?;
        out.push(b'=')?;
        spell(Some(value), &mut out)?;
        out.push(b';')?;
    }
    Ok(String::from_utf8(out)?)
}

#[test]
fn keeps_fields_by_name(rt: HostRuntime) -> Result<(), Fail> {
    let alloc = rt.alloc();
    let mut doc = Doc::new(alloc);
    let rows = [
        ("b", 1, "b=1;"),
        ("é", 2, "b=1;é=2;"),
        ("a.b", 3, "a.b=3;b=1;é=2;"),
        ("b", 4, "a.b=3;b=4;é=2;"),
        ("a", 5, "a=5;a.b=3;b=4;é=2;"),
        ("", 6, "=6;a=5;a.b=3;b=4;é=2;"),
        ("é", 7, "=6;a=5;a.b=3;b=4;é=7;"),
    ];
    for (name, number, want) in rows {
        doc.set(Utf::of(alloc, name)?, Value::Int(number))?;
        assert_eq!(rt; shown(alloc, &doc)?.as_str(), want);
    }
    assert!(rt; doc.get("a").is_some());
    assert!(rt; doc.get("a.").is_none());
    let copied = doc.copy()?;
    let rows = [
        ("a.", false, "=6;a=5;a.b=3;b=4;é=7;"),
        ("é", true, "=6;a=5;a.b=3;b=4;"),
        ("", true, "a=5;a.b=3;b=4;"),
        ("a.b", true, "a=5;b=4;"),
        ("a.b", false, "a=5;b=4;"),
    ];
    for (name, there, want) in rows {
        assert_eq!(rt; doc.remove(name), there);
        assert_eq!(rt; shown(alloc, &doc)?.as_str(), want);
    }
    assert_eq!(rt; shown(alloc, &copied)?.as_str(), "=6;a=5;a.b=3;b=4;é=7;");
    Ok(())
}

#[test]
fn holds_lists_and_copies(rt: HostRuntime) -> Result<(), Fail> {
    let alloc = rt.alloc();
    let bytes = Bytes::from_vec(Vec::from_slice(alloc, b"ab")?);
    assert_eq!(rt; bytes.items(), b"ab".as_slice());
    let calls = Calls::from_vec(Vec::from_slice(alloc, &[3u64, 1])?);
    assert_eq!(rt; calls.items(), [3u64, 1].as_slice());
    let mut words = Vec::new(alloc);
    words.push(Utf::of(alloc, "--demo")?)?;
    let argv = Argv::from_vec(words);
    for word in argv.items() {
        assert_eq!(rt; word.text(), "--demo");
    }
    let array = Value::Array(Utf::of(alloc, "[]")?).copy()?;
    assert_eq!(rt; array.kind(), Kind::Array);
    Ok(())
}

#[test]
fn weighs_values(rt: HostRuntime) -> Result<(), Fail> {
    let alloc = rt.alloc();
    let mut doc = Doc::new(alloc);
    doc.set(Utf::of(alloc, "flag")?, Value::Bool(false))?;
    assert_eq!(rt; doc.weight(), 1);
    doc.set(Utf::of(alloc, "number")?, Value::Int(7))?;
    doc.set(Utf::of(alloc, "empty")?, Value::Object)?;
    assert_eq!(rt; doc.weight(), 9);
    for text in ["é", "[1]"] {
        doc.set(Utf::of(alloc, text)?, Value::Text(Utf::of(alloc, text)?))?;
    }
    assert_eq!(rt; doc.weight(), 14);
    let column = ColRef {
        name: Utf::of(alloc, "flag")?,
        want: Some(Kind::Bool),
    };
    let column = column.copy()?;
    assert!(rt; doc.get(column.name.text()).is_some());
    Ok(())
}
