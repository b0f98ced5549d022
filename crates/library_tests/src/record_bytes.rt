ghost use Rattle.std.specs.Prelude.{◌≡◌, ◌<◌, ◌≤◌, [], length, IfOk};
ghost use Rattle.reservoir_record.specs.Spelling.{IsRecord, Spells};

use reservoir_record::{
    Field, FieldBytes, Steps, a_spelling_has_one_list, build, build_from_parts, check, count,
    field, find, put, take, walk,
};
use std::alloc::{AllocError, Global};
use std::marker::Brand;
use std::sync::ledger::{Blank, Ledger};
use std::test::Fail;

fn field_of(alloc: Global, id: u32, bytes: &[u8]) -> Result<Field, AllocError>
    ensures id { IfOk result (λ f. f.id ≡ id) }
    ensures bytes { IfOk result (λ f. f.bytes ≡ bytes.now) }
{
    let bytes = FieldBytes::from_vec(Vec::from_slice(alloc, bytes)?);
    Ok(Field { id, bytes })
}

fn hex(alloc: Global, bytes: &[u8]) -> Result<String, Fail> {
    let mut text = String::new(alloc);
    for byte in bytes {
        text.push_str(format!(in alloc; "{byte:02x}")?.as_str())?;
    }
    Ok(text)
}

fn find_with<'a, L: Ledger>(bytes: &'a [u8], id: u32, blank: Blank) -> Option<&'a [u8]>
    requires name { blank.name ≡ L.name }
    requires parts { blank.parts ≡ L.parts }
    requires some { blank.parts ≡ 1 }
    requires record_bytes { IsRecord bytes.now }
{
    let mut steps = Steps::<L>::new(blank);
    find(bytes, id, &mut steps)
}

fn found(bytes: &[u8], id: u32) -> Option<&[u8]>
    requires { IsRecord bytes.now }
{
    find_with::<Brand>(bytes, id, Blank::new(1))
}

fn put_first(bytes: &mut Vec<u8>, id: u32, value: &[u8]) -> Result<(), AllocError>
    requires spelled { Spells [] bytes.old.items }
    requires small { id < 65536 }
    requires fit { length value.now ≤ 16777216 }
{
    a_spelling_has_one_list();
    put(bytes, id, value)
}

// The record of field 1 without bytes and field 2 with the byte 01.
fn two_from_parts(alloc: Global) -> Result<Vec<u8>, AllocError> {
    build_from_parts(alloc, &[1, 2], &[0, 1], &[1])
}

// The value that is taken out, as text.
fn taken(alloc: Global, bytes: &mut Vec<u8>, id: u32) -> Result<String, Fail> {
    if !check(bytes) {
        return Ok(String::from_str(alloc, "no record")?);
    }
    match take(bytes, id)? {
        Some(value) => hex(alloc, &value),
        None => Ok(String::from_str(alloc, "none")?),
    }
}

// The fields of a record, each as `number=value;`.
fn shown(alloc: Global, bytes: &[u8]) -> Result<String, Fail>
    requires { IsRecord bytes.now }
{
    let mut text = String::new(alloc);
    for (id, value) in walk(bytes) {
        let value = hex(alloc, value)?;
        text.push_str(format!(in alloc; "{id}={value};")?.as_str())?;
    }
    Ok(text)
}

#[test]
fn builds_the_rows(rt: HostRuntime) -> Result<(), Fail> {
    let alloc = rt.alloc();
    let none: Vec<Field> = Vec::new(alloc);
    let bytes = build(alloc, none.as_slice())?;
    assert_eq!(rt; hex(alloc, &bytes)?.as_str(), "0000000000000000");
    assert_eq!(rt; shown(alloc, &bytes)?.as_str(), "");

    let one = [field_of(alloc, 3, &[7, 0, 0, 0, 0, 0, 0, 0])?];
    let bytes = build(alloc, &one)?;
    assert_eq!(rt;
        hex(alloc, &bytes)?.as_str(),
        "010000000300000000000000080000000700000000000000"
    );
    assert_eq!(rt; shown(alloc, &bytes)?.as_str(), "3=0700000000000000;");

    let mut bytes = build(alloc, none.as_slice())?;
    put_first(&mut bytes, 3, &[7, 0, 0, 0, 0, 0, 0, 0])?;
    assert_eq!(rt;
        hex(alloc, &bytes)?.as_str(),
        "010000000300000000000000080000000700000000000000"
    );
    assert_eq!(rt; taken(alloc, &mut bytes, 3)?.as_str(), "0700000000000000");
    assert_eq!(rt; hex(alloc, &bytes)?.as_str(), "0000000000000000");

    let two = [field_of(alloc, 1, &[])?, field_of(alloc, 2, &[1])?];
    let bytes = build(alloc, &two)?;
    assert_eq!(rt; bytes.len(), 25);
    assert_eq!(rt;
        hex(alloc, &bytes)?.as_str(),
        "02000000010000000200000000000000000000000100000001"
    );
    assert_eq!(rt; shown(alloc, &bytes)?.as_str(), "1=;2=01;");
    Ok(())
}

#[test]
fn takes_fields_out(rt: HostRuntime) -> Result<(), Fail> {
    let alloc = rt.alloc();
    let mut bytes = two_from_parts(alloc)?;
    let two = "02000000010000000200000000000000000000000100000001";
    let one = "0100000002000000000000000100000001";
    let rows: [(u32, &str, &str); 6] = [
        (0, "none", two),
        (3, "none", two),
        (1, "", one),
        (1, "none", one),
        (2, "01", "0000000000000000"),
        (2, "none", "0000000000000000"),
    ];
    for (id, want, left) in rows {
        assert_eq!(rt; taken(alloc, &mut bytes, id)?.as_str(), want);
        assert_eq!(rt; hex(alloc, &bytes)?.as_str(), left);
    }
    Ok(())
}

// Bytes, and whether they are a record.
const BYTES: [(&[u8], bool); 11] = [
    (b"\0\0\0\0\0\0\0\0", true),
    (b"\0\0\0\0\0\0\0", false),
    (b"\0\0\0\0\0\0\0\0\0", false),
    (
        b"\x01\0\0\0\x03\0\0\0\0\0\0\0\x08\0\0\0\x07\0\0\0\0\0\0\0",
        true,
    ),
    (
        b"\x01\0\0\0\x03\0\0\0\x01\0\0\0\x08\0\0\0\x07\0\0\0\0\0\0\0",
        false,
    ),
    (
        b"\x01\0\0\0\x03\0\0\0\0\0\0\0\x08\0\0\0\x07\0\0\0\0\0\0",
        false,
    ),
    (
        b"\x01\0\0\0\x03\0\0\0\0\0\0\0\x08\0\0\0\x07\0\0\0\0\0\0\0\0",
        false,
    ),
    (
        b"\x02\0\0\0\x01\0\0\0\x02\0\0\0\0\0\0\0\0\0\0\0\x01\0\0\0\x01",
        true,
    ),
    (
        b"\x02\0\0\0\x02\0\0\0\x01\0\0\0\0\0\0\0\0\0\0\0\x01\0\0\0\x01",
        false,
    ),
    (
        b"\x02\0\0\0\x01\0\0\0\x02\0\0\0\0\0\0\0\0\0\0\0\x01\0\0\0\x01\0",
        false,
    ),
    (
        b"\x02\0\0\0\x01\0\0\0\x02\0\0\0\0\0\0\0\0\0\0\0\x01\0\0\0",
        false,
    ),
];

#[test]
fn checks_and_reads(rt: HostRuntime) -> Result<(), Fail> {
    let alloc = rt.alloc();
    for (bytes, want) in BYTES {
        assert_eq!(rt; check(bytes), want, "{}", hex(alloc, bytes)?);
    }
    let bytes: &[u8] = b"\x02\0\0\0\x01\0\0\0\x02\0\0\0\0\0\0\0\0\0\0\0\x01\0\0\0\x01";
    assert!(rt; check(bytes));
    assert_eq!(rt; count(bytes), 2);
    assert!(rt; found(bytes, 0).is_none());
    assert!(rt; found(bytes, 1) == Some(b"".as_slice()));
    assert!(rt; found(bytes, 2) == Some(b"\x01".as_slice()));
    assert!(rt; found(bytes, 3).is_none());
    Ok(())
}

// 4,096 fields of one byte each, numbered from 0.
fn many(alloc: Global) -> Result<Vec<u8>, AllocError> {
    let mut bytes = Vec::new(alloc);
    bytes.extend_from_slice(&4096u32.to_le_bytes())?;
    for id in 0..4096u32 {
        bytes.extend_from_slice(&id.to_le_bytes())?;
    }
    for at in 0..4097u32 {
        bytes.extend_from_slice(&at.to_le_bytes())?;
    }
    for id in 0..4096u32 {
        bytes.push((id % 251) as u8)?;
    }
    Ok(bytes)
}

#[test]
fn finds_among_many(rt: HostRuntime) -> Result<(), Fail> {
    let bytes = many(rt.alloc())?;
    assert_eq!(rt; bytes.len(), 36_872);
    assert!(rt; check(&bytes));
    for id in 0..4096u32 {
        assert!(rt; found(&bytes, id) == Some([(id % 251) as u8].as_slice()));
    }
    assert!(rt; found(&bytes, 4096).is_none());
    assert_eq!(rt; count(&bytes), 4096);
    Ok(())
}
