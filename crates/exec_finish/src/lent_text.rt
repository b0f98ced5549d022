ghost use Rattle.std.specs.Prelude.{◌≡◌, ◌++◌, OnOk, true, option_map};
ghost use Rattle.std.specs.Fmt.{signed_decimal};
ghost use Rattle.std.specs.List.{list_all};
ghost use Rattle.json.specs.Print.{quoted};
ghost use Rattle.doc_values.specs.Value.{printed};
ghost use Rattle.row_columns.specs.Lent.{owned};
ghost use Rattle.exec_finish.specs.Escapes.{stands_for_itself};

use itoa::Buffer;
use json::Writer;
use sql_eval::ValueRef;
use std::alloc::AllocError;
use std::mem;

/// Appends the text of a value that is lent as it stands in an answer; `null` for none.
pub(crate) fn append_lent(
    value: Option<ValueRef>,
    scratch: &mut Vec<u8>,
    text: &mut Vec<u8>,
) -> Result<(), AllocError>
    ensures ok { OnOk result (text.new.items ≡ text.old.items ++ printed (option_map owned value.entry)) }
{
    match value {
        None => text.extend_from_slice(b"null"),
        Some(ValueRef::Bool(true)) => text.extend_from_slice(b"true"),
        Some(ValueRef::Bool(false)) => text.extend_from_slice(b"false"),
        Some(ValueRef::Int(number)) => append_number(number, text),
        Some(ValueRef::Text(string)) => append_text(string, scratch, text),
        Some(ValueRef::Array(array)) => text.extend_from_slice(array.as_bytes()),
        Some(ValueRef::Object) => text.extend_from_slice(b"{}"),
    }
}

// Only a computed number needs more than 64 bits.
fn append_number(number: i128, text: &mut Vec<u8>) -> Result<(), AllocError>
    ensures ok { OnOk result (text.new.items ≡ text.old.items ++ signed_decimal number) }
{
    match i64::try_from(number) {
        Ok(number) => append_short(number, text),
        Err(_) => text.extend_from_slice(Buffer::new().format(number).as_bytes()),
    }
}

fn append_short(number: i64, text: &mut Vec<u8>) -> Result<(), AllocError>
    ensures ok { OnOk result (text.new.items ≡ text.old.items ++ signed_decimal number) }
{
    text.extend_from_slice(Buffer::new().format(number).as_bytes())
}

// Most texts hold no byte that is escaped, and are copied as they are.
fn append_text(string: &str, scratch: &mut Vec<u8>, text: &mut Vec<u8>) -> Result<(), AllocError>
    ensures ok { OnOk result (text.new.items ≡ text.old.items ++ quoted string.now) }
{
    if stand_for_themselves(string.as_bytes()) {
        append_plain(string, text)
    } else {
        append_escaped(string, scratch, text)
    }
}

fn append_plain(string: &str, text: &mut Vec<u8>) -> Result<(), AllocError>
    requires { list_all stands_for_itself string.now ≡ true }
    ensures ok { OnOk result (text.new.items ≡ text.old.items ++ quoted string.now) }
{
    text.push(b'"')?;
    text.extend_from_slice(string.as_bytes())?;
    text.push(b'"')?;
    Ok(())
}

// The text is made in a scratch buffer that is empty before: a writer fills room ahead of what it writes, the more the
// longer the text is that it goes on from.
fn append_escaped(string: &str, scratch: &mut Vec<u8>, text: &mut Vec<u8>) -> Result<(), AllocError>
    ensures ok { OnOk result (text.new.items ≡ text.old.items ++ quoted string.now) }
{
    scratch.clear();
    spell_text(string, scratch)?;
    text.extend_from_slice(scratch.as_slice())
}

fn spell_text(string: &str, out: &mut Vec<u8>) -> Result<(), AllocError>
    ensures ok { OnOk result (out.new.items ≡ out.old.items ++ quoted string.now) }
{
    let empty = Vec::new(*out.allocator());
    let mut writer = Writer::new(mem::replace(out, empty));
    let done = writer.string(string);
    *out = writer.into_inner();
    done
}

// Whether no byte is escaped. Each is looked at, so that several are at once.
fn stand_for_themselves(bytes: &[u8]) -> bool
    ensures exact { result ≡ list_all stands_for_itself bytes.now }
{
    let mut plain = true;
    for byte in bytes {
        plain = plain & stands_for_itself(*byte);
    }
    plain
}

fn stands_for_itself(byte: u8) -> bool
    ensures exact { result ≡ stands_for_itself byte }
{
    byte >= 32 && byte != b'"' && byte != b'\\'
}
