ghost use Rattle.std.specs.Prelude.{◌≡◌, ◌++◌, OnOk, [], map, codes, option_copied, unwrap_or};
ghost use Rattle.json.specs.Print.{quoted};
ghost use Rattle.exec_finish.specs.Answer.{separated, member_text, document_text, line};

use crate::lent_text::append_lent;
use doc_values::{Doc, Value};
use json::Writer;
use sql_eval::ValueRef;
use std::alloc::AllocError;
use std::mem;

/// Appends the line of a document; an empty one where there is none.
pub(crate) fn append_document(
    doc: Option<&Doc>,
    scratch: &mut Vec<u8>,
    text: &mut Vec<u8>,
) -> Result<(), AllocError>
    ensures ok { OnOk result (text.new.items ≡ text.old.items ++ line (document_text (unwrap_or (option_copied doc.entry) []))) }
{
    text.push(b'{')?;
    if let Some(doc) = doc {
        append_members(doc, scratch, text)?;
    }
    text.extend_from_slice(b"}\n")
}

// The fields with a comma between any two.
fn append_members(doc: &Doc, scratch: &mut Vec<u8>, text: &mut Vec<u8>) -> Result<(), AllocError>
    ensures ok { OnOk result (text.new.items ≡ text.old.items ++ separated (map member_text doc.now)) }
{
    if doc.len() == 0 {
        return Ok(());
    }
    append_member(doc.field(0), scratch, text)?;
    for place in 1..doc.len() {
        text.push(b',')?;
        append_member(doc.field(place), scratch, text)?;
    }
    Ok(())
}

fn append_member(
    field: (&str, &Value),
    scratch: &mut Vec<u8>,
    text: &mut Vec<u8>,
) -> Result<(), AllocError>
    ensures ok { OnOk result (text.new.items ≡ text.old.items ++ member_text (field.entry.0.now, field.entry.1.now)) }
{
    append_name(field.0, scratch, text)?;
    append_lent(Some(ValueRef::of(field.1)), scratch, text)
}

// The name is made in a scratch buffer that is empty before: a writer fills room ahead of what it writes, the more the
// longer the text is that it goes on from.
fn append_name(name: &str, scratch: &mut Vec<u8>, text: &mut Vec<u8>) -> Result<(), AllocError>
    ensures ok { OnOk result (text.new.items ≡ text.old.items ++ (quoted name.now ++ codes ":")) }
{
    scratch.clear();
    spell_name(name, scratch)?;
    text.extend_from_slice(scratch.as_slice())
}

// The name in quotes and with its colon, by a writer that goes on where the bytes end.
fn spell_name(name: &str, out: &mut Vec<u8>) -> Result<(), AllocError>
    ensures ok { OnOk result (out.new.items ≡ out.old.items ++ (quoted name.now ++ codes ":")) }
{
    let empty = Vec::new(*out.allocator());
    let mut writer = Writer::new(mem::replace(out, empty));
    let done = writer.key(name);
    *out = writer.into_inner();
    done
}
