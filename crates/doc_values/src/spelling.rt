ghost use Rattle.std.specs.Prelude.{◌≡◌, ◌++◌, [], OnOk, OnErr, option_copied};
ghost use Rattle.std.specs.Fmt.{signed_decimal};
ghost use Rattle.json.specs.Print.{quoted};
ghost use Rattle.doc_values.specs.Value.{printed};

use crate::value::Value;
use json::Writer;
use std::alloc::AllocError;
use std::mem;

/// Appends the text of a value as it stands in an answer; `null` for none.
pub fn spell(value: Option<&Value>, out: &mut Vec<u8>) -> Result<(), AllocError>
    ensures ok { OnOk result (out.new.items ≡ out.old.items ++ printed (option_copied value.entry)) }
    ensures memory { OnErr result (out.new.items ≡ out.old.items) }
{
    match value {
        None => out.extend_from_slice(b"null"),
        Some(Value::Bool(true)) => out.extend_from_slice(b"true"),
        Some(Value::Bool(false)) => out.extend_from_slice(b"false"),
        Some(Value::Int(number)) => spell_number(*number, out),
        Some(Value::Text(text)) => spell_text(text.text(), out),
        Some(Value::Array(text)) => out.extend_from_slice(text.text().as_bytes()),
        Some(Value::Object) => out.extend_from_slice(b"{}"),
    }
}

// Only a computed number can be wider than the writer's, and takes a text of its own.
fn spell_number(number: i128, out: &mut Vec<u8>) -> Result<(), AllocError>
    ensures ok { OnOk result (out.new.items ≡ out.old.items ++ signed_decimal number) }
    ensures memory { OnErr result (out.new.items ≡ out.old.items) }
{
    match i64::try_from(number) {
        Ok(number) => spell_short(number, out),
        Err(_) => {
            let digits = number.to_string(*out.allocator())?;
            out.extend_from_slice(digits.as_bytes())
        }
    }
}

fn spell_short(number: i64, out: &mut Vec<u8>) -> Result<(), AllocError>
    ensures ok { OnOk result (out.new.items ≡ out.old.items ++ signed_decimal number) }
    ensures memory { OnErr result (out.new.items ≡ out.old.items) }
{
    let mut writer = writer_over(out);
    let done = writer.i64(number);
    *out = writer.into_inner();
    done
}

fn spell_text(text: &str, out: &mut Vec<u8>) -> Result<(), AllocError>
    ensures ok { OnOk result (out.new.items ≡ out.old.items ++ quoted text.now) }
    ensures memory { OnErr result (out.new.items ≡ out.old.items) }
{
    let mut writer = writer_over(out);
    let done = writer.string(text);
    *out = writer.into_inner();
    done
}

// A writer that goes on where the bytes end, and holds them until they are put back.
fn writer_over(out: &mut Vec<u8>) -> Writer
    ensures before { result.before ≡ out.old.items }
    ensures tokens { result.tokens ≡ [] }
{
    let empty = Vec::new(*out.allocator());
    Writer::new(mem::replace(out, empty))
}
