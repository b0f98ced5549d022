ghost use Rattle.std.specs.Prelude.{◌≡◌, [], Ok, Err, IfOk, IfErr};
ghost use Rattle.std.specs.List.{slice_split};
ghost use Rattle.script_reader.specs.Pieces.{is_line_feed};
ghost use Rattle.script_reader.specs.Reader.{read_from, script_of};
ghost use Rattle.script_reader.specs.Told.{IsWithoutEnd};
ghost use Rattle.script_reader.specs.declared.script_fault.ScriptFault.{ScriptFault};

use crate::draft::Draft;
use crate::limits::MOST_BYTES;
use crate::names::read_names;
use crate::piece::read_piece;
use crate::script::Script;
use crate::script_fault::ScriptFault;
use crate::script_read_fault::ScriptReadFault;
use crate::why::Why;
use std::alloc::Global;

/// Reads the script that bytes are.
pub fn read_script(alloc: Global, bytes: &[u8]) -> Result<Script, ScriptReadFault>
    ensures ok { IfOk result (λ lines. script_of bytes.now ≡ Ok lines) }
    ensures bad { IfErr result (λ e. (f : ScriptFault) → e ≡ ScriptReadFault.Bad f → script_of bytes.now ≡ Err f) }
{
    if bytes.len() > MOST_BYTES {
        return Err(bad(0, Why::Size));
    }
    read_pieces(alloc, without_end(bytes))
}

/// Reads the script whose pieces stand between line feeds.
#[tactic(auto, using(crate::proofs::Progress::reading_starts))]
fn read_pieces(alloc: Global, body: &[u8]) -> Result<Script, ScriptReadFault>
    ensures ok { IfOk result (λ lines. read_from 1 [] (slice_split is_line_feed body.now) ≡ Ok lines) }
    ensures bad { IfErr result (λ e. (f : ScriptFault) → e ≡ ScriptReadFault.Bad f → read_from 1 [] (slice_split is_line_feed body.now) ≡ Err f) }
{
    let mut draft = Draft::new(alloc)?;
    let mut number = 0;
    for piece in body.split(|byte| *byte == b'\n') {
        number += 1;
        match read_piece(number, piece) {
            Ok(None) => {}
            Ok(Some(statement)) => match read_names(alloc, &draft, statement.rest)? {
                Some(named) => draft = draft.push(alloc, statement.session, named)?,
                None => return Err(bad(number, Why::After)),
            },
            Err(why) => return Err(bad(number, why)),
        }
    }
    Ok(Script::new(draft.into_lines()))
}

/// The bytes without a line feed that ends them.
fn without_end(bytes: &[u8]) -> &[u8]
    ensures exact { IsWithoutEnd bytes.now result.now }
{
    match bytes.split_last() {
        Some((b'\n', front)) => front,
        _ => bytes,
    }
}

/// The fault of a line.
fn bad(line: u32, why: Why) -> ScriptReadFault
    ensures exact { result ≡ ScriptReadFault.Bad (record { line = line; why = why }) }
{
    ScriptReadFault::Bad(ScriptFault { line, why })
}
