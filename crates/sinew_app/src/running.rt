ghost use Rattle.std.specs.Prelude.{◌≡◌, IfOk};
ghost use Rattle.commit_core.specs.Commits.{texts_of};
ghost use Rattle.sinew_app.specs.Run.{IsSerial, texts_at};

use crate::answering::answer;
use crate::ran::Ran;
use commit_core::Core;
use script_reader::Script;
use std::alloc::{AllocError, Global};

/// The caller whose commits are those of a serial run.
const SERIAL: u32 = 0;

/// The serial run of a script, with the store that its commits make.
pub fn run_lines(alloc: Global, script: &Script) -> Result<(Ran, Core), AllocError>
    ensures serial { IfOk result (λ done. IsSerial script.now done.0) }
    ensures stored { IfOk result (λ done. texts_of done.1.commits ≡ texts_at script.now done.0.order) }
{
    let lines = script.items();
    let mut ran = Ran::with_room(alloc, lines.len())?;
    let mut store = Core::new(alloc);
    for (position, line) in lines.iter().enumerate() {
        let reply = answer(alloc, SERIAL, line.text.text(), &mut store)?;
        ran.add(position as u32, reply)?;
    }
    Ok((ran, store))
}
