ghost use Rattle.std.specs.Prelude.{◌≡◌, ◌++◌, IfOk};
ghost use Rattle.sinew_app.specs.Printing.{replies_text, commits_text, printing};

use crate::output::Output;
use crate::ran::Ran;
use commit_core::Reply;
use script_reader::Line;
use std::alloc::{AllocError, Global};

/// The printing of a run.
pub fn print_run(alloc: Global, lines: &[Line], run: &Ran) -> Result<Output, AllocError>
    ensures ok { IfOk result (λ out. out ≡ printing lines.now run.now) }
{
    let out = print_answers(Output::new(alloc), lines, run.answers())?;
    let out = print_commits(out, lines, run.order())?;
    out.count(run.order().len() as u64)
}

fn print_answers(mut out: Output, lines: &[Line], replies: &[Reply]) -> Result<Output, AllocError>
    ensures ok { IfOk result (λ all. all ≡ out ++ replies_text lines.now replies.now) }
{
    for (line, reply) in lines.iter().zip(replies) {
        out = out.answer(line, reply)?;
    }
    Ok(out)
}

fn print_commits(mut out: Output, lines: &[Line], order: &[u32]) -> Result<Output, AllocError>
    ensures ok { IfOk result (λ all. all ≡ out ++ commits_text lines.now 1 order.now) }
{
    for (index, position) in order.iter().enumerate() {
        out = out.commit(index as u64 + 1, lines.get(*position as usize))?;
    }
    Ok(out)
}
