ghost use Rattle.std.specs.Prelude.{◌≡◌};
ghost use Rattle.commit_core.specs.Agreement.{sort_of};
ghost use Rattle.commit_core.specs.Plan.{plan_of};

use commit_core::{Core, Prepared, PreparedSort, Reply, prepare};
use std::alloc::{AllocError, Global};
use std::test::Fail;

// The reply to a text at the newest number.
fn reply(alloc: Global, core: &mut Core, text: &str) -> Result<Reply, AllocError> {
    let prepared = prepare(alloc, text)?;
    answer(core, &prepared)
}

fn answer(core: &mut Core, prepared: &Prepared) -> Result<Reply, AllocError> {
    match prepared.sort() {
        PreparedSort::Refused => core.refusal(prepared),
        PreparedSort::Write => core.write(7, prepared),
        PreparedSort::Read => read(core, prepared),
    }
}

fn read(core: &Core, prepared: &Prepared) -> Result<Reply, AllocError>
    requires { sort_of (plan_of prepared.now) ≡ PreparedSort.Read }
{
    let mut reading = core.begin(prepared)?;
    core.reread(&mut reading)?;
    reading.finish()
}

fn is_reply(reply: &Reply, at: u64, accepted: bool, lines: &str) -> bool {
    reply.at == at && reply.accepted == accepted && reply.body.items() == lines.as_bytes()
}

// The reply to a question that was read before one more commit.
fn reply_late(alloc: Global, core: &mut Core, text: &str) -> Result<Reply, AllocError> {
    let prepared = prepare(alloc, text)?;
    answer_late(alloc, core, &prepared)
}

fn answer_late(alloc: Global, core: &mut Core, prepared: &Prepared) -> Result<Reply, AllocError> {
    match prepared.sort() {
        PreparedSort::Read => read_early(alloc, core, prepared),
        _ => answer(core, prepared),
    }
}

fn read_early(alloc: Global, core: &mut Core, prepared: &Prepared) -> Result<Reply, AllocError>
    requires { sort_of (plan_of prepared.now) ≡ PreparedSort.Read }
{
    let mut reading = core.begin(prepared)?;
    core.reread(&mut reading)?;
    reply(alloc, core, "LOAD t {\"a\":2}")?;
    reading.finish()
}

#[test]
fn a_reading_keeps_its_number(rt: HostRuntime) -> Result<(), Fail> {
    let alloc = rt.alloc();
    let mut core = Core::new(alloc);
    reply(alloc, &mut core, "LOAD t {\"a\":1}")?;
    let answer = reply_late(alloc, &mut core, "SELECT a FROM t")?;
    assert!(rt; is_reply(&answer, 1, false, "[1]\nok 1\n"));
    assert_eq!(rt; core.now(), 2);
    Ok(())
}
