ghost use Rattle.std.specs.Prelude.{◌≡◌, length, IfOk, OnErr};
ghost use Rattle.commit_core.specs.Agreement.{sort_of};
ghost use Rattle.commit_core.specs.OneWrite.{IsWrite, told_over};
ghost use Rattle.commit_core.specs.Plan.{plan_of};
ghost use Rattle.commit_core.specs.Replies.{reply_at};

use commit_core::{Core, Prepared, PreparedSort, Reply, prepare};
use std::alloc::{AllocError, Global};

/// The reply to a text over all commits. An accepted write is one more commit, of the caller.
pub fn answer(alloc: Global, caller: u32, text: &str, store: &mut Core) -> Result<Reply, AllocError>
    ensures ok { IfOk result (λ reply. IsWrite caller text.now store.old.commits store.new.commits reply) }
    ensures memory { OnErr result (store.new ≡ store.old) }
{
    let prepared = prepare(alloc, text)?;
    match prepared.sort() {
        PreparedSort::Refused => store.refusal(&prepared),
        PreparedSort::Read => answer_query(store, &prepared),
        PreparedSort::Write => store.write(caller, &prepared),
    }
}

fn answer_query(store: &Core, prepared: &Prepared) -> Result<Reply, AllocError>
    requires { sort_of (plan_of prepared.now) ≡ PreparedSort.Read }
    ensures ok { IfOk result (λ reply. reply ≡ reply_at (length store.now.commits) (told_over store.now.commits prepared.now)) }
{
    let mut reading = store.begin(prepared)?;
    store.reread(&mut reading)?;
    reading.finish()
}
