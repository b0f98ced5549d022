ghost use Rattle.std.specs.Prelude.{◌≡◌, IfOk};
ghost use Rattle.commit_core.specs.Plan.{syntax_line, type_line, json_line};
ghost use Rattle.exec_finish.specs.Answer.{ok_line};
ghost use Rattle.commit_core.specs.Replies.{full_line};

use doc_values::Bytes;
use std::alloc::{AllocError, Global};
use type_rules::Rule;

/// The line for a text that spells no statement.
pub(crate) fn syntax_line(alloc: Global) -> Result<Bytes, AllocError>
    ensures ok { IfOk result (λ line. line ≡ syntax_line) }
{
    Ok(Bytes::from_vec(format!(in alloc; "! syntax\n")?.into_bytes()))
}

/// The line for a statement that breaks a rule.
pub(crate) fn type_line(alloc: Global, rule: Rule) -> Result<Bytes, AllocError>
    ensures ok { IfOk result (λ line. line ≡ type_line rule) }
{
    let word = match rule {
        Rule::Name => "name",
        Rule::Group => "group",
        Rule::Kind => "kind",
        Rule::Wide => "wide",
    };
    Ok(Bytes::from_vec(format!(in alloc; "! type {word}\n")?.into_bytes()))
}

/// The line for a load that is refused for its document of this number; 0 where its text is no document and no array of them.
pub(crate) fn json_line(alloc: Global, number: u64) -> Result<Bytes, AllocError>
    ensures ok { IfOk result (λ line. line ≡ json_line number) }
{
    Ok(Bytes::from_vec(format!(in alloc; "! json {number}\n")?.into_bytes()))
}

/// The line for a load after which the store would hold too much.
pub(crate) fn full_line(alloc: Global) -> Result<Bytes, AllocError>
    ensures ok { IfOk result (λ line. line ≡ full_line) }
{
    Ok(Bytes::from_vec(format!(in alloc; "! full\n")?.into_bytes()))
}

/// The line that ends an answer.
pub(crate) fn ok_line(alloc: Global, rows: usize) -> Result<Bytes, AllocError>
    ensures ok { IfOk result (λ line. line ≡ ok_line rows) }
{
    Ok(Bytes::from_vec(format!(in alloc; "ok {rows}\n")?.into_bytes()))
}
