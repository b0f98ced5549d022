ghost use Rattle.std.specs.Prelude.{◌≡◌, ◌∷◌, [], IfOk, None, length, map, if◌then◌else◌};
ghost use Rattle.query_meaning.specs.Plans.{answer_of_plan, most_needed};
ghost use Rattle.query_meaning.specs.Runs.{CanRunOver};

use doc_values::Bytes;
use exec_finish::plain_answer;
use sql_eval::{SelectPlan, TableRows, Tuples};
use sqlite_items::Items;
use std::alloc::AllocError;

/// The answer of a plan over the rows of its tables: today of one table, whose rows are those of which its condition is
/// true.
pub fn answer(plan: &SelectPlan, tables: Items<TableRows>) -> Result<Bytes, AllocError>
    requires { CanRunOver plan.now tables }
    ensures ok { IfOk result (λ body. body ≡ answer_of_plan plan.now tables) }
{
    let rows = rows_of_one(tables);
    let alloc = rows.allocator();
    let tuples = Tuples::over(alloc, rows)?;
    plain_answer(alloc, plan, &tuples)
}

// The rows of the one table.
fn rows_of_one(mut tables: Items<TableRows>) -> TableRows
    requires { length tables ≡ 1 }
    ensures exact { tables ≡ result ∷ [] }
{
    let Some(rows) = tables.pop() else {
        unreachable!()
    };
    rows
}

/// How many rows the answer needs at most. None where each that the condition keeps may change it.
pub fn most_needed(plan: &SelectPlan) -> Option<u64>
    ensures exact { result ≡ most_needed plan.now.distinct (map (λ k. k.descending) plan.now.keys) plan.now.limit }
{
    match plan.keys.as_slice() {
        [] => limit_of_all(plan.distinct, plan.limit),
        _ => None,
    }
}

// The limit of rows that are not put in order: where they are told apart, alike ones take no place.
fn limit_of_all(distinct: bool, limit: Option<u64>) -> Option<u64>
    ensures exact { result ≡ (if distinct then None else limit) }
{
    if distinct { None } else { limit }
}
