ghost use Rattle.std.specs.Prelude.{◌≡◌, Some, None, IfOk, IfErr};
ghost use Rattle.type_rules.specs.Written.{IsWritten, IsQuestion};
ghost use Rattle.type_rules.specs.Fault.{fault_of, question_fault};
ghost use Rattle.type_rules.specs.Plan.{IsTypedOf, IsPlanOf};
ghost use Rattle.type_rules.specs.Runnable.{CanBeRun};
ghost use Rattle.type_rules.specs.declared.rule.Rule.{Rule};

use crate::aliases::Aliases;
use crate::place::places;
use crate::planning::plan;
use crate::rules_kept::keep_rules;
use crate::type_fault::TypeFault;
use crate::typed_statement::Typed;
use sql_eval::SelectPlan;
use sql_tree::{Select, Statement};
use std::alloc::Global;

/// The plan of a statement, or the first rule that it breaks.
pub fn typed(alloc: Global, statement: &Statement) -> Result<Typed, TypeFault>
    requires written { IsWritten statement.now }
    ensures ok { IfOk result (λ plan. (fault_of statement.now ≡ None) × IsTypedOf statement.now plan) }
    ensures broken { IfErr result (λ fault. (rule : Rule) → fault ≡ TypeFault.Broken rule → fault_of statement.now ≡ Some rule) }
{
    match statement {
        Statement::Load { collection, json } => Ok(Typed::Load {
            collection: collection.copy()?,
            json: json.copy()?,
        }),
        Statement::Select(select) => Ok(Typed::Select(typed_select(alloc, select)?)),
        Statement::Update { .. } | Statement::Delete { .. } => unreachable!(),
    }
}

// The plan of a question, or the first rule that it breaks.
fn typed_select(alloc: Global, select: &Select) -> Result<SelectPlan, TypeFault>
    requires question { IsQuestion select.now }
    ensures ok { IfOk result (λ plan. (question_fault select.now ≡ None) × IsPlanOf select.now plan × CanBeRun plan) }
    ensures broken { IfErr result (λ fault. (rule : Rule) → fault ≡ TypeFault.Broken rule → question_fault select.now ≡ Some rule) }
{
    let aliases = Aliases::of(alloc, select.items.as_slice())?;
    let places = places(alloc, select, &aliases)?;
    keep_rules(select, places.as_slice())?;
    Ok(plan(alloc, select, &aliases)?)
}
