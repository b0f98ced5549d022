ghost use Rattle.std.specs.Prelude.{◌≡◌, true, false, [], ◌∷◌, map, None, IfOk, IfSome};
ghost use Rattle.std.specs.List.{flat_map, list_all};
ghost use Rattle.type_rules.specs.Places.{key_term, condition, places_of};
ghost use Rattle.type_rules.specs.Written.{IsQuestion, is_written};
ghost use Rattle.type_rules.specs.Names.{every_ref, is_bound};
ghost use Rattle.type_rules.specs.Fault.{question_fault};
ghost use Rattle.type_rules.specs.Uses.{reader_of, place_uses};
ghost use Rattle.type_rules.specs.Plan.{ConditionResolves, IsPlanOf};
ghost use Rattle.type_rules.specs.Steps.{Comes, AreResolved, AreParts, has_numerals, HaveNumerals, HasNumerals};

use crate::aliases::Aliases;
use crate::columns::Columns;
use crate::place::key_term;
use crate::plan_parts::PlanParts;
use crate::resolving::resolve;
use crate::rules_kept::table;
use doc_values::{ColRef, Kind, Utf};
use sql_eval::{Expr, FromPlan, KeyPlan, SelectPlan};
use sql_tree::{Item, Key, Select, Term};
use sqlite_items::Items;
use std::alloc::{AllocError, Global};

// The plan of a question that keeps the rules.
pub(crate) fn plan<'a>(
    alloc: Global,
    select: &'a Select,
    aliases: &Aliases<'a>,
) -> Result<SelectPlan, AllocError>
    requires question { IsQuestion select.now }
    requires aliases { aliases.now ≡ select.now.items }
    requires kept { question_fault select.now ≡ None }
    ensures ok { IfOk result (λ plan. IsPlanOf select.now plan) }
    ensures numerals { IfOk result HasNumerals }
{
    let mut columns = Columns::new(alloc);
    let parts = resolve_parts(alloc, &mut columns, select, aliases)?;
    let tables = list_of(alloc, table(select).collection.copy()?)?;
    let refs = list_of(alloc, columns.to_items(alloc)?)?;
    Ok(assembled(alloc, select, tables, refs, parts))
}

// A plan over one table, of its parts.
fn assembled(
    alloc: Global,
    select: &Select,
    tables: Items<Utf>,
    refs: Items<Items<ColRef>>,
    parts: PlanParts,
) -> SelectPlan
    ensures exact { result ≡ record { from = record { tables = tables; joins = [] }; refs = refs; star = select.now.star; test = parts.test; grouping = []; grouped = false; having = None; items = parts.items; distinct = select.now.distinct; keys = parts.keys; limit = select.now.limit } }
{
    SelectPlan {
        from: FromPlan {
            tables,
            joins: Items::new(alloc),
        },
        refs,
        star: select.star,
        test: parts.test,
        grouping: Items::new(alloc),
        grouped: false,
        having: None,
        items: parts.items,
        distinct: select.distinct,
        keys: parts.keys,
        limit: select.limit,
    }
}

// The expressions of a question.
fn resolve_parts<'a>(
    alloc: Global,
    columns: &mut Columns<'a>,
    select: &'a Select,
    aliases: &Aliases<'a>,
) -> Result<PlanParts, AllocError>
    requires aliases { aliases.now ≡ select.now.items }
    requires written { list_all (λ p. is_written p.term) (places_of select.now) ≡ true }
    ensures ok { IfOk result (λ parts. AreParts columns.old columns.new select.now parts.items parts.test (map (λ k. k.expr) parts.keys)) }
    ensures descending { IfOk result (λ parts. map (λ k. k.descending) parts.keys ≡ map (λ k. k.descending) select.now.keys) }
    ensures numerals { IfOk result (λ parts. HaveNumerals parts.items parts.test (map (λ k. k.expr) parts.keys)) }
{
    let items = resolve_items(alloc, columns, select.items.as_slice())?;
    let test = resolve_condition(alloc, columns, &select.test)?;
    let keys = resolve_keys(alloc, columns, aliases, select.keys.as_slice())?;
    Ok(PlanParts { items, test, keys })
}

// The expressions of the items.
fn resolve_items<'a>(
    alloc: Global,
    columns: &mut Columns<'a>,
    items: &'a [Item],
) -> Result<Items<Expr>, AllocError>
    requires { list_all (λ p. p) (map is_written (map (λ i. i.expr) items.now)) ≡ true }
    ensures ok { IfOk result (λ es. AreResolved columns.old columns.new (flat_map (λ p. p.uses None) (map reader_of (map (λ i. i.expr) items.now))) (λ _. None) (map (λ i. i.expr) items.now) es) }
    ensures numerals { IfOk result (λ es. list_all (λ b. b) (map has_numerals es) ≡ true) }
{
    let mut exprs = Items::new(alloc);
    for item in items {
        exprs.push(resolve(alloc, columns, &item.expr, None)?)?;
    }
    Ok(exprs)
}

// The expression of a condition, where there is one.
fn resolve_condition<'a>(
    alloc: Global,
    columns: &mut Columns<'a>,
    test: &'a Option<Term>,
) -> Result<Option<Expr>, AllocError>
    requires { list_all (λ p. is_written p.term) (condition test.now) ≡ true }
    ensures ok { IfOk result (λ e. Comes columns.old columns.new (flat_map place_uses (condition test.now)) (λ alias. list_all (λ p. every_ref (is_bound (alias ∷ [])) p.term) (condition test.now)) (λ scope refs. ConditionResolves scope refs test.now e)) }
    ensures numerals { IfOk result (λ e. IfSome e (λ e. has_numerals e ≡ true)) }
{
    match test {
        Some(term) => Ok(Some(resolve(alloc, columns, term, Some(Kind::Bool))?)),
        None => Ok(None),
    }
}

// The expressions of the keys, each with its direction.
fn resolve_keys<'a>(
    alloc: Global,
    columns: &mut Columns<'a>,
    aliases: &Aliases<'a>,
    keys: &'a [Key],
) -> Result<Items<KeyPlan>, AllocError>
    requires { list_all (λ p. p) (map is_written (map (key_term aliases.now) keys.now)) ≡ true }
    ensures ok { IfOk result (λ ks. AreResolved columns.old columns.new (flat_map (λ p. p.uses None) (map reader_of (map (key_term aliases.now) keys.now))) (λ _. None) (map (key_term aliases.now) keys.now) (map (λ k. k.expr) ks)) }
    ensures descending { IfOk result (λ ks. map (λ k. k.descending) ks ≡ map (λ k. k.descending) keys.now) }
    ensures numerals { IfOk result (λ ks. list_all (λ b. b) (map has_numerals (map (λ k. k.expr) ks)) ≡ true) }
{
    let mut plans = Items::new(alloc);
    for key in keys {
        let expr = resolve(alloc, columns, key_term(aliases, key), None)?;
        plans.push(KeyPlan {
            expr,
            descending: key.descending,
        })?;
    }
    Ok(plans)
}

// A list of one.
fn list_of<T: Drop>(alloc: Global, item: T) -> Result<Items<T>, AllocError>
    ensures ok { IfOk result (λ list. list ≡ item ∷ []) }
{
    let mut list = Items::new(alloc);
    list.push(item)?;
    Ok(list)
}
