ghost use Rattle.std.specs.Prelude.{◌≡◌, true, false, ◌&&◌, List, [], ◌∷◌, ◌++◌, OnOk, IfOk, IfErr};
ghost use Rattle.std.specs.Option.{option_copied};
ghost use Rattle.sql_tree.specs.declared.item.Item.{Item as ItemOf};
ghost use Rattle.type_rules.specs.Names.{are_different, item_aliases};
ghost use Rattle.type_rules.specs.Places.{term_named};
ghost use Rattle.type_rules.specs.Aliased.{HasTerms};
ghost use Rattle.type_rules.specs.declared.rule.Rule.{Rule as RuleOf};
ghost use Rattle.type_rules.specs.declared.rule.Rule.TheVariants.{Name as RuleName};

use crate::rule::Rule;
use crate::type_fault::TypeFault;
use indexmap::IndexMap;
use sql_tree::{Item, Term};
use std::alloc::{AllocError, Global};
use std::marker::Model;

// Items of which no two have one alias, seen as the list of them. One is found by a hash of its alias.
#[derive(Drop)]
pub(crate) struct Aliases<'a> {
    items: &'a [Item],
    terms: IndexMap<&'a str, &'a Term>,
}

impl<'a> Model for Aliases<'a> {
    ghost use Rattle.std.specs.Prelude.{List};
    ghost use Rattle.sql_tree.specs.declared.item.Item.{Item as ItemOf};
    ghost use Rattle.std.specs.Coded.{codes};
    ghost use Rattle.sql_tree.specs.contracts.term.Term as term;
    ghost use Rattle.type_rules.specs.Aliased.{HasTerms};

    ghost Value = { List ItemOf };

    ghost coded = { Prim.hlevel (codes, term.the_row.coded) };

    ghost view = { λ a. a.items.now };

    ghost invariant = { λ a. HasTerms a.terms a.items.now };
}

impl<'a> Aliases<'a> {
    // The aliases of the items, or the fault where two of them are alike.
    pub(crate) fn of(alloc: Global, items: &'a [Item]) -> Result<Aliases<'a>, TypeFault>
        ensures ok { IfOk result (λ aliases. aliases ≡ items.now) }
        ensures different { OnOk result (are_different (item_aliases items.now) ≡ true) }
        ensures broken { IfErr result (λ fault. (rule : RuleOf) → fault ≡ TypeFault.Broken rule → (rule ≡ RuleName) × (are_different (item_aliases items.now) ≡ false)) }
    {
        let mut terms = IndexMap::new(alloc);
        for item in items {
            if !note(&mut terms, item)? {
                return Err(TypeFault::Broken(Rule::Name));
            }
        }
        Ok(Aliases { items, terms })
    }

    // The term of the item that has the name as its alias.
    pub(crate) fn term_named(&self, name: &str) -> Option<&'a Term>
        ensures exact { option_copied result ≡ term_named self.now name.now }
    {
        match self.terms.get(name) {
            Some(term) => Some(*term),
            None => None,
        }
    }
}

// Notes the term of an item behind those noted so far. Whether none of them has its alias.
fn note<'a>(terms: &mut IndexMap<&'a str, &'a Term>, item: &'a Item) -> Result<bool, AllocError>
    ensures new { IfOk result (λ new. (before : List ItemOf) → HasTerms terms.old before → are_different (item_aliases (before ++ item.now ∷ [])) ≡ (are_different (item_aliases before) && new)) }
    ensures noted { IfOk result (λ new. (before : List ItemOf) → HasTerms terms.old before → new ≡ true → HasTerms terms.new (before ++ item.now ∷ [])) }
{
    match &item.alias {
        Some(alias) => Ok(terms.insert(alias.text(), &item.expr)?.is_none()),
        None => Ok(true),
    }
}
