ghost use Rattle.std.specs.Prelude.{◌≡◌, map, IfOk};
ghost use Rattle.type_rules.specs.Places.{key_term, placed, places_of};

use crate::aliases::Aliases;
use doc_values::Kind;
use sql_tree::{Key, Select, Term};
use std::alloc::{AllocError, Global};

// A term, and the kind that its place wants, or none.
#[derive(Drop)]
pub(crate) struct Place<'a> {
    pub(crate) term: &'a Term,
    pub(crate) want: Option<Kind>,
}

// All terms of a question, in the order of the text.
pub(crate) fn places<'a>(
    alloc: Global,
    select: &'a Select,
    aliases: &Aliases<'a>,
) -> Result<Vec<Place<'a>>, AllocError>
    requires aliases { aliases.now ≡ select.now.items }
    ensures ok { IfOk result (λ places. map (λ p. placed p.term.now p.want) places.items ≡ places_of select.now) }
{
    let mut places = Vec::new(alloc);
    for item in select.items.as_slice() {
        places.push(Place {
            term: &item.expr,
            want: None,
        })?;
    }
    if let Some(test) = &select.test {
        places.push(Place {
            term: test,
            want: Some(Kind::Bool),
        })?;
    }
    for key in select.keys.as_slice() {
        places.push(Place {
            term: key_term(aliases, key),
            want: None,
        })?;
    }
    Ok(places)
}

// The term of a key: that of the item for which it stands, or its own.
pub(crate) fn key_term<'a>(aliases: &Aliases<'a>, key: &'a Key) -> &'a Term
    ensures exact { result.now ≡ key_term aliases.now key.now }
{
    let Term::Column(column) = &key.expr else {
        return &key.expr;
    };
    if column.qualifier.is_some() {
        return &key.expr;
    }
    match aliases.term_named(column.name.text()) {
        Some(term) => term,
        None => &key.expr,
    }
}
