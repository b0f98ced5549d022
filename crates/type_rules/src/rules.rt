ghost use Rattle.std.specs.Prelude.{◌≡◌, [], ◌∷◌, map};
ghost use Rattle.std.specs.List.{list_all};
ghost use Rattle.type_rules.specs.Places.{placed};
ghost use Rattle.type_rules.specs.Kinds.{fits};
ghost use Rattle.type_rules.specs.Widths.{term_width};
ghost use Rattle.type_rules.specs.Names.{every_ref, is_bound};

use crate::fitting::fits;
use crate::place::Place;
use crate::references::all_bound;
use crate::widths::width;

// Whether each reference is to the one table with this alias.
pub(crate) fn places_bound(places: &[Place], alias: &str) -> bool
    ensures exact { result ≡ list_all (λ p. every_ref (is_bound (alias.now ∷ [])) p.term) (map (λ p. placed p.term.now p.want) places.now) }
{
    for place in places {
        if !all_bound(place.term, alias) {
            return false;
        }
    }
    true
}

// Whether each term keeps the rule of kinds in its place.
pub(crate) fn places_fit(places: &[Place]) -> bool
    ensures exact { result ≡ list_all (λ p. fits p.term p.want) (map (λ p. placed p.term.now p.want) places.now) }
{
    for place in places {
        if !fits(place.term, place.want) {
            return false;
        }
    }
    true
}

// Whether each term over one table keeps the rule of widths.
pub(crate) fn places_narrow(places: &[Place]) -> bool
    ensures exact { result ≡ list_all (λ p. (term_width 1 p.term).narrow) (map (λ p. placed p.term.now p.want) places.now) }
{
    for place in places {
        if width(place.term).is_none() {
            return false;
        }
    }
    true
}
