ghost use Rattle.std.specs.Prelude.{◌≡◌, drop};
ghost use Rattle.std.specs.List.{All};

use attr_catalog::{Catalog, Home, Path, Way};
use doc_values::{AttrId, Kind};
use std::process::Abort;
use std::test::Fail;

// Name, kind, count, home, and up to which version a dirty attribute is clean.
type Row<'a> = (&'a str, Kind, u32, Home, Option<u32>);

fn stands(rt: &impl Abort, catalog: &Catalog, id: AttrId, want: Row) {
    assert!(rt; id.0 < catalog.len());
    let (name, kind, count, home, mark) = want;
    assert!(rt; catalog.name(id) == name);
    assert_eq!(rt; catalog.kind(id), kind);
    assert_eq!(rt; catalog.count(id), count);
    assert_eq!(rt; catalog.home(id), home);
    assert_eq!(rt; catalog.dirty(id), mark.is_some());
    if let Some(clean_to) = mark {
        assert_eq!(rt; catalog.clean_to(id), clean_to);
    }
    assert_eq!(rt; catalog.find(name, kind), Some(id));
    assert_eq!(rt; catalog.kinds_of(name).of(kind), Some(id));
}

fn raise(rt: &impl Abort, catalog: &mut Catalog, id: AttrId) {
    assert!(rt; id.0 < catalog.len());
    assert!(rt; catalog.count(id) < 2_097_152);
    catalog.raise(id);
}

fn lower(rt: &impl Abort, catalog: &mut Catalog, id: AttrId) {
    assert!(rt; id.0 < catalog.len());
    assert!(rt; catalog.count(id) > 0);
    catalog.lower(id);
}

fn set_home(rt: &impl Abort, catalog: &mut Catalog, id: AttrId, home: Home) {
    assert!(rt; id.0 < catalog.len());
    catalog.set_home(id, home);
}

fn mark_dirty(rt: &impl Abort, catalog: &mut Catalog, id: AttrId, from: u32) {
    assert!(rt; id.0 < catalog.len());
    catalog.mark_dirty(id, from);
}

fn advance(rt: &impl Abort, catalog: &mut Catalog, id: AttrId) {
    assert!(rt; id.0 < catalog.len());
    assert!(rt; catalog.dirty(id));
    assert!(rt; catalog.clean_to(id) < 2_097_152);
    catalog.advance(id);
}

fn clear_dirty(rt: &impl Abort, catalog: &mut Catalog, id: AttrId) {
    assert!(rt; id.0 < catalog.len());
    catalog.clear_dirty(id);
}

// Asserts that no document holds an attribute from a number on.
fn assert_unheld(rt: &impl Abort, catalog: &Catalog, len: u32)
    ensures unheld { All (λ a. a.count ≡ 0) (drop len catalog.now) }
{
    for place in len..catalog.len() {
        let count = catalog.count(AttrId(place));
        assert!(rt; count == 0);
    }
}

fn cut(rt: &impl Abort, catalog: &mut Catalog, len: u32) {
    assert!(rt; len <= catalog.len());
    assert_unheld(rt, catalog, len);
    catalog.cut(len);
}

// The numbers of the pairs that are added first.
const AB: AttrId = AttrId(0);

const TEXT: AttrId = AttrId(1);

const OTHER: AttrId = AttrId(2);

// A catalog of three pairs, two of them of one name.
fn three_pairs<R: Abort + AllocGlobal>(rt: &R) -> Result<Catalog, Fail> {
    let mut catalog = Catalog::new(rt.alloc());
    assert_eq!(rt; catalog.add("a.b", Kind::Int)?, AB);
    assert_eq!(rt; catalog.add("a.b", Kind::Text)?, TEXT);
    assert_eq!(rt; catalog.add("a", Kind::Int)?, OTHER);
    assert_eq!(rt; catalog.add("a.b", Kind::Text)?, TEXT);
    Ok(catalog)
}

fn row_of_ab<'a>(count: u32, home: Home, mark: Option<u32>) -> Row<'a> {
    ("a.b", Kind::Int, count, home, mark)
}

#[test]
fn walks_through_every_call(rt: HostRuntime) -> Result<(), Fail> {
    let mut catalog = three_pairs(&rt)?;
    raise(&rt, &mut catalog, AB);
    raise(&rt, &mut catalog, AB);
    lower(&rt, &mut catalog, AB);
    set_home(&rt, &mut catalog, AB, Home::Reservoir);
    stands(&rt, &catalog, AB, row_of_ab(1, Home::Reservoir, None));
    mark_dirty(&rt, &mut catalog, AB, 7);
    mark_dirty(&rt, &mut catalog, AB, 9);
    advance(&rt, &mut catalog, AB);
    stands(&rt, &catalog, AB, row_of_ab(1, Home::Reservoir, Some(8)));
    set_home(&rt, &mut catalog, AB, Home::Column);
    stands(&rt, &catalog, AB, row_of_ab(1, Home::Column, Some(0)));
    clear_dirty(&rt, &mut catalog, AB);
    stands(&rt, &catalog, AB, row_of_ab(1, Home::Column, None));
    let text = ("a.b", Kind::Text, 0, Home::Reservoir, None);
    stands(&rt, &catalog, TEXT, text);
    let other = ("a", Kind::Int, 0, Home::Reservoir, None);
    stands(&rt, &catalog, OTHER, other);
    cut(&rt, &mut catalog, 2);
    assert_eq!(rt; catalog.len(), 2);
    assert_eq!(rt; catalog.find("a", Kind::Int), None);
    Ok(())
}

#[test]
fn what_is_cut_away_can_be_added_again(rt: HostRuntime) -> Result<(), Fail> {
    let pairs = [
        ("a", Kind::Int),
        ("a", Kind::Text),
        ("b", Kind::Int),
        ("a", Kind::Bool),
        ("c.d", Kind::Object),
    ];
    let mut catalog = Catalog::new(rt.alloc());
    for (name, kind) in pairs {
        catalog.add(name, kind)?;
    }
    raise(&rt, &mut catalog, AttrId(1));
    raise(&rt, &mut catalog, AttrId(3));
    lower(&rt, &mut catalog, AttrId(3));
    cut(&rt, &mut catalog, 2);
    assert_eq!(rt; catalog.len(), 2);
    let found = [Some(AttrId(0)), Some(AttrId(1)), None, None, None];
    for ((name, kind), want) in pairs.into_iter().zip(found) {
        assert_eq!(rt; catalog.find(name, kind), want);
    }
    assert_eq!(rt; catalog.kinds_of("a").bool_id, None);
    let again = [
        ("c.d", Kind::Object, AttrId(2)),
        ("a", Kind::Bool, AttrId(3)),
        ("a", Kind::Text, AttrId(1)),
        ("b", Kind::Int, AttrId(4)),
    ];
    for (name, kind, want) in again {
        assert_eq!(rt; catalog.add(name, kind)?, want);
        assert_eq!(rt; catalog.find(name, kind), Some(want));
    }
    assert_eq!(rt; catalog.kinds_of("a").bool_id, Some(AttrId(3)));
    Ok(())
}

#[test]
fn a_path_holds_five_ways(rt: HostRuntime) {
    let ways = [
        Way::Column(AttrId(4)),
        Way::Extract(AttrId(3)),
        Way::Either(AttrId(2)),
        Way::Column(AttrId(1)),
        Way::Extract(AttrId(0)),
    ];
    let mut path = Path::new();
    for way in ways {
        assert!(rt; path.ways().len() < 5);
        path.push(way);
    }
    assert_eq!(rt; path.ways(), ways.as_slice());
}
