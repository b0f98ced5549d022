ghost use Rattle.std.specs.Prelude.{◌≡◌, ◌<◌, ◌≤◌, ◌+◌, ◌++◌, Some, IfSome, length, slice_get};
ghost use Rattle.attr_catalog.specs.Paths.{lawful_path, ways_to, way_by, IsLawful};

use attr_catalog::{Catalog, Home, Kinds, Path, Way};
use doc_values::{AttrId, ColRef};

/// The path that is lawful for a column now. A name that no attribute has gives an empty path.
pub fn path(catalog: &Catalog, column: &ColRef) -> Path
    ensures exact { result ≡ lawful_path column.now.name column.now.want catalog.now }
    ensures lawful { IsLawful catalog.now result }
{
    let name = column.name.text();
    match column.want {
        Some(kind) => path_to(catalog, catalog.find(name, kind)),
        None => path_to_each(catalog, catalog.kinds_of(name)),
    }
}

// The path to one attribute, if there is one.
fn path_to(catalog: &Catalog, id: Option<AttrId>) -> Path
    ensures exact { result ≡ ways_to catalog.now id }
{
    let mut path = Path::new();
    put_way(catalog, id, &mut path);
    path
}

// The path to the attributes of each kind.
fn path_to_each(catalog: &Catalog, kinds: Kinds) -> Path
    ensures exact { result ≡ ways_to catalog.now kinds.bool_id ++ (ways_to catalog.now kinds.int_id ++ (ways_to catalog.now kinds.text_id ++ (ways_to catalog.now kinds.array_id ++ ways_to catalog.now kinds.object_id))) }
{
    let mut path = Path::new();
    put_way(catalog, kinds.bool_id, &mut path);
    put_way(catalog, kinds.int_id, &mut path);
    put_way(catalog, kinds.text_id, &mut path);
    put_way(catalog, kinds.array_id, &mut path);
    put_way(catalog, kinds.object_id, &mut path);
    path
}

// Puts the way to an attribute behind the others, if there is one.
fn put_way(catalog: &Catalog, id: Option<AttrId>, path: &mut Path)
    requires room { length path.old < 5 }
    ensures exact { path.new ≡ path.old ++ ways_to catalog.now id }
    ensures few { length path.new ≤ length path.old + 1 }
{
    let Some(id) = id else {
        return;
    };
    if id.0 < catalog.len() {
        path.push(way(catalog, id));
    }
}

// The way to an attribute.
fn way(catalog: &Catalog, id: AttrId) -> Way
    requires standing { id.0 < length catalog.now }
    ensures exact { IfSome (slice_get catalog.now id.0) (λ a. result ≡ way_by id a.home a.mark) }
{
    if catalog.dirty(id) {
        return Way::Either(id);
    }
    match catalog.home(id) {
        Home::Reservoir => Way::Extract(id),
        Home::Column => Way::Column(id),
    }
}
