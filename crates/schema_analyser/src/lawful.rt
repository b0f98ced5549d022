ghost use Rattle.std.specs.Prelude.{◌≡◌, ◌<◌, Some, IfSome, length, slice_get, option_map, ◌∷◌, []};
ghost use Rattle.attr_catalog.specs.Paths.{lawful_path, way_by};

use attr_catalog::{Catalog, Home, Path, Way};
use doc_values::AttrId;

/// The path that is lawful now for the name and the kind of an attribute.
pub(crate) fn path_to(catalog: &Catalog, id: AttrId) -> Path
    requires { id.0 < length catalog.now }
    ensures exact { IfSome (slice_get catalog.now id.0) (λ a. result ≡ lawful_path a.name (Some a.kind) catalog.now) }
{
    catalog.keeps_the_rules();
    let mut path = Path::new();
    path.push(way_to(catalog, id));
    path
}

// The way to an attribute.
fn way_to(catalog: &Catalog, id: AttrId) -> Way
    requires { id.0 < length catalog.now }
    ensures exact { IfSome (slice_get catalog.now id.0) (λ a. result ≡ way_by id a.home a.mark) }
{
    if catalog.dirty(id) {
        return Way::Either(id);
    }
    match catalog.home(id) {
        Home::Column => Way::Column(id),
        Home::Reservoir => Way::Extract(id),
    }
}
