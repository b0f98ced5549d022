ghost use Rattle.std.specs.Prelude.{◌≡◌, ◌<◌, All, length, map};
ghost use Rattle.layout_store.specs.Values.{number_of};

use crate::layout::Layout;
use attr_catalog::Way;
use doc_values::ValueRef;
use row_versions::VersionId;

/// Lends the value under one path of each of some versions, in their order: none where a version has none. Nothing is
/// allocated.
#[derive(Drop)]
pub struct ValueWalk<'a> {
    layout: &'a Layout,
    ways: &'a [Way],
    versions: &'a [VersionId],
    place: usize,
    ghost lead: { All (λ way. number_of way < length layout.now.attributes) ways.now },
    ghost standing: { All (λ v. v.0 < length layout.now.history.versions) versions.now },
}

impl<'a> ValueWalk<'a> {
    ghost use Rattle.layout_store.specs.Walked.{left_of, value_along};

    pub(crate) fn new(layout: &'a Layout, ways: &'a [Way], versions: &'a [VersionId]) -> Self
        requires lead { All (λ way. number_of way < length layout.now.attributes) ways.now }
        requires standing { All (λ v. v.0 < length layout.now.history.versions) versions.now }
        ensures exact { left_of result ≡ map (value_along layout.entry.now ways.entry.now) versions.entry.now }
    {
        ValueWalk {
            layout,
            ways,
            versions,
            place: 0,
        }
    }
}

impl<'a> Iterator for ValueWalk<'a> {
    ghost use Rattle.std.specs.Iterator.{YieldsFirstBy, item_count};
    ghost use Rattle.layout_store.specs.Walked.{left_of, shown};

    type Item = Option<ValueRef<'a>>;

    ghost next_gives = { YieldsFirstBy shown left_of };

    ghost remaining = { item_count left_of };

    fn next(&mut self) -> Option<Option<ValueRef<'a>>> {
        let place = self.place;
        if place >= self.versions.len() {
            return None;
        }
        let version = self.versions[place];
        self.place = place + 1;
        Some(self.layout.along(version, self.ways))
    }
}
