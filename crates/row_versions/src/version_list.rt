ghost use Rattle.std.specs.Prelude.{◌≡◌, ◌<◌, ◌-◌, [], ◌∷◌, ◌++◌, length, IfSome, OnOk, OnErr, Some, slice_get, slice_set};

use crate::marks::Marks;
use crate::stored::Stored;
use crate::version::Version;
use std::alloc::{AllocError, Global};
use std::marker::Model;

/// Versions in the order in which they were written, each with the place of the one before it of its row.
#[derive(Drop)]
pub(crate) struct VersionList {
    stored: Vec<Stored>,
    marks: Vec<Marks>,
}

impl Model for VersionList {
    ghost use Rattle.std.specs.Prelude.{◌≡◌, length};
    ghost use Rattle.row_versions.specs.Inside.{Linked};
    ghost use Rattle.row_versions.specs.Stored.{all_shown, links_shown};

    ghost Value = { Linked };

    ghost view = { λ l. record { versions = all_shown l.stored.items l.marks.items; links = links_shown l.stored.items } };

    ghost invariant = { λ l. length l.marks.items ≡ length l.stored.items };
}

impl VersionList {
    ghost use Rattle.row_versions.specs.Inside.{HasOneBehind};
    ghost use Rattle.row_versions.specs.Stored.{no_place};

    pub(crate) fn new(alloc: Global) -> VersionList
        ensures exact { result ≡ record { versions = []; links = [] } }
    {
        VersionList {
            stored: Vec::new(alloc),
            marks: Vec::new(alloc),
        }
    }

    pub(crate) fn len(&self) -> usize
        ensures exact { result ≡ length self.now.versions }
        ensures many { length self.now.links ≡ length self.now.versions }
    {
        self.stored.len()
    }

    /// The version at a place.
    pub(crate) fn version(&self, place: usize) -> Version
        requires { place < length self.now.versions }
        ensures exact { slice_get self.now.versions place ≡ Some result }
    {
        let stored = self.stored[place];
        let marks = self.marks[place];
        Version {
            row: stored.row,
            begin: stored.begin,
            end: if marks.ended { Some(stored.end) } else { None },
            emptied: marks.emptied,
        }
    }

    /// The place of the version before of the row, if there is one.
    pub(crate) fn before(&self, place: usize) -> Option<u32>
        requires { place < length self.now.versions }
        ensures exact { slice_get self.now.links place ≡ Some result }
    {
        self.stored[place].link()
    }

    /// The last version, if there is one.
    pub(crate) fn last(&self) -> Option<Version>
        ensures exact { result ≡ slice_get self.now.versions (length self.now.versions - 1) }
    {
        let count = self.stored.len();
        if count == 0 {
            None
        } else {
            Some(self.version(count - 1))
        }
    }

    /// Puts another version at a place. The link stays.
    pub(crate) fn set(&mut self, place: usize, version: Version)
        requires { place < length self.old.versions }
        ensures exact { self.new ≡ record { versions = slice_set self.old.versions place version; links = self.old.links } }
    {
        let before = self.stored[place].before;
        let mut stored = Stored::of(version, None);
        stored.before = before;
        self.stored[place] = stored;
        self.marks[place] = Marks::of(version);
    }

    /// Puts a version at the end.
    pub(crate) fn push(&mut self, version: Version, before: Option<u32>) -> Result<(), AllocError>
        requires near { IfSome before (λ place. place < no_place) }
        ensures ok { OnOk result (self.new ≡ record { versions = self.old.versions ++ version ∷ []; links = self.old.links ++ before ∷ [] }) }
        ensures memory { OnErr result (self.new ≡ self.old) }
    {
        self.marks.reserve(1)?;
        self.stored.push(Stored::of(version, before))?;
        self.marks.push_reserved(Marks::of(version));
        Ok(())
    }

    /// Takes the last version away.
    pub(crate) fn pop(&mut self)
        requires { 0 < length self.old.versions }
        ensures exact { HasOneBehind self.old self.new }
    {
        let _stored = self.stored.take_last();
        let _marks = self.marks.take_last();
    }
}
