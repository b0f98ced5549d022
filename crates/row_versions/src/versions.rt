ghost use Rattle.std.specs.Prelude.{◌≡◌, ◌<◌, ◌≤◌, max, [], ◌∷◌, ◌++◌, length, option_map, option_and_then, slice_get, IfSome, IfOk, OnOk, OnErr, ◌↔◌};
ghost use Rattle.row_versions.specs.Changes.{AreChanges};
ghost use Rattle.row_versions.specs.Order.{HasEndedBy, IsLatest, KeepsOrder};

use crate::append_fault::AppendFault;
use crate::change::Change;
use crate::changing::changes_of;
use crate::ends::{ended_by, insert_place, reopen};
use crate::lasts::{cut, last_of, note_last};
use crate::version::Version;
use crate::version_id::VersionId;
use crate::version_list::VersionList;
use crate::walking::seen_from;
use std::alloc::{AllocError, Global};
use std::marker::Model;

/// How many versions a collection may have.
pub const MOST_VERSIONS: usize = 2_097_152;

/// The versions of the rows of a collection.
#[derive(Drop)]
pub struct Versions {
    list: VersionList,
    // The place of the last version of each row.
    lasts: Vec<u32>,
    // The places of the versions that ended, by their ends.
    ended: Vec<u32>,
    horizon: u64,
}

impl Model for Versions {
    ghost use Rattle.std.specs.Prelude.{vec_capacity};
    ghost use Rattle.row_versions.specs.History.{History};
    ghost use Rattle.row_versions.specs.Inside.{BelongTogether};

    ghost Value = { History };

    ghost view = { λ v. record { versions = v.list.versions; horizon = v.horizon } };

    ghost invariant = { λ v. BelongTogether v.list.versions v.list.links v.lasts.items v.ended.items v.horizon (vec_capacity v.ended) };
}

impl Versions {
    ghost use Rattle.row_versions.specs.History.{History, most_versions, version_at, rows_of, visible, newest, begun, ended, given_up, changed, rolled_back};

    pub fn new(alloc: Global) -> Versions
        ensures exact { result ≡ record { versions = []; horizon = 0 } }
    {
        Versions {
            list: VersionList::new(alloc),
            lasts: Vec::new(alloc),
            ended: Vec::new(alloc),
            horizon: 0,
        }
    }

    /// How many rows there are. Rows have the numbers below that.
    pub fn rows(&self) -> u32
        ensures exact { result ≡ rows_of self.now.versions }
    {
        self.lasts.len() as u32
    }

    /// How many versions there are. Versions have the numbers below that.
    pub fn len(&self) -> u32
        ensures exact { result ≡ length self.now.versions }
    {
        self.list.len() as u32
    }

    /// The number of commits below which what rows showed may have been given up.
    pub fn horizon(&self) -> u64
        ensures exact { result ≡ self.now.horizon }
    {
        self.horizon
    }

    /// Law: versions keep their order.
    pub fn keeps_order(&self)
        ensures law { KeepsOrder self.now }
    {
        let _len = self.list.len();
    }

    /// Appends a version of a row, which is seen from a commit on. The row is a new one, or one whose versions have ended.
    pub fn append(&mut self, row: u32, commit: u64) -> Result<VersionId, AppendFault>
        requires row { row ≤ rows_of self.old.versions }
        requires latest { IsLatest commit self.old.versions }
        requires ended { newest row self.old.versions ≡ None }
        ensures ok { OnOk result (self.new ≡ record { versions = self.old.versions ++ begun row commit ∷ []; horizon = self.old.horizon }) }
        ensures number { IfOk result (λ id. id ≡ version_at (length self.old.versions)) }
        ensures full { (result ≡ Err AppendFault.Full) ↔ (length self.old.versions ≡ most_versions) }
        ensures kept { OnErr result (self.new ≡ self.old) }
    {
        let place = self.list.len();
        if place == MOST_VERSIONS {
            return Err(AppendFault::Full);
        }
        self.ended.reserve(place + 1 - self.ended.len())?;
        self.lasts.reserve(1)?;
        let before = last_of(&self.lasts, row as usize);
        self.list.push(Version::begun(row, commit), before)?;
        note_last(&mut self.lasts, row as usize, place as u32);
        Ok(VersionId(place as u32))
    }

    /// Ends a version at a commit: it is seen below it and no more from it on.
    pub fn end_at(&mut self, version: VersionId, commit: u64)
        requires within { version.0 < length self.old.versions }
        requires endless { IfSome (slice_get self.old.versions version.0) (λ v. (v.end ≡ None) × (v.begin ≤ commit)) }
        ensures exact { self.new ≡ record { versions = changed (ended commit) version.0 self.old.versions; horizon = self.old.horizon } }
    {
        let place = version.0 as usize;
        let at = ended_by(&self.list, &self.ended, commit);
        let ending = self.list.version(place).ending(commit);
        self.list.set(place, ending);
        insert_place(&mut self.ended, at, version.0);
    }

    /// The version that a row shows after `n` commits. None where it shows none.
    pub fn visible(&self, row: u32, n: u64) -> Option<VersionId>
        requires { row < rows_of self.now.versions }
        ensures exact { result ≡ visible row n self.now.versions }
    {
        seen_from(&self.list, self.lasts[row as usize], n)
    }

    /// The version of a row that has no end. None where each has one.
    pub fn newest(&self, row: u32) -> Option<VersionId>
        requires { row < rows_of self.now.versions }
        ensures exact { result ≡ newest row self.now.versions }
    {
        let last = self.lasts[row as usize];
        match self.list.version(last as usize).end {
            None => Some(VersionId(last)),
            Some(_) => None,
        }
    }

    /// The row of a version.
    pub fn row_of(&self, version: VersionId) -> u32
        requires { version.0 < length self.now.versions }
        ensures exact { option_map (λ v. v.row) (slice_get self.now.versions version.0) ≡ Some result }
    {
        self.list.version(version.0 as usize).row
    }

    /// The commit at which a version ended. None where it has no end, and where there is no such version.
    pub fn end_of(&self, version: VersionId) -> Option<u64>
        ensures exact { result ≡ option_and_then (λ v. v.end) (slice_get self.now.versions version.0) }
    {
        let place = version.0 as usize;
        if place < self.list.len() {
            self.list.version(place).end
        } else {
            None
        }
    }

    /// Whether a version was emptied.
    pub fn emptied(&self, version: VersionId) -> bool
        requires { version.0 < length self.now.versions }
        ensures exact { option_map (λ v. v.emptied) (slice_get self.now.versions version.0) ≡ Some result }
    {
        self.list.version(version.0 as usize).emptied
    }

    /// Marks a version emptied that ended by a number of commits, and raises the horizon to that number.
    pub fn empty_old(&mut self, version: VersionId, horizon: u64)
        requires within { version.0 < length self.old.versions }
        requires ended { IfSome (slice_get self.old.versions version.0) (HasEndedBy horizon) }
        ensures exact { self.new ≡ record { versions = changed given_up version.0 self.old.versions; horizon = max self.old.horizon horizon } }
    {
        let place = version.0 as usize;
        let given_up = self.list.version(place).given_up();
        self.list.set(place, given_up);
        self.horizon = self.horizon.max(horizon);
    }

    /// Takes the newest commit back: the versions that begin there, and the ends that stand there.
    pub fn roll_back(&mut self, commit: u64)
        requires latest { IsLatest commit self.old.versions }
        requires above { self.old.horizon < commit }
        ensures exact { self.new ≡ record { versions = rolled_back commit self.old.versions; horizon = self.old.horizon } }
    {
        reopen(&mut self.list, &mut self.ended, commit);
        cut(&mut self.list, &mut self.lasts, commit);
    }

    /// What the commits above one number and at most another did to rows, by commit and then row.
    pub fn changes(&self, from: u64, to: u64) -> Result<Vec<Change>, AllocError>
        requires above { self.now.horizon ≤ from }
        requires order { from ≤ to }
        ensures ok { IfOk result (λ changes. AreChanges from to self.now.versions changes.items) }
    {
        changes_of(*self.ended.allocator(), &self.list, &self.ended, from, to)
    }
}
