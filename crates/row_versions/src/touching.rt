ghost use Rattle.std.specs.Prelude.{◌≡◌, ℕ, ◌≤◌, Some, slice_get, length, IfOk};
ghost use Rattle.row_versions.specs.History.{most_versions};
ghost use Rattle.row_versions.specs.Inside.{AreEnded, HasEnd};
ghost use Rattle.row_versions.specs.Order.{AreOrdered, BeginsRise};
ghost use Rattle.row_versions.specs.Touched.{AreTouches, SplitsBegins};
ghost use Rattle.row_versions.specs.declared.version.Version.{Version as VersionOf};

use crate::ends::ended_by;
use crate::touch::Touch;
use crate::version_list::VersionList;
use std::alloc::{AllocError, Global};

/// The commits above one number and at most another at which versions begin or end.
pub(crate) fn touches_of(
    alloc: Global,
    list: &VersionList,
    ended: &[u32],
    from: u64,
    to: u64,
) -> Result<Vec<Touch>, AllocError>
    requires ordered { AreOrdered list.now.versions }
    requires few { length list.now.versions ≤ most_versions }
    requires ends { AreEnded list.now.versions ended.now }
    ensures ok { IfOk result (λ touches. AreTouches from to list.now.versions touches.items) }
{
    let mut touches = Vec::new(alloc);
    for place in begun_by(list, from)..begun_by(list, to) {
        touches.push(beginning(list, place))?;
    }
    for at in ended_by(list, ended, from)..ended_by(list, ended, to) {
        touches.push(ending(list, ended[at]))?;
    }
    Ok(touches)
}

/// How many versions begin at most at `n`. They come first.
fn begun_by(list: &VersionList, n: u64) -> usize
    requires rise { BeginsRise list.now.versions }
    ensures exact { SplitsBegins n list.now.versions result }
    ensures within { result ≤ length list.now.versions }
{
    let mut low = 0;
    let mut high = list.len();
    while low < high {
        let middle = low + (high - low) / 2;
        if list.version(middle).begin <= n {
            low = middle + 1;
        } else {
            high = middle;
        }
    }
    low
}

// That the version at a place begins.
fn beginning(list: &VersionList, place: usize) -> Touch
    requires standing { (v : VersionOf) × (slice_get list.now.versions place ≡ Some v) }
    requires few { length list.now.versions ≤ most_versions }
    ensures exact { (v : VersionOf) → slice_get list.now.versions place ≡ Some v → result ≡ record { commit = v.begin; row = v.row; place = place } }
{
    let version = list.version(place);
    Touch {
        commit: version.begin,
        row: version.row,
        place: place as u32,
    }
}

// That the version at a place, which has an end, ends.
fn ending(list: &VersionList, place: u32) -> Touch
    requires { (end : ℕ) × HasEnd list.now.versions place end }
    ensures exact { (v : VersionOf) (end : ℕ) → slice_get list.now.versions place ≡ Some v → v.end ≡ Some end → result ≡ record { commit = end; row = v.row; place = place } }
{
    let version = list.version(place as usize);
    let commit = match version.end {
        Some(end) => end,
        None => 0,
    };
    Touch {
        commit,
        row: version.row,
        place,
    }
}
