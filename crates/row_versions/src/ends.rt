ghost use Rattle.std.specs.Prelude.{◌≡◌, ℕ, nat_le, ◌+◌, ◌<◌, ◌≤◌, ◌∷◌, ◌++◌, length, take, drop, map, vec_len, vec_capacity, slice_get, Some};
ghost use Rattle.row_versions.specs.History.{reopened};
ghost use Rattle.row_versions.specs.Inside.{AreEnded, HasEnd, SplitsEnds};
ghost use Rattle.row_versions.specs.Order.{IsLatest};

use crate::version_list::VersionList;

/// How many of the places of ended versions have an end of at most `n`. They come first.
pub(crate) fn ended_by(list: &VersionList, ended: &[u32], n: u64) -> usize
    requires ends { AreEnded list.now.versions ended.now }
    ensures exact { SplitsEnds n list.now.versions ended.now result }
{
    let Some(last) = ended.last().copied() else {
        return 0;
    };
    if has_ended_by(list, last, n) {
        return ended.len();
    }
    let mut low = 0;
    let mut high = ended.len();
    while low < high {
        let middle = low + (high - low) / 2;
        if has_ended_by(list, ended[middle], n) {
            low = middle + 1;
        } else {
            high = middle;
        }
    }
    low
}

// Whether the version at a place, which has an end, ended by `n`.
fn has_ended_by(list: &VersionList, place: u32, n: u64) -> bool
    requires { (end : ℕ) × HasEnd list.now.versions place end }
    ensures yes { (end : ℕ) → HasEnd list.now.versions place end → result ≡ nat_le end n }
{
    match list.version(place as usize).end {
        Some(end) => end <= n,
        None => false,
    }
}

/// Puts a place in. There is room for it.
pub(crate) fn insert_place(places: &mut Vec<u32>, at: usize, place: u32)
    requires within { at ≤ length places.old.items }
    requires room { vec_len places.old < vec_capacity places.old }
    ensures exact { places.new.items ≡ take at places.old.items ++ (place ∷ drop at places.old.items) }
    ensures kept { vec_capacity places.new ≡ vec_capacity places.old }
{
    places.push_reserved(place);
    places[at..].rotate_right(1);
}

/// Takes the ends from a commit on away.
pub(crate) fn reopen(list: &mut VersionList, ended: &mut Vec<u32>, commit: u64)
    requires ends { AreEnded list.old.versions ended.old.items }
    ensures exact { list.new ≡ record { versions = map (reopened commit) list.old.versions; links = list.old.links } }
    ensures ends { AreEnded list.new.versions ended.new.items }
    ensures kept { vec_capacity ended.new ≡ vec_capacity ended.old }
{
    while let Some(last) = ended.last().copied() {
        let version = list.version(last as usize);
        if version.ends_before(commit) {
            break;
        }
        list.set(last as usize, version.endless());
        let _last = ended.take_last();
    }
}
