ghost use Rattle.std.specs.Prelude.{◌≡◌, ◌<◌, ◌≤◌, ℕ, List, nat_lt, filter, length, vec_len, vec_capacity, slice_get, Some, None};
ghost use Rattle.row_versions.specs.Inside.{AreEnded, AreLinked, AreNewest, HasOneBehind, forgotten, noted};
ghost use Rattle.row_versions.specs.Order.{BeginsRise};
ghost use Rattle.row_versions.specs.declared.version.Version.{Version};

use crate::version_list::VersionList;

/// The place of the last version of a row, if there is such a row.
#[tactic(auto, using(std::proofs::lemmas::Option::gets))]
pub(crate) fn last_of(lasts: &[u32], row: usize) -> Option<u32>
    ensures exact { result ≡ slice_get lasts.now row }
{
    lasts.get(row).copied()
}

/// Notes the place of the last version of a row, which may be the next row. There is room for it.
pub(crate) fn note_last(lasts: &mut Vec<u32>, row: usize, place: u32)
    requires within { row ≤ length lasts.old.items }
    requires room { vec_len lasts.old < vec_capacity lasts.old }
    ensures exact { lasts.new.items ≡ noted row place lasts.old.items }
{
    if row < lasts.len() {
        lasts[row] = place;
    } else {
        lasts.push_reserved(place);
    }
}

/// Takes the versions away that begin from a commit on, none of which has an end, and the rows that have none left.
pub(crate) fn cut(list: &mut VersionList, lasts: &mut Vec<u32>, commit: u64)
    requires rise { BeginsRise list.old.versions }
    requires endless { (i : ℕ) (v : Version) → slice_get list.old.versions i ≡ Some v → commit ≤ v.begin → v.end ≡ None }
    requires linked { AreLinked list.old.versions list.old.links }
    requires newest { AreNewest list.old.versions lasts.old.items }
    ensures exact { list.new.versions ≡ filter (λ v. nat_lt v.begin commit) list.old.versions }
    ensures linked { AreLinked list.new.versions list.new.links }
    ensures newest { AreNewest list.new.versions lasts.new.items }
    ensures ends { (places : List ℕ) → AreEnded list.old.versions places → AreEnded list.new.versions places }
{
    while let Some(last) = list.last() {
        if last.begin < commit {
            break;
        }
        pop(list, lasts);
    }
}

// Takes the last version away, and its row where it has no other.
fn pop(list: &mut VersionList, lasts: &mut Vec<u32>)
    requires some { 0 < length list.old.versions }
    requires linked { AreLinked list.old.versions list.old.links }
    requires newest { AreNewest list.old.versions lasts.old.items }
    ensures exact { HasOneBehind list.old list.new }
    ensures linked { AreLinked list.new.versions list.new.links }
    ensures newest { AreNewest list.new.versions lasts.new.items }
{
    let place = list.len() - 1;
    let version = list.version(place);
    forget_last(lasts, version.row as usize, list.before(place));
    list.pop();
}

// Notes the place of the version before the last one of a row, or forgets the row, which is then the last one.
fn forget_last(lasts: &mut Vec<u32>, row: usize, before: Option<u32>)
    requires { row < length lasts.old.items }
    ensures exact { lasts.new.items ≡ forgotten row before lasts.old.items }
{
    match before {
        Some(before) => lasts[row] = before,
        None => lasts.truncate(lasts.len() - 1),
    }
}
