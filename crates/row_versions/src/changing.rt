ghost use Rattle.std.specs.Prelude.{◌≡◌, ◌≢◌, ◌<◌, ◌≤◌, ◌-◌, ◌+◌, ℕ, Some, true, false, slice_get, length, IfOk};
ghost use Rattle.row_versions.specs.Changes.{AreChanges, IsChange};
ghost use Rattle.row_versions.specs.History.{most_versions, visible};
ghost use Rattle.row_versions.specs.Inside.{AreEnded, AreLinked, StartsAt};
ghost use Rattle.row_versions.specs.Order.{AreOrdered};
ghost use Rattle.row_versions.specs.Touched.{AreAlike, AreInOrder, AreTouches};
ghost use Rattle.row_versions.specs.declared.touch.Touch.{Touch as TouchOf};

use crate::change::Change;
use crate::touch::Touch;
use crate::touching::touches_of;
use crate::version_list::VersionList;
use crate::walking::seen_from;
use std::alloc::{AllocError, Global};

/// What the commits above one number and at most another did to rows.
pub(crate) fn changes_of(
    alloc: Global,
    list: &VersionList,
    ended: &[u32],
    from: u64,
    to: u64,
) -> Result<Vec<Change>, AllocError>
    requires linked { AreLinked list.now.versions list.now.links }
    requires ordered { AreOrdered list.now.versions }
    requires few { length list.now.versions ≤ most_versions }
    requires ends { AreEnded list.now.versions ended.now }
    ensures ok { IfOk result (λ changes. AreChanges from to list.now.versions changes.items) }
{
    let mut touches = touches_of(alloc, list, ended, from, to)?;
    touches.sort_unstable();
    merged(alloc, list, &touches, from, to)
}

// One change for each commit and row.
fn merged(
    alloc: Global,
    list: &VersionList,
    touches: &[Touch],
    from: u64,
    to: u64,
) -> Result<Vec<Change>, AllocError>
    requires linked { AreLinked list.now.versions list.now.links }
    requires ordered { AreOrdered list.now.versions }
    requires all { AreTouches from to list.now.versions touches.now }
    requires order { AreInOrder touches.now }
    ensures ok { IfOk result (λ changes. AreChanges from to list.now.versions changes.items) }
{
    let mut changes = Vec::new(alloc);
    for at in 0..touches.len() {
        if !is_followed(touches, at) {
            changes.push(change_at(list, &touches[at]))?;
        }
    }
    Ok(changes)
}

// Whether the next one is of the same commit and row.
fn is_followed(touches: &[Touch], at: usize) -> bool
    requires { at < length touches.now }
    ensures yes { result ≡ true → (t : TouchOf) × (u : TouchOf) × (slice_get touches.now at ≡ Some t) × (slice_get touches.now (at + 1) ≡ Some u) × AreAlike t u }
    ensures no { result ≡ false → (t : TouchOf) (u : TouchOf) → slice_get touches.now at ≡ Some t → slice_get touches.now (at + 1) ≡ Some u → AreAlike t u → ⊥ }
{
    if touches.len() - at == 1 {
        return false;
    }
    let touch = touches[at];
    let next = touches[at + 1];
    touch.is_like(&next)
}

// What a commit did to a row, from the last of the row's versions that begin or end there.
fn change_at(list: &VersionList, touch: &Touch) -> Change
    requires linked { AreLinked list.now.versions list.now.links }
    requires ordered { AreOrdered list.now.versions }
    requires some { 0 < touch.now.commit }
    requires start { StartsAt touch.now.row touch.now.commit list.now.versions touch.now.place }
    ensures exact { result ≡ record {
      row = touch.now.row;
      commit = touch.now.commit;
      before = visible touch.now.row (touch.now.commit - 1) list.now.versions;
      after = visible touch.now.row touch.now.commit list.now.versions;
    } }
{
    Change {
        row: touch.row,
        commit: touch.commit,
        before: seen_from(list, touch.place, touch.commit - 1),
        after: seen_from(list, touch.place, touch.commit),
    }
}
