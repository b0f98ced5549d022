ghost use Rattle.std.specs.Prelude.{◌≡◌, ℕ};
ghost use Rattle.row_versions.specs.History.{visible};
ghost use Rattle.row_versions.specs.Inside.{AreLinked, StartsAt};
ghost use Rattle.row_versions.specs.Order.{AreOrdered};

use crate::version_id::VersionId;
use crate::version_list::VersionList;

/// The version of a row that is seen after `n` commits, from a version of the row on to earlier ones. Later versions
/// of the row begin after `n`.
pub(crate) fn seen_from(list: &VersionList, start: u32, n: u64) -> Option<VersionId>
    requires linked { AreLinked list.now.versions list.now.links }
    requires ordered { AreOrdered list.now.versions }
    requires start { (row : ℕ) × StartsAt row n list.now.versions start }
    ensures exact { (row : ℕ) → StartsAt row n list.now.versions start → result ≡ visible row n list.now.versions }
{
    let mut place = start;
    loop {
        let version = list.version(place as usize);
        if version.begin <= n {
            return if version.is_open(n) {
                Some(VersionId(place))
            } else {
                None
            };
        }
        match list.before(place as usize) {
            None => return None,
            Some(before) => place = before,
        }
    }
}
