ghost use Rattle.std.specs.Prelude.{◌≡◌, ◌≤◌, ◌<◌, [], ◌∷◌, ◌++◌, Err, length, IfOk, OnOk, OnErr};
ghost use Rattle.row_versions.specs.History.{most_versions, rows_of, newest, begun, version_at};
ghost use Rattle.row_versions.specs.Order.{IsLatest};

use crate::grow_fault::GrowFault;
use crate::record_place::RecordPlace;
use document_records::Record;
use row_versions::{AppendFault, MOST_VERSIONS, VersionId, Versions};

/// Puts a version behind the others, with its record, or neither.
pub(crate) fn push(
    versions: &mut Versions,
    records: &mut Vec<RecordPlace>,
    stored: Record,
    row: u32,
    commit: u64,
) -> Result<VersionId, GrowFault>
    requires row { row ≤ rows_of versions.old.versions }
    requires latest { IsLatest commit versions.old.versions }
    requires ended { newest row versions.old.versions ≡ None }
    ensures versions { OnOk result (versions.new ≡ record { versions = versions.old.versions ++ begun row commit ∷ []; horizon = versions.old.horizon }) }
    ensures records { OnOk result (records.new.items ≡ records.old.items ++ stored ∷ []) }
    ensures number { IfOk result (λ id. id ≡ version_at (length versions.old.versions)) }
    ensures within { OnOk result (length versions.old.versions < most_versions) }
    ensures full { result ≡ Err GrowFault.Full → length versions.old.versions ≡ most_versions }
    ensures kept { OnErr result ((versions.new ≡ versions.old) × (records.new.items ≡ records.old.items)) }
{
    versions.keeps_order();
    if versions.len() as usize == MOST_VERSIONS {
        return Err(GrowFault::Full);
    }
    records.push(RecordPlace::of(stored))?;
    match versions.append(row, commit) {
        Ok(version) => Ok(version),
        Err(AppendFault::Full) => {
            records.pop();
            Err(GrowFault::Full)
        }
        Err(AppendFault::Memory) => {
            records.pop();
            Err(GrowFault::Memory)
        }
    }
}
