ghost use Rattle.std.specs.Prelude.{◌≡◌, ◌≤◌, false};

use crate::limits::Limits;

/// How a store is run.
#[derive(Clone, Copy, Debug, PartialEq, Eq)]
pub struct Settings {
    /// How many workers answer lines, from 1 to 16.
    pub workers: u32,
    /// How many rows are read in one turn, from 1 to 4,096.
    pub batch: u32,
    pub limits: Limits,
    /// Whether a report of all attributes follows the answers.
    pub report: bool,
    ghost workers_in_range: { (1 ≤ workers) × (workers ≤ 16) },
    ghost batch_in_range: { (1 ≤ batch) × (batch ≤ 4096) },
}

impl Settings {
    /// 4 workers, batches of 256 rows, columns from 60 percent and more than 200 different values, no report.
    pub fn usual() -> Settings
        ensures workers { result.workers ≡ 4 }
        ensures batch { result.batch ≡ 256 }
        ensures limits { (result.limits.density ≡ 60) × (result.limits.cardinality ≡ 200) }
        ensures report { result.report ≡ false }
    {
        Settings {
            workers: 4,
            batch: 256,
            limits: Limits {
                density: 60,
                cardinality: 200,
            },
            report: false,
        }
    }
}
