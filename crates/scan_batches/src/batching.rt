ghost use Rattle.std.specs.Prelude.{ℕ, ◌≡◌, ◌<◌, ◌≤◌, ◌↔◌, Ok, IfOk, OnErr};
ghost use Rattle.scan_batches.specs.Scans.{rows_wanted, begun_anew, row_after, step_of, ReadsTheSame};

use crate::scan::Scan;
use crate::step::Step;
use layout_store::Layout;
use std::alloc::AllocError;

/// Passes the next rows, so many at most, and reads those of their documents that are wanted. The path of each column is
/// made at this call. After want of memory the scan has to begin anew.
pub fn batch(layout: &Layout, scan: &mut Scan, limit: u32) -> Result<Step, AllocError>
    requires some { 0 < limit }
    ensures read { scan.old.rows ≡ rows_wanted layout.now scan.old → scan.new.rows ≡ rows_wanted layout.now scan.new }
    ensures passed { IfOk result (λ step. layout.now.history.horizon ≤ scan.old.at → scan.new.next_row ≡ row_after limit scan.old scan.new) }
    ensures step { IfOk result (λ step. step ≡ step_of layout.now.history.horizon scan.new) }
    ensures gone { (h : ℕ) → (result ≡ Ok (Step.Gone h)) ↔ ((h ≡ layout.now.history.horizon) × (scan.old.at < layout.now.history.horizon)) }
    ensures kept { (h : ℕ) → result ≡ Ok (Step.Gone h) → scan.new ≡ scan.old }
    ensures same { ReadsTheSame scan.old scan.new }
    ensures memory { OnErr result (scan.new ≡ begun_anew scan.old) }
{
    let horizon = layout.versions().horizon();
    if scan.at() < horizon {
        return Ok(Step::Gone(horizon));
    }
    if let Err(fault) = scan.pass(layout, limit) {
        scan.begin_anew();
        return Err(fault);
    }
    if scan.is_ended() {
        Ok(Step::End)
    } else {
        Ok(Step::More)
    }
}
