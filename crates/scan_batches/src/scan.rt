ghost use Rattle.std.specs.Prelude.{◌≡◌, ◌≤◌, ◌==◌, [], IfOk, OnOk, length};
ghost use Rattle.row_versions.specs.History.{rows_of};
ghost use Rattle.scan_batches.specs.Scans.{rows_wanted, begun_anew, row_after, CanBeTested, ReadsTheSame};

use crate::read_rows::ReadRows;
use crate::reading::{is_enough, read_on};
use doc_values::ColRef;
use layout_store::Layout;
use row_columns::TableRows;
use sql_eval::Expr;
use std::alloc::{AllocError, Global};
use std::marker::Model;

/// A scan of a collection at a number of commits. It keeps what it reads and what it has read, and no path.
#[derive(Drop)]
pub struct Scan {
    at: u64,
    next_row: u32,
    end_row: u32,
    refs: Vec<ColRef>,
    test: Option<Expr>,
    most: Option<u64>,
    rows: ReadRows,
}

impl Model for Scan {
    ghost use Rattle.std.specs.Prelude.{◌≡◌, ◌≤◌, length};
    ghost use Rattle.std.specs.Coded.{codes};
    ghost use Rattle.sql_eval.specs.contracts.expr.Expr as of_expr;
    ghost use Rattle.scan_batches.specs.Scans.{ScanOf, CanBeTested};

    ghost Value = { ScanOf };

    ghost coded = { Prim.hlevel (codes, of_expr.the_row.coded) };

    ghost view = { λ s. record { at = s.at; next_row = s.next_row; end_row = s.end_row; refs = s.refs.items; star = s.rows.whole; test = s.test; most = s.most; rows = s.rows.rows } };

    ghost invariant = { λ s. (s.next_row ≤ s.end_row) × (s.rows.width ≡ length s.refs.items) × CanBeTested s.test };
}

impl Scan {
    /// A scan at the commits so far, which ends at the rows that there are now. It reads a value for each reference, and the
    /// document where `star` holds, of the documents that the test keeps, and no more than `most`.
    pub fn new(
        alloc: Global,
        layout: &Layout,
        at: u64,
        refs: &[ColRef],
        star: bool,
        test: &Option<Expr>,
        most: Option<u64>,
    ) -> Result<Scan, AllocError>
        requires tested { CanBeTested test.now }
        ensures ok { IfOk result (λ scan. scan ≡ record { at = at; next_row = 0; end_row = rows_of layout.now.history.versions; refs = refs.now; star = star; test = test.now; most = most; rows = [] }) }
        ensures read { IfOk result (λ scan. scan.rows ≡ rows_wanted layout.now scan) }
    {
        Ok(Scan {
            at,
            next_row: 0,
            end_row: layout.versions().rows(),
            refs: copies(alloc, refs)?,
            test: copy_of(alloc, test)?,
            most,
            rows: ReadRows::new(alloc, refs.len(), star)?,
        })
    }

    /// Law: no scan passes its end, and its test can be computed over each row of documents.
    pub fn keeps_the_rules(&self)
        ensures within { self.now.next_row ≤ self.now.end_row }
        ensures tested { CanBeTested self.now.test }
    {
        let _len = self.rows.len();
    }

    /// The number of commits that it reads at.
    pub fn at(&self) -> u64
        ensures exact { result ≡ self.now.at }
    {
        self.at
    }

    /// Every row is passed.
    pub fn is_ended(&self) -> bool
        ensures exact { result ≡ (self.now.next_row == self.now.end_row) }
    {
        self.next_row == self.end_row
    }

    /// The rows that it has read.
    pub fn into_rows(self) -> TableRows
        ensures exact { result ≡ self.rows }
    {
        let Scan { rows, .. } = self;
        rows.into_rows()
    }

    /// Passes the next rows, so many at most, and reads what is wanted of them.
    pub(crate) fn pass(&mut self, layout: &Layout, limit: u32) -> Result<(), AllocError>
        ensures read { OnOk result (self.old.rows ≡ rows_wanted layout.now self.old → self.new.rows ≡ rows_wanted layout.now self.new) }
        ensures passed { OnOk result (self.new.next_row ≡ row_after limit self.old self.new) }
        ensures same { ReadsTheSame self.old self.new }
    {
        let to = self.next_row + limit.min(self.end_row - self.next_row);
        let next = read_on(
            layout,
            self.at,
            &self.refs,
            &self.test,
            self.most,
            &mut self.rows,
            self.next_row,
            to,
        )?;
        if is_enough(self.most, self.rows.len()) {
            self.next_row = self.end_row;
        } else {
            self.next_row = next;
        }
        Ok(())
    }

    /// Begins anew: no row is passed or read.
    pub(crate) fn begin_anew(&mut self)
        ensures exact { self.new ≡ begun_anew self.old }
    {
        self.next_row = 0;
        self.rows.clear();
    }
}

// Equal columns.
fn copies(alloc: Global, refs: &[ColRef]) -> Result<Vec<ColRef>, AllocError>
    ensures ok { IfOk result (λ copies. copies.items ≡ refs.now) }
{
    let mut copies = Vec::with_capacity(alloc, refs.len())?;
    for column in refs {
        copies.push(column.copy()?)?;
    }
    Ok(copies)
}

// An equal test.
fn copy_of(alloc: Global, test: &Option<Expr>) -> Result<Option<Expr>, AllocError>
    ensures ok { IfOk result (λ copy. copy ≡ test.now) }
{
    match test {
        Some(test) => Ok(Some(test.copy(alloc)?)),
        None => Ok(None),
    }
}
