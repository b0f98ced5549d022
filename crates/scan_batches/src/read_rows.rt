ghost use Rattle.std.specs.Prelude.{ℕ, List, ◌≡◌, ◌<◌, ◌+◌, ◌++◌, [], All, IfSome, IfOk, OnOk, OnErr, length, map, replicate, if◌then◌else◌};
ghost use Rattle.doc_values.specs.declared.col_ref.ColRef.{ColRef as ColRefOf};
ghost use Rattle.attr_catalog.specs.Paths.{IsLawful};
ghost use Rattle.query_meaning.specs.Plans.{cells_under};
ghost use Rattle.scan_batches.specs.Filled.{AreOfLength, put_behind};
ghost use Rattle.scan_batches.specs.Reading.{document_in, path_for, values_for};

use crate::finding::value_along;
use attr_catalog::Path;
use doc_values::{ColRef, Doc};
use layout_store::Layout;
use row_columns::{CellColumn, TableRows};
use row_versions::VersionId;
use std::alloc::{AllocError, Global};
use std::marker::Model;

/// Rows that were read, by their columns; with their documents where whole ones are asked for.
#[derive(Drop)]
pub(crate) struct ReadRows {
    count: u32,
    columns: Vec<CellColumn>,
    whole: bool,
    docs: Vec<Doc>,
}

impl Model for ReadRows {
    ghost use Rattle.row_columns.specs.Placed.{rows_of};
    ghost use Rattle.std.specs.Prelude.{length};
    ghost use Rattle.scan_batches.specs.Filled.{RowsOf, AreFilled};

    ghost Value = { RowsOf };

    ghost view = { λ r. record { width = length r.columns.items; whole = r.whole; rows = rows_of r.count r.columns.items r.docs.items } };

    ghost invariant = { λ r. AreFilled r.count r.columns.items r.whole r.docs.items };
}

impl ReadRows {
    /// No rows, of so many columns.
    pub(crate) fn new(alloc: Global, width: usize, whole: bool) -> Result<ReadRows, AllocError>
        ensures ok { IfOk result (λ read. read ≡ record { width = width; whole = whole; rows = [] }) }
    {
        Ok(ReadRows {
            count: 0,
            columns: no_values(alloc, width)?,
            whole,
            docs: Vec::new(alloc),
        })
    }

    /// How many rows there are.
    pub(crate) fn len(&self) -> u32
        ensures exact { result ≡ length self.now.rows }
    {
        self.count
    }

    /// Where the rows have their memory from.
    pub(crate) fn alloc(&self) -> Global {
        *self.columns.allocator()
    }

    /// Puts the rows of versions behind the others: a value along each path, and the document where whole ones are asked
    /// for. After want of memory no row is left.
    pub(crate) fn append(
        &mut self,
        layout: &Layout,
        refs: &[ColRef],
        paths: &[Path],
        versions: &[VersionId],
    ) -> Result<(), AllocError>
        requires width { self.old.width ≡ length refs.now }
        requires paths { paths.now ≡ map (path_for layout.now.attributes) refs.now }
        requires standing { All (λ v. v.0 < length layout.now.history.versions) versions.now }
        ensures ok { OnOk result (self.new.rows ≡ self.old.rows ++ map (λ v. cells_under refs.now self.old.whole (document_in layout.now v)) versions.now) }
        ensures width { self.new.width ≡ self.old.width }
        ensures whole { self.new.whole ≡ self.old.whole }
        ensures memory { OnErr result (self.new.rows ≡ []) }
    {
        let put = put_rows(
            layout,
            refs,
            paths,
            versions,
            self.whole,
            self.count,
            &mut self.columns,
            &mut self.docs,
        );
        match put {
            Ok(count) => {
                self.count = count;
                Ok(())
            }
            Err(fault) => {
                self.count = 0;
                Err(fault)
            }
        }
    }

    /// Gives all rows up.
    pub(crate) fn clear(&mut self)
        ensures exact { self.new ≡ record { width = self.old.width; whole = self.old.whole; rows = [] } }
    {
        let alloc = *self.columns.allocator();
        empty_all(alloc, &mut self.columns);
        self.docs.truncate(0);
        self.count = 0;
    }

    /// The rows as a table.
    pub(crate) fn into_rows(self) -> TableRows
        ensures exact { result ≡ self.rows }
    {
        let ReadRows {
            count,
            columns,
            docs,
            ..
        } = self;
        TableRows::new(count, columns, docs)
    }
}

// So many columns without values.
fn no_values(alloc: Global, width: usize) -> Result<Vec<CellColumn>, AllocError>
    ensures ok { IfOk result (λ columns. columns.items ≡ replicate width []) }
{
    let mut columns = Vec::with_capacity(alloc, width)?;
    for _place in 0..width {
        columns.push(CellColumn::new(alloc))?;
    }
    Ok(columns)
}

// Gives all values of columns up.
fn empty_all(alloc: Global, columns: &mut [CellColumn])
    ensures long { length columns.new ≡ length columns.old }
    ensures even { AreOfLength 0 columns.new }
{
    for column in columns.iter_mut() {
        *column = CellColumn::new(alloc);
    }
}

// Puts rows behind others, and answers how many there are then. After want of memory no values are left.
fn put_rows(
    layout: &Layout,
    refs: &[ColRef],
    paths: &[Path],
    versions: &[VersionId],
    whole: bool,
    count: u32,
    columns: &mut [CellColumn],
    docs: &mut Vec<Doc>,
) -> Result<u32, AllocError>
    requires width { length columns.old ≡ length refs.now }
    requires paths { paths.now ≡ map (path_for layout.now.attributes) refs.now }
    requires standing { All (λ v. v.0 < length layout.now.history.versions) versions.now }
    ensures count { IfOk result (λ sum. sum ≡ count + length versions.now) }
    ensures columns { OnOk result (columns.new ≡ put_behind columns.old (map (λ c. map (values_for layout.now c) versions.now) refs.now)) }
    ensures docs { OnOk result (docs.new.items ≡ docs.old.items ++ (if whole then map (document_in layout.now) versions.now else [])) }
    ensures even { OnErr result (AreOfLength 0 columns.new) }
    ensures none { OnErr result (docs.new.items ≡ []) }
    ensures long { length columns.new ≡ length columns.old }
{
    let alloc = *docs.allocator();
    match try_put(layout, refs, paths, versions, whole, count, columns, docs) {
        Ok(sum) => Ok(sum),
        Err(fault) => {
            empty_all(alloc, columns);
            docs.truncate(0);
            Err(fault)
        }
    }
}

// The same; want of memory may leave some values.
fn try_put(
    layout: &Layout,
    refs: &[ColRef],
    paths: &[Path],
    versions: &[VersionId],
    whole: bool,
    count: u32,
    columns: &mut [CellColumn],
    docs: &mut Vec<Doc>,
) -> Result<u32, AllocError>
    requires width { length columns.old ≡ length refs.now }
    requires paths { paths.now ≡ map (path_for layout.now.attributes) refs.now }
    requires standing { All (λ v. v.0 < length layout.now.history.versions) versions.now }
    ensures count { IfOk result (λ sum. sum ≡ count + length versions.now) }
    ensures columns { OnOk result (columns.new ≡ put_behind columns.old (map (λ c. map (values_for layout.now c) versions.now) refs.now)) }
    ensures docs { OnOk result (docs.new.items ≡ docs.old.items ++ (if whole then map (document_in layout.now) versions.now else [])) }
    ensures long { length columns.new ≡ length columns.old }
{
    let Some(sum) = counted(count, versions.len()) else {
        return Err(AllocError);
    };
    fill_all(layout, refs, paths, versions, columns)?;
    put_documents(layout, whole, versions, docs)?;
    Ok(sum)
}

// So many rows and more, unless that is more than 32 bits hold.
fn counted(count: u32, more: usize) -> Option<u32>
    ensures exact { IfSome result (λ sum. sum ≡ count + more) }
{
    count.checked_add(u32::try_from(more).ok()?)
}

// Puts the values of versions along each path behind those of its column.
fn fill_all(
    layout: &Layout,
    refs: &[ColRef],
    paths: &[Path],
    versions: &[VersionId],
    columns: &mut [CellColumn],
) -> Result<(), AllocError>
    requires width { length columns.old ≡ length refs.now }
    requires paths { paths.now ≡ map (path_for layout.now.attributes) refs.now }
    requires standing { All (λ v. v.0 < length layout.now.history.versions) versions.now }
    ensures ok { OnOk result (columns.new ≡ put_behind columns.old (map (λ c. map (values_for layout.now c) versions.now) refs.now)) }
{
    for place in 0..paths.len() {
        fill(layout, &paths[place], versions, &mut columns[place])?;
    }
    Ok(())
}

// Puts the values of versions along a path behind those of a column.
fn fill(
    layout: &Layout,
    path: &Path,
    versions: &[VersionId],
    column: &mut CellColumn,
) -> Result<(), AllocError>
    requires lawful { IsLawful layout.now.attributes path.now }
    requires standing { All (λ v. v.0 < length layout.now.history.versions) versions.now }
    ensures ok { (c : ColRefOf) → path.now ≡ path_for layout.now.attributes c → OnOk result (column.new ≡ column.old ++ map (values_for layout.now c) versions.now) }
{
    column.reserve(versions.len())?;
    for version in versions {
        column.push(value_along(layout, *version, path))?;
    }
    Ok(())
}

// Puts the documents of versions behind others, where whole ones are asked for.
fn put_documents(
    layout: &Layout,
    whole: bool,
    versions: &[VersionId],
    docs: &mut Vec<Doc>,
) -> Result<(), AllocError>
    requires standing { All (λ v. v.0 < length layout.now.history.versions) versions.now }
    ensures ok { OnOk result (docs.new.items ≡ docs.old.items ++ (if whole then map (document_in layout.now) versions.now else [])) }
{
    if !whole {
        return Ok(());
    }
    docs.reserve(versions.len())?;
    for version in versions {
        docs.push(layout.doc(*version)?)?;
    }
    Ok(())
}
