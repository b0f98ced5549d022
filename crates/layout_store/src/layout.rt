ghost use Rattle.std.specs.Prelude.{◌≡◌, ◌<◌, ◌≤◌, ◌+◌, ◌*◌, ◌⊎◌, ℕ, List, Option, [], Some, None, Ok, Err, All, map, IfSome, IfOk, OnOk, OnErr, IsSome, length, slice_get, option_map};
ghost use Rattle.std.specs.FinMap as map;
ghost use Rattle.doc_values.specs.Weight.{weight_of};
ghost use Rattle.doc_values.specs.declared.kind.Kind.{Kind as KindOf};
ghost use Rattle.doc_values.specs.declared.kind.Kind.TheVariants as kind;
ghost use Rattle.attr_catalog.specs.Attribute.{housed, cleared};
ghost use Rattle.attr_catalog.specs.Catalog.{changed, most_attributes};
ghost use Rattle.attr_catalog.specs.declared.home.Home.TheVariants as home;
ghost use Rattle.attr_catalog.specs.Paths.{lawful_path, IsLawful};
ghost use Rattle.row_versions.specs.History.{most_versions, rows_of, newest, version_at};
ghost use Rattle.row_versions.specs.Order.{IsLatest};
ghost use Rattle.phys_columns.specs.Filtered.{is_bit, is_met};
ghost use Rattle.doc_values.specs.Lent.{owned};
ghost use Rattle.document_records.specs.Limits.{most_weight};
ghost use Rattle.document_records.specs.StoredDocument.{pairs_of};

use crate::cell_ids::CellIds;
use crate::counting::{lower_all, write_all};
use crate::grow_fault::GrowFault;
use crate::lent_numbering::record_of_lent;
use crate::moving::{move_home, step_mark};
use crate::numbering::record_of;
use crate::pushing::push;
use crate::reading::read_path;
use crate::record_place::RecordPlace;
use crate::rolling::{clear_cells, raise_reopened, settle_marks, take_back};
use crate::value_walk::ValueWalk;
use crate::whole::whole;
use attr_catalog::{Catalog, Home, Path, Way};
use doc_values::{AttrId, Doc, DocRef, ValueRef, documents_are_maps};
use document_records::{Parts, records_are_their_documents, stored_values_are_told_apart};
use phys_columns::{Columns, CompareInt, Mask, cells_are_a_map};
use row_versions::{
    VersionId, Versions, appends_show, empties_show, endings_show, roll_backs_show,
};
use std::alloc::{AllocError, Global};
use std::marker::Model;

/// One collection: its attributes, the versions of its rows, and where their values stand.
#[derive(Drop)]
pub struct Layout {
    catalog: Catalog,
    versions: Versions,
    records: Vec<RecordPlace>,
    columns: Columns,
    cell_ids: CellIds,
    // Which attribute followed which one in the documents that were added last.
    followers: Vec<u32>,
    // Their memory serves many documents.
    entries: Vec<(u32, usize)>,
    parts: Parts,
}

impl Model for Layout {
    ghost use Rattle.std.specs.Coded.{codes};
    ghost use Rattle.std.specs.FinMap as map;
    ghost use Rattle.doc_values.specs.contracts.value.Value as of_value;
    ghost use Rattle.layout_store.specs.Storage.{Storage};
    ghost use Rattle.layout_store.specs.Placed.{IsLayout};
    ghost use Rattle.layout_store.specs.Listed.{AreListed};

    ghost Value = { Storage };

    ghost coded = { Prim.hlevel (codes, map.code, of_value.the_row.coded) };

    ghost view = { λ l. record { attributes = l.catalog; history = l.versions; records = l.records.items; cells = l.columns.cells } };

    ghost invariant = { λ l. IsLayout (record { attributes = l.catalog; history = l.versions; records = l.records.items; cells = l.columns.cells }) × AreListed l.cell_ids l.columns.cells };
}

impl Layout {
    ghost use Rattle.layout_store.specs.Storage.{Storage, held};
    ghost use Rattle.layout_store.specs.Documents.{document_at, most_fields};
    ghost use Rattle.layout_store.specs.Placed.{IsLayout};
    ghost use Rattle.layout_store.specs.Shows.{HasWritten, HoldsTheSame, ShowsTheSame};
    ghost use Rattle.layout_store.specs.Numbering.{with_fields};
    ghost use Rattle.layout_store.specs.Changes.{HasStepped, HasEnded, HasAppended};
    ghost use Rattle.layout_store.specs.Values.{number_of, value_held, value_wanted};
    ghost use Rattle.layout_store.specs.RolledBack.{HasRolledBack, ShowsAsBefore};
    ghost use Rattle.layout_store.specs.Emptied.{HasEmptied, ShowsFromHorizon};
    ghost use Rattle.layout_store.specs.Walked.{left_of, value_along};

    pub fn new(alloc: Global) -> Layout
        ensures exact { result ≡ record { attributes = []; history = record { versions = []; horizon = 0 }; records = []; cells = map.empty } }
    {
        let catalog = Catalog::new(alloc);
        let versions = Versions::new(alloc);
        let records = Vec::new(alloc);
        let columns = Columns::new(alloc);
        let cell_ids = CellIds::new(alloc);
        Layout {
            catalog,
            versions,
            records,
            columns,
            cell_ids,
            followers: Vec::new(alloc),
            entries: Vec::new(alloc),
            parts: Parts::new(alloc),
        }
    }

    /// The attributes.
    pub fn catalog(&self) -> &Catalog
        ensures exact { result.now ≡ self.now.attributes }
    {
        &self.catalog
    }

    /// The versions of the rows.
    pub fn versions(&self) -> &Versions
        ensures exact { result.now ≡ self.now.history }
    {
        &self.versions
    }

    /// Law: every layout keeps the rules of where values stand and of what is held.
    pub fn keeps_the_rules(&self)
        ensures law { IsLayout self.now }
    {
        let _len = self.records.len();
    }

    /// The value that the version's document has under the name of a path, lent.
    pub fn read(&self, version: VersionId, path: &Path) -> Option<ValueRef<'_>>
        requires standing { version.0 < length self.now.history.versions }
        requires lawful { IsLawful self.now.attributes path.now }
        ensures exact { (name : List ℕ) (wanted : Option KindOf) → path.now ≡ lawful_path name wanted self.now.attributes → option_map owned result ≡ value_wanted name wanted (document_at self.now version.0) }
    {
        records_are_their_documents();
        stored_values_are_told_apart();
        self.catalog.keeps_the_rules();
        self.along(version, path.ways())
    }

    /// The first value to which one of some ways leads in a version.
    pub(crate) fn along(&self, version: VersionId, ways: &[Way]) -> Option<ValueRef<'_>>
        requires standing { version.0 < length self.now.history.versions }
        requires lead { All (λ way. number_of way < length self.now.attributes) ways.now }
        ensures exact { option_map owned result ≡ value_along self.now ways.now version }
    {
        let stored = &self.records[version.0 as usize];
        read_path(&self.catalog, stored, &self.columns, version.0, ways)
    }

    /// The values that versions' documents have under the name of a path, in the order of the versions, lent one by one.
    pub fn walk<'a>(&'a self, path: &'a Path, versions: &'a [VersionId]) -> ValueWalk<'a>
        requires standing { All (λ v. v.0 < length self.now.history.versions) versions.now }
        requires lawful { IsLawful self.now.attributes path.now }
        ensures exact { (name : List ℕ) (wanted : Option KindOf) → path.entry.now ≡ lawful_path name wanted self.entry.now.attributes → left_of result ≡ map (λ v. value_wanted name wanted (document_at self.entry.now v.0)) versions.entry.now }
    {
        records_are_their_documents();
        stored_values_are_told_apart();
        self.catalog.keeps_the_rules();
        ValueWalk::new(self, path.ways(), versions)
    }

    /// The version's document.
    pub fn doc(&self, version: VersionId) -> Result<Doc, AllocError>
        requires standing { version.0 < length self.now.history.versions }
        ensures ok { IfOk result (λ document. document ≡ document_at self.now version.0) }
    {
        documents_are_maps();
        let alloc = *self.records.allocator();
        let stored = &self.records[version.0 as usize];
        let _lawful = stored.len();
        let document = whole(
            alloc,
            &self.catalog,
            stored,
            &self.columns,
            &self.cell_ids,
            version.0,
        )?;
        let _kept = document.len();
        Ok(document)
    }

    /// A bit for each version of a page: whether its document has a number of the attribute that meets the comparison.
    pub fn filter_page(&self, id: AttrId, page: u32, test: CompareInt) -> Mask
        requires column { IfSome (slice_get self.now.attributes id.0) (λ a. (a.mark ≡ None) × (a.home ≡ home.Column) × (a.kind ≡ kind.Int)) }
        requires standing { id.0 < length self.now.attributes }
        ensures exact { (w j : ℕ) → w < 16 → j < 64 → is_bit result.words w j ≡ is_met test (value_held self.now (1024 * page + (64 * w + j)) id.0) }
    {
        stored_values_are_told_apart();
        self.columns.filter_page(id, page, test)
    }

    /// Gives an attribute a home. Where that is another one, its values still stand where they did.
    pub fn set_home(&mut self, id: AttrId, home: Home)
        requires standing { id.0 < length self.old.attributes }
        ensures exact { self.new ≡ record { attributes = changed (housed home) id self.old.attributes; history = self.old.history; records = self.old.records; cells = self.old.cells } }
        ensures shows { ShowsTheSame self.old self.new }
    {
        self.catalog.set_home(id, home);
    }

    /// Takes the mark of an attribute away that all versions are behind.
    pub fn clear_dirty(&mut self, id: AttrId)
        requires standing { id.0 < length self.old.attributes }
        requires moved { IfSome (slice_get self.old.attributes id.0) (λ a. a.mark ≡ Some (length self.old.history.versions)) }
        ensures exact { self.new ≡ record { attributes = changed cleared id self.old.attributes; history = self.old.history; records = self.old.records; cells = self.old.cells } }
        ensures shows { ShowsTheSame self.old self.new }
    {
        self.catalog.clear_dirty(id);
    }

    /// Moves what a version holds of a dirty attribute to the attribute's home.
    pub fn move_one(&mut self, id: AttrId, version: VersionId) -> Result<(), AllocError>
        requires attribute { id.0 < length self.old.attributes }
        requires dirty { IfSome (slice_get self.old.attributes id.0) (λ a. IsSome a.mark) }
        requires standing { version.0 < length self.old.history.versions }
        ensures ok { OnOk result (HasStepped id version.0 self.old self.new) }
        ensures shows { ShowsTheSame self.old self.new }
        ensures memory { OnErr result (self.new ≡ self.old) }
    {
        cells_are_a_map();
        self.versions.keeps_order();
        self.catalog.keeps_the_rules();
        let alloc = *self.records.allocator();
        let kind = self.catalog.kind(id);
        let home = self.catalog.home(id);
        self.cell_ids.add(id.0)?;
        let stored = &mut self.records[version.0 as usize];
        move_home(alloc, home, kind, stored, &mut self.columns, id, version.0)?;
        step_mark(&mut self.catalog, id, version.0);
        Ok(())
    }

    /// Ends a version at a commit. It is held by no attribute's count from then on.
    pub fn end_version(&mut self, version: VersionId, commit: u64)
        requires within { version.0 < length self.old.history.versions }
        requires endless { IfSome (slice_get self.old.history.versions version.0) (λ v. (v.end ≡ None) × (v.begin ≤ commit)) }
        ensures exact { HasEnded version.0 commit self.old self.new }
        ensures shows { IfSome (slice_get self.old.history.versions version.0) (λ v. HasWritten commit v.row None self.old self.new) }
    {
        endings_show();
        self.versions.keeps_order();
        lower_all(
            &mut self.catalog,
            &self.records[version.0 as usize],
            &self.columns,
            &self.cell_ids,
            version.0,
        );
        self.versions.end_at(version, commit);
    }

    /// Adds a version of a row, with its document whole in its record.
    pub fn add_version(
        &mut self,
        row: u32,
        document: &Doc,
        commit: u64,
    ) -> Result<VersionId, GrowFault>
        requires row { row ≤ rows_of self.old.history.versions }
        requires latest { IsLatest commit self.old.history.versions }
        requires ended { newest row self.old.history.versions ≡ None }
        requires few { length document.now ≤ most_fields }
        requires light { weight_of document.now ≤ most_weight }
        ensures ok { OnOk result (HasAppended row commit document.now self.old self.new) }
        ensures number { IfOk result (λ id. id ≡ version_at (length self.old.history.versions)) }
        ensures shows { OnOk result (HasWritten commit row (Some document.now) self.old self.new) }
        ensures within { OnOk result ((length self.old.history.versions < most_versions) × (length (with_fields (pairs_of self.old.attributes) document.now) ≤ most_attributes)) }
        ensures full { result ≡ Err GrowFault.Full → (length self.old.history.versions ≡ most_versions) ⊎ (most_attributes < length (with_fields (pairs_of self.old.attributes) document.now)) }
        ensures kept { OnErr result (self.new ≡ self.old) }
    {
        appends_show();
        self.versions.keeps_order();
        let _kept = document.len();
        let alloc = *self.records.allocator();
        let attributes = self.catalog.len();
        let catalog = &mut self.catalog;
        match record_of(alloc, catalog, document, &mut self.entries, &mut self.parts) {
            Ok(record) => match push(&mut self.versions, &mut self.records, record, row, commit) {
                Ok(version) => {
                    write_all(
                        &mut self.catalog,
                        &self.records[version.0 as usize],
                        version.0,
                    );
                    Ok(version)
                }
                Err(fault) => {
                    self.catalog.cut(attributes);
                    Err(fault)
                }
            },
            Err(fault) => {
                self.catalog.cut(attributes);
                Err(fault)
            }
        }
    }

    /// The same with a document that is lent.
    pub fn add_lent(
        &mut self,
        row: u32,
        document: &DocRef<'_>,
        commit: u64,
    ) -> Result<VersionId, GrowFault>
        requires row { row ≤ rows_of self.old.history.versions }
        requires latest { IsLatest commit self.old.history.versions }
        requires ended { newest row self.old.history.versions ≡ None }
        requires few { length document.now ≤ most_fields }
        requires light { weight_of document.now ≤ most_weight }
        ensures ok { OnOk result (HasAppended row commit document.now self.old self.new) }
        ensures number { IfOk result (λ id. id ≡ version_at (length self.old.history.versions)) }
        ensures shows { OnOk result (HasWritten commit row (Some document.now) self.old self.new) }
        ensures within { OnOk result ((length self.old.history.versions < most_versions) × (length (with_fields (pairs_of self.old.attributes) document.now) ≤ most_attributes)) }
        ensures full { result ≡ Err GrowFault.Full → (length self.old.history.versions ≡ most_versions) ⊎ (most_attributes < length (with_fields (pairs_of self.old.attributes) document.now)) }
        ensures kept { OnErr result (self.new ≡ self.old) }
    {
        appends_show();
        self.versions.keeps_order();
        let _kept = document.len();
        let alloc = *self.records.allocator();
        let attributes = self.catalog.len();
        let catalog = &mut self.catalog;
        let followers = &mut self.followers;
        match record_of_lent(
            alloc,
            catalog,
            followers,
            document,
            &mut self.entries,
            &mut self.parts,
        ) {
            Ok(record) => match push(&mut self.versions, &mut self.records, record, row, commit) {
                Ok(version) => {
                    write_all(
                        &mut self.catalog,
                        &self.records[version.0 as usize],
                        version.0,
                    );
                    Ok(version)
                }
                Err(fault) => {
                    self.catalog.cut(attributes);
                    Err(fault)
                }
            },
            Err(fault) => {
                self.catalog.cut(attributes);
                Err(fault)
            }
        }
    }

    /// Takes the newest commit back: its versions and its ends, and the attributes from number `left` on.
    pub fn roll_back(&mut self, commit: u64, left: u32)
        requires latest { IsLatest commit self.old.history.versions }
        requires above { self.old.history.horizon < commit }
        requires within { left ≤ length self.old.attributes }
        requires unheld { (version id : ℕ) → left ≤ id → IfSome (slice_get self.old.history.versions version) (λ v. v.begin < commit → held self.old version id ≡ None) }
        ensures exact { HasRolledBack commit left self.old self.new }
        ensures shows { ShowsAsBefore commit self.old self.new }
    {
        roll_backs_show();
        self.versions.keeps_order();
        raise_reopened(
            &mut self.catalog,
            &self.versions,
            &self.records,
            &self.columns,
            &self.cell_ids,
            commit,
        );
        self.versions.roll_back(commit);
        let len = self.versions.len();
        take_back(
            &mut self.catalog,
            &self.records,
            &mut self.columns,
            &self.cell_ids,
            len,
        );
        self.records.truncate(len as usize);
        self.catalog.cut(left);
        settle_marks(&mut self.catalog, len);
    }

    /// Gives up what a version holds that has ended, and its memory. What rows show below its end is then not known.
    pub fn empty_version(&mut self, version: VersionId)
        requires within { version.0 < length self.old.history.versions }
        requires ended { IfSome (slice_get self.old.history.versions version.0) (λ v. IsSome v.end) }
        ensures exact { HasEmptied version.0 self.old self.new }
        ensures shows { ShowsFromHorizon self.old self.new }
    {
        empties_show();
        let Some(end) = self.versions.end_of(version) else {
            return;
        };
        clear_cells(&mut self.columns, &self.cell_ids, version.0);
        self.records[version.0 as usize].clear();
        self.versions.empty_old(version, end);
    }
}
