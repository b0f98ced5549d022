ghost use Rattle.std.specs.Prelude.{◌≡◌, ℕ, Ok, Err, IfOk, IfErr, All};
ghost use Rattle.std.specs.List.{list_all};
ghost use Rattle.serde_json.specs.View.{view, items_view};
ghost use Rattle.doc_flatten.specs.Documents.{is_object, documents_of, documents_in, documents_from, IsWithinLimits};

use crate::flatten_fault::FlattenFault;
use crate::flattening::Flattening;
use crate::load_fault::LoadFault;
use doc_values::Documents;
use serde_json::Value as Json;
use std::alloc::Global;
use std::slice;

/// Reads the documents of a JSON text: one object (RFC 8259), or an array of objects.
pub fn read_docs(alloc: Global, text: &str) -> Result<Documents, LoadFault>
    ensures ok { IfOk result (λ docs. documents_of text.now ≡ Ok docs) }
    ensures kept { IfOk result (λ docs. All IsWithinLimits docs) }
    ensures json { IfErr result (λ e. (d : ℕ) → e ≡ LoadFault.Json d
        → documents_of text.now ≡ Err d) }
{
    match Json::from_str(alloc, text) {
        Ok(tree) => documents_in(alloc, &tree),
        Err(error) if error.is_memory() => Err(LoadFault::Memory),
        Err(_) => Err(LoadFault::Json(0)),
    }
}

// The documents of a tree.
fn documents_in(alloc: Global, tree: &Json) -> Result<Documents, LoadFault>
    ensures ok { IfOk result (λ docs. documents_in (view tree.now) ≡ Ok docs) }
    ensures json { IfErr result (λ e. (d : ℕ) → e ≡ LoadFault.Json d
        → documents_in (view tree.now) ≡ Err d) }
{
    match tree {
        Json::Object(_) => documents(alloc, slice::from_ref(tree)),
        Json::Array(trees) => {
            if !are_objects(trees) {
                return Err(LoadFault::Json(0));
            }
            documents(alloc, trees)
        }
        Json::Null | Json::Bool(_) | Json::Number(_) | Json::String(_) => Err(LoadFault::Json(0)),
    }
}

fn are_objects(trees: &[Json]) -> bool
    ensures exact { result ≡ list_all (λ tree. is_object (view tree)) trees.now }
{
    trees.iter().all(Json::is_object)
}

// The documents that trees are.
fn documents(alloc: Global, trees: &[Json]) -> Result<Documents, LoadFault>
    ensures ok { IfOk result (λ docs. documents_from 1 (items_view trees.now) ≡ Ok docs) }
    ensures json { IfErr result (λ e. (d : ℕ) → e ≡ LoadFault.Json d
        → documents_from 1 (items_view trees.now) ≡ Err d) }
{
    let mut docs = Documents::new(alloc);
    let mut flattening = Flattening::new(alloc);
    for (before, tree) in trees.iter().enumerate() {
        match flattening.read(tree) {
            Ok(()) => docs.push(&flattening.doc)?,
            Err(FlattenFault::Excluded) => return Err(LoadFault::Json(before as u64 + 1)),
            Err(FlattenFault::Memory) => return Err(LoadFault::Memory),
        }
    }
    Ok(docs)
}
