// Laws of records and their documents.
ghost use Rattle.document_records.specs.Laws.{DocumentsAreKept, RecordsAreDocuments};

use doc_values::documents_are_maps;

/// Law: a record of the fields of a document, in whichever order, stands for that document.
pub fn records_keep_documents()
    ensures law { DocumentsAreKept }
{
    documents_are_maps();
}

/// Law: what is found in a record under a name is what its document has there.
pub fn records_are_their_documents()
    ensures law { RecordsAreDocuments }
{
    documents_are_maps();
}
