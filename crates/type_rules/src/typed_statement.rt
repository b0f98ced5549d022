use doc_values::Utf;
use sql_eval::{DeletePlan, SelectPlan, UpdatePlan};

/// A statement that keeps the rules, its columns places in rows.
#[derive(Drop)]
pub enum Typed {
    Load { collection: Utf, json: Utf },
    Select(SelectPlan),
    Update(UpdatePlan),
    Delete(DeletePlan),
}
