ghost use Rattle.std.specs.Prelude.{◌≡◌, ◌≤◌, IfOk, map};
ghost use Rattle.row_versions.specs.History.{rows_of};
ghost use Rattle.schema_analyser.specs.Choice.{AreBySurvey, AreChosen, home_by};
ghost use Rattle.shown_rows.specs.Rows.{rows_at};

use crate::choice::Choice;
use crate::limits::Limits;
use crate::survey::Survey;
use attr_catalog::Home;
use doc_values::AttrId;
use layout_store::Layout;
use std::alloc::{AllocError, Global};

/// The homes of the attributes of a survey, by their numbers.
pub fn choose(survey: &Survey, limits: Limits) -> Result<Vec<Choice>, AllocError>
    ensures ok { IfOk result (λ choices. AreBySurvey limits survey.now choices.items) }
{
    let mut choices = Vec::new(survey.allocator());
    for id in 0..survey.len() {
        let id = AttrId(id);
        let (count, distinct) = survey.tally(id);
        let home = home_of(limits, survey.documents(), count, distinct);
        choices.push(Choice { id, home })?;
    }
    Ok(choices)
}

// The home that counts give.
fn home_of(limits: Limits, documents: u32, count: u32, distinct: u32) -> Home
    ensures exact { result ≡ home_by limits documents count distinct }
{
    let wanted = u64::from(limits.density) * u64::from(documents);
    let dense = wanted <= u64::from(count) * 100;
    if documents > 0 && dense && distinct > limits.cardinality {
        Home::Column
    } else {
        Home::Reservoir
    }
}

/// The homes of all attributes over the documents that a collection shows after `now` commits: a survey of all its rows in
/// one piece, and the choice.
pub fn choose_now(
    alloc: Global,
    layout: &Layout,
    now: u64,
    limits: Limits,
) -> Result<Vec<Choice>, AllocError>
    requires now { layout.now.history.horizon ≤ now }
    ensures ok { IfOk result (λ choices. AreChosen limits layout.now.attributes (map (λ row. row.document) (rows_at layout.now now)) choices.items) }
{
    let mut survey = Survey::new(alloc);
    survey.take(layout, now, 0, layout.versions().rows())?;
    choose(&survey, limits)
}
