ghost use Rattle.std.specs.Prelude.{◌≡◌, [], ◌∷◌, ◌++◌, OnOk, if◌then◌else◌};
ghost use Rattle.sql_grammar.specs.declared.mark.Mark.TheVariants as marks;
ghost use Rattle.sql_grammar.specs.declared.terminal.Terminal.TheVariants as terminal;
ghost use Rattle.sql_tree.specs.declared.agg_call.AggCall.TheVariants as calls;
ghost use Rattle.sql_syntax.specs.Printing.{call_printed, call_word, denial_printed, kind_word, mark_of, reference_printed, truth_mark};
ghost use Rattle.sql_syntax.specs.PrintingText.{spaced};

use crate::print_terminals::{write_mark, write_name, write_word};
use doc_values::{CompareOp, Kind};
use sql_grammar::Mark;
use sql_tree::{AggCall, Ref};
use std::alloc::AllocError;

/// Writes a column.
pub(crate) fn write_reference(out: &mut Vec<u8>, column: &Ref) -> Result<(), AllocError>
    ensures ok { OnOk result (out.new.items ≡ out.old.items ++ spaced (reference_printed column.now)) }
{
    if let Some(qualifier) = &column.qualifier {
        write_word(out, qualifier.text())?;
        write_mark(out, Mark::Dot)?;
        write_name(out, column.name.text())?;
    } else {
        write_name(out, column.name.text())?;
    }
    Ok(())
}

/// Writes a column that is wanted to be of a kind.
pub(crate) fn write_wanted(out: &mut Vec<u8>, kind: Kind, column: &Ref) -> Result<(), AllocError>
    ensures ok { OnOk result (out.new.items ≡ out.old.items ++ spaced (call_printed (kind_word kind) (reference_printed column.now))) }
{
    write_word(out, kind_word(kind))?;
    write_mark(out, Mark::Open)?;
    write_reference(out, column)?;
    write_mark(out, Mark::Close)?;
    Ok(())
}

/// Writes NOT, where something is denied.
pub(crate) fn write_denial(out: &mut Vec<u8>, negated: bool) -> Result<(), AllocError>
    ensures ok { OnOk result (out.new.items ≡ out.old.items ++ spaced (denial_printed negated)) }
{
    if negated {
        write_mark(out, Mark::Not)?;
    }
    Ok(())
}

/// Writes the word of an aggregate.
pub(crate) fn write_aggregate_word(out: &mut Vec<u8>, call: AggCall) -> Result<(), AllocError>
    ensures ok { OnOk result (out.new.items ≡ out.old.items ++ spaced (terminal.Word (call_word call) ∷ [])) }
{
    write_word(out, call_word(call))?;
    Ok(())
}

/// Writes the number of rows.
pub(crate) fn write_count_all(out: &mut Vec<u8>) -> Result<(), AllocError>
    ensures ok { OnOk result (out.new.items ≡ out.old.items ++ spaced (call_printed (call_word calls.Count) (terminal.Mark marks.Star ∷ []))) }
{
    write_aggregate_word(out, AggCall::Count)?;
    write_mark(out, Mark::Open)?;
    write_mark(out, Mark::Star)?;
    write_mark(out, Mark::Close)?;
    Ok(())
}

/// The mark of a truth value.
pub(crate) fn truth_mark(value: bool) -> Mark
    ensures exact { result ≡ truth_mark value }
{
    if value { Mark::True } else { Mark::False }
}

/// The mark before a member of a sum.
pub(crate) fn sign_mark(minus: bool) -> Mark
    ensures exact { result ≡ (if minus then marks.Minus else marks.Plus) }
{
    if minus { Mark::Minus } else { Mark::Plus }
}

/// The mark of a comparison.
pub(crate) fn mark_of(op: CompareOp) -> Mark
    ensures exact { result ≡ mark_of op }
{
    match op {
        CompareOp::Eq => Mark::Equal,
        CompareOp::Ne => Mark::NotEqual,
        CompareOp::Lt => Mark::Less,
        CompareOp::Le => Mark::LessEqual,
        CompareOp::Gt => Mark::Greater,
        CompareOp::Ge => Mark::GreaterEqual,
    }
}

/// The word that asks for a kind.
fn kind_word(kind: Kind) -> &'static str
    ensures exact { result.now ≡ kind_word kind }
{
    match kind {
        Kind::Int => "INT",
        Kind::Text => "TEXT",
        Kind::Bool => "BOOL",
        Kind::Array => "ARRAY",
        Kind::Object => "OBJECT",
    }
}

/// The word of an aggregate.
fn call_word(call: AggCall) -> &'static str
    ensures exact { result.now ≡ call_word call }
{
    match call {
        AggCall::Count => "COUNT",
        AggCall::Sum => "SUM",
        AggCall::Min => "MIN",
        AggCall::Max => "MAX",
    }
}
