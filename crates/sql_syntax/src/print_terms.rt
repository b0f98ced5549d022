ghost use Rattle.std.specs.Prelude.{◌≡◌, [], ◌∷◌, ◌++◌, drop, map, OnOk};
ghost use Rattle.sql_grammar.specs.declared.mark.Mark.TheVariants as marks;
ghost use Rattle.sql_grammar.specs.declared.terminal.Terminal.TheVariants as terminal;
ghost use Rattle.sql_syntax.specs.declared.print_tightness.Tightness.TheVariants as tight;
ghost use Rattle.sql_syntax.specs.Printing.{addends_printed, all_at, bracketed, call_printed, call_word, each_behind, joined_by, sum_printed};
ghost use Rattle.sql_syntax.specs.PrintingTerm.{member_printed, printed};
ghost use Rattle.sql_syntax.specs.PrintingText.{spaced};

use crate::print_leaves::{
    mark_of, sign_mark, truth_mark, write_aggregate_word, write_count_all, write_reference,
    write_wanted,
};
use crate::print_rules::is_bracketed;
use crate::print_terminals::{write_mark, write_number, write_text};
use crate::print_tests::{write_any_of, write_is_null, write_test};
use crate::print_tightness::Tightness;
use sql_grammar::Mark;
use sql_tree::{Addend, AggCall, Term};
use std::alloc::AllocError;

/// Writes a term at a place that asks for a rule.
#[cycle(print)]
pub(crate) fn write_term(out: &mut Vec<u8>, term: &Term, asked: Tightness) -> Result<(), AllocError>
    ensures ok { OnOk result (out.new.items ≡ out.old.items ++ spaced (printed term.now asked)) }
{
    let brackets = is_bracketed(term, asked);
    if brackets {
        write_mark(out, Mark::Open)?;
        write_node(out, term)?;
        write_mark(out, Mark::Close)?;
    } else {
        write_node(out, term)?;
    }
    Ok(())
}

/// Writes a term without brackets around it.
#[cycle(print)]
fn write_node(out: &mut Vec<u8>, term: &Term) -> Result<(), AllocError>
    ensures ok { OnOk result (out.new.items ≡ out.old.items ++ spaced (printed term.now tight.Expr)) }
{
    match term {
        Term::Number(number) => write_number(out, *number),
        Term::Text(value) => write_text(out, value.text()),
        Term::Bool(value) => write_mark(out, truth_mark(*value)),
        Term::Null => write_mark(out, Mark::Null),
        Term::Column(column) => write_reference(out, column),
        Term::Wanted { kind, column } => write_wanted(out, *kind, column),
        Term::Or(terms) => write_chain(out, Mark::Or, terms.as_slice(), Tightness::Conj),
        Term::And(terms) => write_chain(out, Mark::And, terms.as_slice(), Tightness::Neg),
        Term::Not(arg) => write_behind(out, Mark::Not, arg.get(), Tightness::Neg),
        Term::Compare { op, left, right } => {
            write_term(out, left.get(), Tightness::Sum)?;
            write_behind(out, mark_of(*op), right.get(), Tightness::Sum)?;
            Ok(())
        }
        Term::IsNull { arg, negated } => write_is_null(out, arg.get(), *negated),
        Term::Among { .. } | Term::Between { .. } | Term::Like { .. } => write_test(out, term),
        Term::AnyOf { arg, column } => write_any_of(out, arg.get(), column),
        Term::Sum(members) => write_sum(out, members.as_slice()),
        Term::Product(terms) => write_chain(out, Mark::Star, terms.as_slice(), Tightness::Unary),
        Term::Minus(arg) => write_behind(out, Mark::Minus, arg.get(), Tightness::Unary),
        Term::CountAll => write_count_all(out),
        Term::Aggregate { call, arg } => write_aggregate(out, *call, arg.get()),
    }
}

/// Writes a term behind a mark.
#[cycle(print)]
pub(crate) fn write_behind(
    out: &mut Vec<u8>,
    mark: Mark,
    term: &Term,
    asked: Tightness,
) -> Result<(), AllocError>
    ensures ok { OnOk result (out.new.items ≡ out.old.items ++ spaced (terminal.Mark mark ∷ printed term.now asked)) }
{
    write_mark(out, mark)?;
    write_term(out, term, asked)?;
    Ok(())
}

/// Writes an aggregate.
#[cycle(print)]
fn write_aggregate(out: &mut Vec<u8>, call: AggCall, arg: &Term) -> Result<(), AllocError>
    ensures ok { OnOk result (out.new.items ≡ out.old.items ++ spaced (call_printed (call_word call) (printed arg.now tight.Expr))) }
{
    write_aggregate_word(out, call)?;
    write_bracketed(out, arg)?;
    Ok(())
}

/// Writes an expression in brackets.
#[cycle(print)]
fn write_bracketed(out: &mut Vec<u8>, term: &Term) -> Result<(), AllocError>
    ensures ok { OnOk result (out.new.items ≡ out.old.items ++ spaced (bracketed (printed term.now tight.Expr))) }
{
    write_behind(out, Mark::Open, term, Tightness::Expr)?;
    write_mark(out, Mark::Close)?;
    Ok(())
}

/// Writes terms with a mark between them.
#[cycle(print)]
fn write_chain(
    out: &mut Vec<u8>,
    mark: Mark,
    terms: &[Term],
    asked: Tightness,
) -> Result<(), AllocError>
    ensures ok { OnOk result (out.new.items ≡ out.old.items ++ spaced (joined_by mark (all_at asked (map printed terms.now)))) }
{
    if let [first, ..] = terms {
        write_term(out, first, asked)?;
        write_others(out, mark, terms, asked)?;
    }
    Ok(())
}

/// Writes the terms after the first, each behind a mark.
#[cycle(print)]
fn write_others(
    out: &mut Vec<u8>,
    mark: Mark,
    terms: &[Term],
    asked: Tightness,
) -> Result<(), AllocError>
    ensures ok { OnOk result (out.new.items ≡ out.old.items ++ spaced (each_behind mark (all_at asked (map printed (drop 1 terms.now))))) }
{
    for i in 1..terms.len() {
        write_behind(out, mark, &terms[i], asked)?;
    }
    Ok(())
}

/// Writes the members that a test names, behind IN.
#[cycle(print)]
pub(crate) fn write_members(out: &mut Vec<u8>, terms: &[Term]) -> Result<(), AllocError>
    ensures ok { OnOk result (out.new.items ≡ out.old.items ++ spaced (terminal.Mark marks.In ∷ bracketed (joined_by marks.Comma (all_at tight.Expr (map printed terms.now))))) }
{
    write_mark(out, Mark::In)?;
    write_mark(out, Mark::Open)?;
    write_chain(out, Mark::Comma, terms, Tightness::Expr)?;
    write_mark(out, Mark::Close)?;
    Ok(())
}

/// Writes the members of a sum.
#[cycle(print)]
fn write_sum(out: &mut Vec<u8>, members: &[Addend]) -> Result<(), AllocError>
    ensures ok { OnOk result (out.new.items ≡ out.old.items ++ spaced (sum_printed (map member_printed members.now))) }
{
    if let [first, ..] = members {
        write_term(out, &first.term, Tightness::Product)?;
        write_addends(out, members)?;
    }
    Ok(())
}

/// Writes the members of a sum after the first, each behind its sign.
#[cycle(print)]
fn write_addends(out: &mut Vec<u8>, members: &[Addend]) -> Result<(), AllocError>
    ensures ok { OnOk result (out.new.items ≡ out.old.items ++ spaced (addends_printed (map member_printed (drop 1 members.now)))) }
{
    for i in 1..members.len() {
        let member = &members[i];
        write_behind(
            out,
            sign_mark(member.minus),
            &member.term,
            Tightness::Product,
        )?;
    }
    Ok(())
}
