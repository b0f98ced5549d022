ghost use Rattle.std.specs.Prelude.{◌≡◌, [], ◌∷◌, ◌++◌, true, OnOk};
ghost use Rattle.sql_grammar.specs.declared.mark.Mark.TheVariants as marks;
ghost use Rattle.sql_grammar.specs.declared.terminal.Terminal.TheVariants as terminal;
ghost use Rattle.sql_syntax.specs.declared.print_tightness.Tightness.TheVariants as tight;
ghost use Rattle.sql_syntax.specs.Printing.{bracketed, denial_printed, reference_printed};
ghost use Rattle.sql_syntax.specs.PrintingTerm.{is_in_between_or_like, printed};
ghost use Rattle.sql_syntax.specs.PrintingText.{spaced};

use crate::print_leaves::{write_denial, write_reference};
use crate::print_terminals::{write_mark, write_text};
use crate::print_terms::{write_behind, write_members, write_term};
use crate::print_tightness::Tightness;
use sql_grammar::Mark;
use sql_tree::{Ref, Term};
use std::alloc::AllocError;

/// Writes IN, BETWEEN or LIKE, without brackets around it.
#[cycle(print)]
pub(crate) fn write_test(out: &mut Vec<u8>, term: &Term) -> Result<(), AllocError>
    requires { is_in_between_or_like term.now ≡ true }
    ensures ok { OnOk result (out.new.items ≡ out.old.items ++ spaced (printed term.now tight.Expr)) }
{
    match term {
        Term::Among {
            arg,
            members,
            negated,
        } => {
            write_term(out, arg.get(), Tightness::Sum)?;
            write_denial(out, *negated)?;
            write_members(out, members.as_slice())?;
            Ok(())
        }
        Term::Between {
            arg,
            low,
            high,
            negated,
        } => {
            write_term(out, arg.get(), Tightness::Sum)?;
            write_denial(out, *negated)?;
            write_behind(out, Mark::Between, low.get(), Tightness::Sum)?;
            write_behind(out, Mark::And, high.get(), Tightness::Sum)?;
            Ok(())
        }
        Term::Like {
            arg,
            pattern,
            negated,
        } => write_like(out, arg.get(), pattern.text(), *negated),
        _ => unreachable!(),
    }
}

/// Writes a test for NULL.
#[cycle(print)]
pub(crate) fn write_is_null(out: &mut Vec<u8>, arg: &Term, negated: bool) -> Result<(), AllocError>
    ensures ok { OnOk result (out.new.items ≡ out.old.items ++ spaced (printed arg.now tight.Sum ++ terminal.Mark marks.Is ∷ (denial_printed negated ++ terminal.Mark marks.Null ∷ []))) }
{
    write_term(out, arg, Tightness::Sum)?;
    write_mark(out, Mark::Is)?;
    write_denial(out, negated)?;
    write_mark(out, Mark::Null)?;
    Ok(())
}

/// Writes a test against a pattern.
#[cycle(print)]
fn write_like(out: &mut Vec<u8>, arg: &Term, pattern: &str, negated: bool) -> Result<(), AllocError>
    ensures ok { OnOk result (out.new.items ≡ out.old.items ++ spaced (printed arg.now tight.Sum ++ (denial_printed negated ++ terminal.Mark marks.Like ∷ terminal.Text pattern.now ∷ []))) }
{
    write_term(out, arg, Tightness::Sum)?;
    write_denial(out, negated)?;
    write_mark(out, Mark::Like)?;
    write_text(out, pattern)?;
    Ok(())
}

/// Writes a test against the elements of an array.
#[cycle(print)]
pub(crate) fn write_any_of(out: &mut Vec<u8>, arg: &Term, column: &Ref) -> Result<(), AllocError>
    ensures ok { OnOk result (out.new.items ≡ out.old.items ++ spaced (printed arg.now tight.Sum ++ terminal.Mark marks.Equal ∷ terminal.Mark marks.Any ∷ bracketed (reference_printed column.now))) }
{
    write_term(out, arg, Tightness::Sum)?;
    write_mark(out, Mark::Equal)?;
    write_mark(out, Mark::Any)?;
    write_mark(out, Mark::Open)?;
    write_reference(out, column)?;
    write_mark(out, Mark::Close)?;
    Ok(())
}
