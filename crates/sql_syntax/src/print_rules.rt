ghost use Rattle.std.specs.Prelude.{◌≡◌, true, false};
ghost use Rattle.sql_syntax.specs.declared.print_tightness.Tightness.{Tightness};
ghost use Rattle.sql_syntax.specs.declared.print_tightness.Tightness.TheVariants as tight;
ghost use Rattle.sql_syntax.specs.Printing.{bracketed, made_by};
ghost use Rattle.sql_syntax.specs.PrintingTerm.{printed};

use crate::print_tightness::Tightness;
use sql_tree::Term;

/// The rule that makes a term.
fn rule_of(term: &Term) -> Tightness
    ensures exact { (asked : Tightness) → printed term.now asked ≡ made_by result (printed term.now tight.Expr) asked }
{
    match term {
        Term::Number(_) => Tightness::Primary,
        Term::Text(_) => Tightness::Primary,
        Term::Bool(_) => Tightness::Primary,
        Term::Null => Tightness::Primary,
        Term::Column(_) => Tightness::Primary,
        Term::Wanted { .. } => Tightness::Primary,
        Term::Or(_) => Tightness::Expr,
        Term::And(_) => Tightness::Conj,
        Term::Not(_) => Tightness::Neg,
        Term::Compare { .. } => Tightness::Neg,
        Term::IsNull { .. } => Tightness::Neg,
        Term::Among { .. } => Tightness::Neg,
        Term::Between { .. } => Tightness::Neg,
        Term::Like { .. } => Tightness::Neg,
        Term::AnyOf { .. } => Tightness::Neg,
        Term::Sum(_) => Tightness::Sum,
        Term::Product(_) => Tightness::Product,
        Term::Minus(_) => Tightness::Unary,
        Term::CountAll => Tightness::Primary,
        Term::Aggregate { .. } => Tightness::Primary,
    }
}

/// Whether a term stands in brackets at a place that asks for a rule.
pub(crate) fn is_bracketed(term: &Term, asked: Tightness) -> bool
    ensures bracketed { result ≡ true → printed term.now asked ≡ bracketed (printed term.now tight.Expr) }
    ensures bare { result ≡ false → printed term.now asked ≡ printed term.now tight.Expr }
{
    rule_of(term).is_looser(asked)
}
