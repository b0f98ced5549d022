ghost use Rattle.std.specs.Prelude.{◌≡◌};

use crate::rule::Rule;
use std::alloc::AllocError;

/// Why a statement has no plan.
#[derive(Clone, Copy, Debug, PartialEq, Eq)]
pub enum TypeFault {
    /// The first rule that it breaks.
    Broken(Rule),
    /// Memory was wanting, which also stands for a question that reads more than 2 to the 32 columns. No text spells one.
    Memory,
}

impl From<Rule> for TypeFault {
    ghost use Rattle.type_rules.specs.declared.type_fault.TypeFault.TheVariants.{Broken};

    ghost from_gives = { λ rule fault. fault ≡ Broken rule };

    fn from(rule: Rule) -> TypeFault {
        TypeFault::Broken(rule)
    }
}

impl From<AllocError> for TypeFault {
    ghost use Rattle.type_rules.specs.declared.type_fault.TypeFault.TheVariants.{Memory};

    ghost from_gives = { λ _ fault. fault ≡ Memory };

    fn from(_: AllocError) -> TypeFault {
        TypeFault::Memory
    }
}
