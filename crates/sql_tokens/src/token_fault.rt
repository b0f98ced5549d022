ghost use Rattle.std.specs.Prelude.{◌≡◌};
ghost use Rattle.sql_tokens.specs.declared.token_fault.TokenFault.TheVariants.{Memory};

use std::alloc::{AllocError, AllocFailed};

/// Why no tokens were given.
#[derive(Clone, Copy, Debug, PartialEq, Eq)]
pub enum TokenFault {
    /// The text has no list of tokens.
    Syntax,
    /// Memory was wanting.
    Memory,
}

impl From<AllocError> for TokenFault {
    ghost from_gives = { λ _ e. e ≡ Memory };

    fn from(_error: AllocError) -> TokenFault {
        TokenFault::Memory
    }
}

impl<T: Drop> From<AllocFailed<T>> for TokenFault {
    ghost from_gives = { λ _ e. e ≡ Memory };

    fn from(_error: AllocFailed<T>) -> TokenFault {
        TokenFault::Memory
    }
}
