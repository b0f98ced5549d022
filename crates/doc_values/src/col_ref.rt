ghost use Rattle.std.specs.Prelude.{◌≡◌, IfOk};

use crate::kind::Kind;
use crate::utf::Utf;
use std::alloc::AllocError;

/// A column that is read: a name, and the kind that its values have to be of where one is wanted.
#[derive(Drop)]
pub struct ColRef {
    pub name: Utf,
    pub want: Option<Kind>,
}

impl ColRef {
    /// An equal column of its own.
    pub fn copy(&self) -> Result<ColRef, AllocError>
        ensures ok { IfOk result (λ c. c ≡ self.now) }
    {
        Ok(ColRef {
            name: self.name.copy()?,
            want: self.want,
        })
    }
}
