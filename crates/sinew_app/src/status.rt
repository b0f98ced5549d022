ghost use Rattle.std.specs.Prelude.{◌≡◌};

use sinew_io::Written;
use std::alloc::AllocError;

/// How a run ended.
#[derive(Clone, Copy, Debug, PartialEq, Eq)]
pub enum Status {
    /// The script was run and its output written.
    Done,
    /// The words of the command line are refused.
    Words,
    /// The input is no script.
    Script,
    /// The input could not be read.
    Read,
    /// The output could not be written.
    Write,
    /// Memory was wanting.
    Memory,
}

impl Status {
    ghost use Rattle.sinew_app.specs.Status.{code_of, status_after};

    /// The status after a text was to be written: the one given where it was written whole.
    pub(crate) fn after(whole: Status, written: Result<Written, AllocError>) -> Status
        ensures exact { result ≡ status_after whole written }
    {
        match written {
            Ok(Written::Done) => whole,
            Ok(Written::Failed(_)) => Status::Write,
            Err(_) => Status::Memory,
        }
    }

    /// The code with which a program that ended so exits.
    pub fn code(&self) -> u8
        ensures exact { result ≡ code_of self.now }
    {
        match self {
            Status::Done => 0,
            Status::Words => 2,
            Status::Script => 3,
            Status::Read => 4,
            Status::Write => 5,
            Status::Memory => 6,
        }
    }
}
