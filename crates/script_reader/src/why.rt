ghost use Rattle.std.specs.Prelude.{◌≡◌};

/// Why bytes are no script.
#[derive(Clone, Copy, Debug, PartialEq, Eq)]
pub enum Why {
    /// There are more bytes than a script may have.
    Size,
    /// There are more lines than a script may have.
    Lines,
    /// A line has more bytes than it may have.
    Long,
    /// A line is not UTF-8.
    Utf8,
    /// A line is neither blank nor a remark, and does not begin with a session number.
    Session,
    /// Behind the word `after` stands no name of a line above.
    After,
}

impl Why {
    ghost use Rattle.script_reader.specs.Why.{word_of};

    /// The word that is printed for it.
    pub fn word(&self) -> &'static str
        ensures exact { result.now ≡ word_of self.now }
    {
        match self {
            Why::Size => "size",
            Why::Lines => "lines",
            Why::Long => "long",
            Why::Utf8 => "utf8",
            Why::Session => "session",
            Why::After => "after",
        }
    }
}
