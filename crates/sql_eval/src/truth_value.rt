ghost use Rattle.std.specs.Prelude.{◌≡◌, option_map};

use row_columns::ValueRef;

/// The three truth values; unknown is the NULL among them.
#[derive(Clone, Copy, Debug, PartialEq, Eq)]
pub enum Truth {
    True,
    False,
    Unknown,
}

impl Truth {
    ghost use Rattle.sql_eval.specs.Truth.{denied, both, either, unless, value_of, tested, truth_of};
    ghost use Rattle.row_columns.specs.Lent.{owned};

    /// The truth of a test, unknown where it could not be made.
    pub fn of(test: Option<bool>) -> Truth
        ensures exact { result ≡ tested test }
    {
        match test {
            Some(true) => Truth::True,
            Some(false) => Truth::False,
            None => Truth::Unknown,
        }
    }

    /// What a value, or NULL, is where a truth value is wanted.
    pub fn of_value(value: Option<ValueRef>) -> Truth
        ensures exact { result ≡ truth_of (option_map owned value.entry) }
    {
        match value {
            Some(ValueRef::Bool(true)) => Truth::True,
            Some(ValueRef::Bool(false)) => Truth::False,
            _ => Truth::Unknown,
        }
    }

    /// As a value, where unknown is NULL.
    pub fn value<'a>(self) -> Option<ValueRef<'a>>
        ensures exact { option_map owned result ≡ value_of self }
    {
        match self {
            Truth::True => Some(ValueRef::Bool(true)),
            Truth::False => Some(ValueRef::Bool(false)),
            Truth::Unknown => None,
        }
    }

    /// NOT.
    pub fn not(self) -> Truth
        ensures exact { result ≡ denied self }
    {
        match self {
            Truth::True => Truth::False,
            Truth::False => Truth::True,
            Truth::Unknown => Truth::Unknown,
        }
    }

    /// AND.
    pub fn and(self, other: Truth) -> Truth
        ensures exact { result ≡ both self other }
    {
        match (self, other) {
            (Truth::False, _) | (_, Truth::False) => Truth::False,
            (Truth::True, Truth::True) => Truth::True,
            _ => Truth::Unknown,
        }
    }

    /// OR.
    pub fn or(self, other: Truth) -> Truth
        ensures exact { result ≡ either self other }
    {
        match (self, other) {
            (Truth::True, _) | (_, Truth::True) => Truth::True,
            (Truth::False, Truth::False) => Truth::False,
            _ => Truth::Unknown,
        }
    }

    /// NOT where a form is negated.
    pub fn unless(self, negated: bool) -> Truth
        ensures exact { result ≡ unless negated self }
    {
        if negated { self.not() } else { self }
    }
}
