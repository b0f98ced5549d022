ghost use Rattle.std.specs.Prelude.{◌≡◌, List, ℕ};

use crate::planned::Planned;
use crate::prepared_sort::PreparedSort;
use doc_values::Utf;
use std::marker::Model;

/// A text with all that can be known of it before any store is looked at; seen as the text.
#[derive(Drop)]
pub struct Prepared {
    text: Utf,
    planned: Planned,
}

impl Model for Prepared {
    ghost use Rattle.std.specs.Prelude.{◌≡◌, List, ℕ};
    ghost use Rattle.commit_core.specs.Plan.{plan_of};
    ghost use Rattle.commit_core.specs.Planned.{StandsFor};

    ghost Value = { List ℕ };

    ghost view = { λ p. p.text };

    ghost invariant = { λ p. StandsFor p.planned (plan_of p.text) };
}

impl Prepared {
    ghost use Rattle.commit_core.specs.Plan.{plan_of};
    ghost use Rattle.commit_core.specs.Planned.{StandsFor};
    ghost use Rattle.commit_core.specs.Agreement.{sort_of};

    /// A text with what it comes to.
    pub(crate) fn new(text: Utf, planned: Planned) -> Prepared
        requires { StandsFor planned (plan_of text) }
        ensures exact { result ≡ text }
    {
        Prepared { text, planned }
    }

    /// What the text is.
    pub fn sort(&self) -> PreparedSort
        ensures exact { result ≡ sort_of (plan_of self.now) }
    {
        match &self.planned {
            Planned::Refused(_) => PreparedSort::Refused,
            Planned::Read(_) => PreparedSort::Read,
            Planned::Write { .. } => PreparedSort::Write,
        }
    }

    /// The text.
    pub(crate) fn text(&self) -> &Utf
        ensures exact { result.now ≡ self.now }
    {
        &self.text
    }

    /// What the text comes to.
    pub(crate) fn planned(&self) -> &Planned
        ensures exact { StandsFor result.now (plan_of self.now) }
    {
        &self.planned
    }
}
