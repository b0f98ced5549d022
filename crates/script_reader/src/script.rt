ghost use Rattle.std.specs.Prelude.{◌≡◌, List};

use crate::line::Line;
use std::marker::Model;

/// The lines of a script, in order; only `read_script` makes one.
#[derive(Drop)]
pub struct Script {
    lines: Vec<Line>,
}

impl Model for Script {
    ghost use Rattle.std.specs.Prelude.{List};
    ghost use Rattle.script_reader.specs.declared.line.Line.{Line as LineOf};
    ghost use Rattle.script_reader.specs.Script.{IsScript};

    ghost Value = { List LineOf };

    ghost view = { λ s. s.lines.items };

    ghost invariant = { λ s. IsScript s.lines.items };
}

impl Script {
    ghost use Rattle.script_reader.specs.Script.{IsScript};

    pub(crate) fn new(lines: Vec<Line>) -> Script
        requires { IsScript lines.items }
        ensures exact { result ≡ lines.items }
    {
        Script { lines }
    }

    /// The lines.
    pub fn items(&self) -> &[Line]
        ensures exact { result.now ≡ self.now }
        ensures kept { IsScript self.now }
    {
        self.lines.as_slice()
    }
}
