ghost use Rattle.std.specs.Prelude.{◌≡◌, [], IfOk, OnOk, OnErr};

use commit_core::Reply;
use std::alloc::{AllocError, Global};
use std::marker::Model;

/// The lines of a script that are commits, in their order, and the reply to each line.
#[derive(Drop)]
pub struct Ran {
    order: Vec<u32>,
    answers: Vec<Reply>,
}

impl Model for Ran {
    ghost use Rattle.sinew_app.specs.Run.{Run};

    ghost Value = { Run };

    ghost view = { λ r. record { order = r.order.items; answers = r.answers.items } };
}

impl Ran {
    ghost use Rattle.sinew_app.specs.Step.{with_reply};

    /// Nothing is answered yet; there is room for so many answers.
    pub fn with_room(alloc: Global, lines: usize) -> Result<Ran, AllocError>
        ensures ok { IfOk result (λ ran. ran ≡ record { order = []; answers = [] }) }
    {
        Ok(Ran {
            order: Vec::new(alloc),
            answers: Vec::with_capacity(alloc, lines)?,
        })
    }

    /// The positions of the lines that are commits, in their order.
    pub fn order(&self) -> &[u32]
        ensures exact { result.now ≡ self.now.order }
    {
        self.order.as_slice()
    }

    /// The reply to each line.
    pub fn answers(&self) -> &[Reply]
        ensures exact { result.now ≡ self.now.answers }
    {
        self.answers.as_slice()
    }

    /// Appends the reply to the line at a position, which joins the order if it is that of a commit.
    pub fn add(&mut self, position: u32, reply: Reply) -> Result<(), AllocError>
        ensures ok { OnOk result (self.new ≡ with_reply self.old position reply) }
        ensures memory { OnErr result (self.new ≡ self.old) }
    {
        let accepted = reply.accepted;
        self.answers.push(reply)?;
        if accepted && self.order.push(position).is_err() {
            self.answers.pop();
            return Err(AllocError);
        }
        Ok(())
    }
}
