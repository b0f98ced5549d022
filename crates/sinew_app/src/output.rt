ghost use Rattle.std.specs.Prelude.{◌≡◌, ◌++◌, [], decimal, option_copied, IfOk};

use commit_core::Reply;
use itoa::Buffer;
use script_reader::{Line, ScriptFault};
use std::alloc::{AllocError, Global};
use std::marker::Model;

/// The output of a run, as far as it is made; seen as its bytes.
#[derive(Drop)]
pub struct Output {
    bytes: Vec<u8>,
}

impl Model for Output {
    ghost use Rattle.std.specs.Prelude.{ℕ, List};

    ghost Value = { List ℕ };

    ghost view = { λ o. o.bytes.items };
}

impl Output {
    ghost use Rattle.sinew_app.specs.Printing.{name_of, name_in, reply_text, commit_text, count_text, refusal_text};

    pub fn new(alloc: Global) -> Output
        ensures exact { result ≡ [] }
    {
        Output {
            bytes: Vec::new(alloc),
        }
    }

    pub fn bytes(&self) -> &[u8]
        ensures exact { result.now ≡ self.now }
    {
        self.bytes.as_slice()
    }

    /// With the answer to a line.
    pub fn answer(self, line: &Line, reply: &Reply) -> Result<Output, AllocError>
        ensures ok { IfOk result (λ out. out ≡ self ++ reply_text line.now reply.now) }
    {
        self.text("#")?
            .name(line)?
            .text(" @")?
            .number(reply.at)?
            .text("\n")?
            .piece(reply.body.items())
    }

    /// With the line of a commit.
    pub fn commit(self, number: u64, line: Option<&Line>) -> Result<Output, AllocError>
        ensures ok { IfOk result (λ out. out ≡ self ++ commit_text number (option_copied line.entry)) }
    {
        let out = self.text("= ")?.number(number)?.text(" ")?;
        match line {
            Some(line) => out.name(line)?.text("\n"),
            None => out.text("\n"),
        }
    }

    /// With the line that counts the commits.
    pub fn count(self, commits: u64) -> Result<Output, AllocError>
        ensures ok { IfOk result (λ out. out ≡ self ++ count_text commits) }
    {
        self.text(". ")?.number(commits)?.text("\n")
    }

    /// With the line for bytes that are no script.
    pub fn refusal(self, fault: &ScriptFault) -> Result<Output, AllocError>
        ensures ok { IfOk result (λ out. out ≡ self ++ refusal_text fault.now) }
    {
        self.text("? script ")?
            .number(u64::from(fault.line))?
            .text(" ")?
            .text(fault.why.word())?
            .text("\n")
    }

    fn name(self, line: &Line) -> Result<Output, AllocError>
        ensures ok { IfOk result (λ out. out ≡ self ++ name_of line.now) }
    {
        self.number(u64::from(line.session))?
            .text(".")?
            .number(u64::from(line.place))
    }

    fn number(self, number: u64) -> Result<Output, AllocError>
        ensures ok { IfOk result (λ out. out ≡ self ++ decimal number) }
    {
        self.text(Buffer::new().format(number))
    }

    fn text(self, text: &str) -> Result<Output, AllocError>
        ensures ok { IfOk result (λ out. out ≡ self ++ text.now) }
    {
        self.piece(text.as_bytes())
    }

    fn piece(mut self, piece: &[u8]) -> Result<Output, AllocError>
        ensures ok { IfOk result (λ out. out ≡ self ++ piece.now) }
    {
        self.bytes.extend_from_slice(piece)?;
        Ok(self)
    }
}
