//! The replies of a session, as the text that will be printed.

ghost use Rattle.std.specs.Prelude.{◌≡◌, ◌+◌, ◌<◌, ◌^◌, OnOk, OnErr};
ghost use Rattle.iris.specs.Notes.{is_refused as refused_of};
ghost use Rattle.iris.specs.Said.{saying, silent};

use iris_name::{NoMemory, Reply};
use iris_script::append_reply;
use std::alloc::Global;
use std::marker::Model;

/// What was said so far. Nothing of it is printed before the session has ended.
#[derive(Drop)]
pub struct Replies {
    text: Vec<u8>,
    count: u64,
    refused: bool,
}

impl Model for Replies {
    ghost use Rattle.iris.specs.Said.{Said};

    ghost Value = { Said };

    ghost view = { λ a. record { text = a.text.items; count = a.count; refused = a.refused } };
}

// Whether a reply is a refusal.
fn is_refused(reply: &Reply) -> bool
    ensures { result ≡ refused_of reply.now }
{
    matches!(reply, Reply::Refused(_))
}

impl Replies {
    /// None yet.
    pub fn new(alloc: Global) -> Replies
        ensures { result ≡ silent }
    {
        Replies {
            text: Vec::new(alloc),
            count: 0,
            refused: false,
        }
    }

    /// One reply more.
    pub fn say(&mut self, reply: &Reply) -> Result<(), NoMemory>
        requires { self.old.count + 1 < 2 ^ 64 }
        ensures ok { OnOk result (self.new ≡ saying self.old reply.now) }
        ensures err { OnErr result (self.new ≡ self.old) }
    {
        let number = self.count + 1;
        append_reply(&mut self.text, 1, number, reply)?;
        self.count = number;
        self.refused = self.refused || is_refused(reply);
        Ok(())
    }

    /// The lines to print.
    pub fn text(&self) -> &[u8]
        ensures { result.now ≡ self.now.text }
    {
        self.text.as_slice()
    }

    /// Whether one of them is a refusal.
    pub fn any_refused(&self) -> bool
        ensures { result ≡ self.now.refused }
    {
        self.refused
    }
}
