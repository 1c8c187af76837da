//! Replies are values that the program can hold.

ghost use Rattle.std.specs.Prelude.{All};
ghost use Rattle.std.specs.Str.{IsUtf8};
ghost use Rattle.iris_history.specs.Values.{AreBytes, IsReply};

use iris_name::{Reply, Text};

// proof only: bytes are below 256.
fn are_bytes(bytes: &[u8])
    ensures { AreBytes bytes.now }
{}

// proof only: a text is UTF-8.
fn is_text(text: &str)
    ensures { IsUtf8 text.now }
{}

// proof only: so is each of several.
fn are_texts(texts: &[Text])
    ensures { All IsUtf8 texts.now }
{
    for text in texts {
        is_text(text.as_str());
    }
}

// proof only: the texts of a reply are texts, and its bytes are bytes.
pub(crate) fn is_reply(reply: &Reply)
    ensures { IsReply reply.now }
{
    match reply {
        Reply::Bytes(bytes) => are_bytes(bytes.as_slice()),
        Reply::Names(names) => are_texts(names.as_slice()),
        Reply::Digest(hash) => are_bytes(&hash.0),
        Reply::Done
        | Reply::Stat { .. }
        | Reply::Synced
        | Reply::Reclaimed { .. }
        | Reply::Probed { .. }
        | Reply::Plain(_)
        | Reply::Refused(_) => {}
    }
}
