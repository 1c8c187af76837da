//! The texts that clients see: scripts of requests, and the printed lines of replies.
#![tactic(auto)]

pub mod cut;
pub mod digits;
mod grow;
pub mod number;
pub mod path;
pub mod reply;
mod request;
pub mod script;

pub use cut::{cut_at, first_line, split_words, strip_return};
pub use digits::{read_bytes, read_hex};
pub use number::read_number;
pub use path::read_path;
pub use reply::{append_reply, print_reply};
pub use script::{Everything, Script, ScriptError, Service, read_script, read_script_for};
