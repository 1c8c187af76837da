//! The names, texts, requests, replies and notes that all crates speak of.
#![tactic(auto)]

pub mod bytes;
pub mod name;
pub mod note;
pub mod path;
pub mod request;
pub mod text;
pub mod want;

pub use bytes::{Bytes, PAGE_LEN, Page};
pub use name::{FileId, Hash32, Name};
pub use note::{Answer, Expect, Note};
pub use path::{Path, PathError};
pub use request::{Cause, PlainError, Reply, Request};
pub use text::{Text, Texts};
pub use want::{Failed, NoMemory};
