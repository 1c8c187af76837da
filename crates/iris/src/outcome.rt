//! How a run of the registers ended.

use iris_log::Log;
use iris_store::Store;

/// How a run ended: its status, the line that a status 2 speaks of (0 for the words), and what was handed in.
#[derive(Drop)]
pub struct Registers<S: Store, G: Log> {
    pub status: u8,
    pub line: u64,
    pub link: S,
    pub log: G,
}
