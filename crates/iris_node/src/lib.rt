//! The nodes of the tree, and their records: each node has one spelling.
#![tactic(auto)]

pub mod fields;
pub mod laws;
pub mod node;
pub mod reading;
pub mod rules;
pub mod sheet;
pub mod writing;

pub use laws::{one_spelling, sizes, walk_counts};
pub use node::{
    Body, EntryNode, Link, MOST_LENGTH, MOST_LEVEL, Node, PartNode, Side, is_same_node,
};
pub use reading::decode;
pub use rules::is_file_name;
pub use sheet::RECORD_MOST;
pub use writing::{encode, encode_into, hash_of, node_hash};
