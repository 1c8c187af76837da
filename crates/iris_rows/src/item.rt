//! The rows of a directory and of those inside it, in preorder: each with its depth.

use crate::file::FileRow;
use iris_name::{FileId, Text};

/// A row: a file, or a directory, whose rows follow it one level deeper.
#[derive(Drop)]
pub struct Item {
    /// How many directories stand above it, apart from the root or the trash.
    pub depth: usize,
    pub id: FileId,
    pub name: Text,
    /// The file, none for a directory.
    pub file: Option<FileRow>,
}
