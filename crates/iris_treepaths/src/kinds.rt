//! Which entries are directories.

ghost use Rattle.std.specs.Prelude.{◌≡◌, ◌↔◌, ◌≤◌, IsTrue, Some};
ghost use Rattle.iris_cache.specs.Drafted.{seen};
ghost use Rattle.iris_treepaths.specs.Needs.{IsDirectory, IsDirNode};

use iris_cache::{Cache, Draft};
use iris_name::{FileId, Name};
use iris_node::{Body, Node};

fn is_dir_node(node: &Node) -> bool
    ensures { IsTrue result ↔ IsDirNode (Some node.now) }
{
    match node {
        Node::Entry(entry) => match entry.body {
            Body::Dir { .. } => true,
            Body::File { .. } => false,
        },
        Node::Part(_) => false,
    }
}

/// Whether the entry of a directory is in draft or cache, as a directory. Those of the roots may be absent.
pub fn is_directory(draft: &Draft, cache: &Cache, dir: FileId) -> bool
    ensures { IsTrue result ↔ IsDirectory draft.now cache.now dir }
{
    if dir.0 < 2 {
        return true;
    }
    match draft.view(cache, &Name::Entry { id: dir }) {
        Some(node) => is_dir_node(node),
        None => false,
    }
}
