//! What is read of paths.

ghost use Rattle.std.specs.Prelude.{◌≡◌, ℕ, List, IfOk, IfErr};
ghost use Rattle.iris_node.specs.Trees.{Shown};
ghost use Rattle.iris_name.specs.declared.request.Reply.TheVariants.{Stat};
ghost use Rattle.iris_plain.specs.declared.checks.Seen.{Seen as MetSeen};
ghost use Rattle.iris_plain.specs.Checks.{unresolved, is_directory_seen, size_of};
ghost use Rattle.iris_plain.specs.Steps.{Judged};
ghost use Rattle.iris_cache.specs.Drafted.{seen};
ghost use Rattle.iris_paths.specs.Pictured.{Pictured, AreInSight, IsOnTrail, IsPathLack, IsPathShort, every};
ghost use Rattle.iris_paths.specs.Following.{standing_node, standing_seen, met_seen};
ghost use Rattle.iris_paths.specs.declared.resolving.Found.{Found as Come};
ghost use Rattle.iris_paths.specs.Resolving.{Resolves};
ghost use Rattle.iris_paths.specs.Entering.{no_directory};
ghost use Rattle.iris_paths.specs.Listing.{IsListing, IsListed};

use crate::entering::{Place, enter};
use crate::resolving::{Found, follow};
use iris_cache::{Cache, Draft, Short};
use iris_dirtree::plan_after;
use iris_name::{FileId, Name, Path, Reply, Text};
use iris_node::{Body, Node};
use iris_plain::checks::{Seen, is_dir, size_of, stat_checks};
use std::alloc::Global;

/// How many names a page has at most.
pub const MOST_NAMES: u32 = 64;

fn standing_node(node: &Node) -> Seen
    ensures { result ≡ standing_node node.now }
{
    match node {
        Node::Entry(entry) => match entry.body {
            Body::Dir { .. } => Seen::ADirectory,
            Body::File { length, .. } => Seen::AFile(length),
        },
        Node::Part(_) => Seen::Nothing,
    }
}

// What an entry in sight is seen as. Of those of the roots, which are directories, some aren't there.
fn standing(draft: &Draft, cache: &Cache, id: FileId) -> Seen
    ensures { result ≡ standing_seen (seen draft.now cache.now (Name.Entry id)) }
{
    match draft.view(cache, &Name::Entry { id }) {
        Some(node) => standing_node(node),
        None => Seen::ADirectory,
    }
}

// What is seen where resolving came to its end.
fn seen_at(draft: &Draft, cache: &Cache, found: Found) -> Seen
    ensures { result ≡ met_seen draft.now cache.now found }
{
    match found {
        Found::At { id, .. } => standing(draft, cache, id),
        Found::Missing => Seen::Nothing,
        Found::ThroughFile => Seen::AFileBefore,
    }
}

/// What resolving a path comes to, and what stands there.
pub fn look(draft: &Draft, cache: &Cache, path: &Path) -> Result<(Found, Seen), Short>
    ensures found { IfOk result (λ r.
        (key : List ℕ) (met : List (List ℕ) → MetSeen) (old new : Shown) →
        Pictured key met draft.now cache.now old new → Resolves new key path.now r.0) }
    ensures one { IfOk result (λ r.
        (key : List ℕ) (met : List (List ℕ) → MetSeen) (old new : Shown) →
        Pictured key met draft.now cache.now old new → (other : Come) →
        Resolves new key path.now other → other ≡ r.0) }
    ensures met { IfOk result (λ r.
        (key : List ℕ) (met : List (List ℕ) → MetSeen) (old new : Shown) →
        Pictured key met draft.now cache.now old new → met path.now ≡ r.1) }
    ensures there { IfOk result (λ r. AreInSight draft.now cache.now r.0) }
    ensures seen { IfOk result (λ r. r.1 ≡ met_seen draft.now cache.now r.0) }
    ensures short { IfErr result (λ e. (key : List ℕ) →
        IsPathLack key every (IsOnTrail key path.now) draft.now cache.now e) }
{
    let found = follow(draft, cache, path.names())?;
    let here = seen_at(draft, cache, found);
    Ok((found, here))
}

/// Whether a directory stands at a path, and the length of a file there.
pub fn plan_stat(draft: &Draft, cache: &Cache, path: &Path) -> Result<Reply, Short>
    ensures reply { IfOk result (λ reply.
        (key : List ℕ) (met : List (List ℕ) → MetSeen) (old new : Shown) →
        Pictured key met draft.now cache.now old new → Judged (unresolved (met path.now)) (reply ≡
        Stat (is_directory_seen (met path.now)) (size_of (met path.now))) reply) }
    ensures short { IfErr result (λ e. (key : List ℕ) →
        IsPathLack key every (IsOnTrail key path.now) draft.now cache.now e) }
{
    let (_, here) = look(draft, cache, path)?;
    match stat_checks(here) {
        Some(error) => Ok(Reply::Plain(error)),
        None => Ok(Reply::Stat {
            dir: is_dir(here),
            length: size_of(here),
        }),
    }
}

/// A page of the names of the directory at a path: the first that are greater than a name.
pub fn plan_list(
    alloc: Global,
    draft: &Draft,
    cache: &Cache,
    path: &Path,
    after: &Text,
) -> Result<Reply, Short>
    ensures reply { IfOk result (λ reply. (key : List ℕ) (met : List (List ℕ) →
        MetSeen) (old new : Shown) → Pictured key met draft.now cache.now old new →
        Judged (no_directory (met path.now)) (IsListing new key path.now after.now reply) reply) }
    ensures short { IfErr result (λ e. (key : List ℕ) →
        IsPathShort key every (IsListed key path.now after.now) draft.now cache.now e) }
{
    match enter(draft, cache, path.names())? {
        Place::In { dir } => {
            let names = plan_after(alloc, draft, cache, dir, after, MOST_NAMES)?;
            Ok(Reply::Names(names))
        }
        Place::Not { error } => Ok(Reply::Plain(error)),
    }
}
