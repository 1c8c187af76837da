//! What lies in the store for a table, and its root hash, from scratch: slow, and without recursion over directories.

ghost use Rattle.std.specs.Prelude.{◌≡◌, ◌≤◌, ◌<◌, ◌-◌, ◌+◌, ◌++◌, [], ℕ, List, length, map, Some, None, All, IfOk, OnOk};
ghost use Rattle.iris_node.specs.Rules.{IsBody, IsLinkToNamed};
ghost use Rattle.iris_node.specs.Unfolded.{Unfolded, Absent, Folder, node_record, hash, link_to, node_of};
ghost use Rattle.iris_records.specs.Records.{AreLive, root_hash};
ghost use Rattle.iris_rows.specs.Places.{file_of};
ghost use Rattle.iris_records.specs.Shown.{versions, directory, in_file, in_directory};
ghost use Rattle.iris_records.specs.Pieces.{Adds, file_told};
ghost use Rattle.iris_records.specs.Walks.{IsItem, IsFit, AreFit, AreStored, own_of, inside_item, inside_items, among_items, root_of_items, shown_items, all_owns, told as told_of};
ghost use Rattle.iris_rows.specs.Items.{grown, IsForest, table_over};
ghost use Rattle.iris_rows.specs.Sound.{IsSound};
ghost use Rattle.sha2.specs.Sha256.{sha256};
ghost use Rattle.std.specs.Int.{w64, to_be_bytes};

use crate::entries::{Told, blocks_behind, put_directory};
use crate::parts::{put_blocks, put_parts};
use crate::shelf::{Shelf, put_node};
use iris_mac::Keys;
use iris_name::{Bytes, FileId, Hash32, Name, NoMemory, Text};
use iris_node::{Body, EntryNode, Link, Node};
use iris_plain::checks::blocks_of;
use iris_rows::file::FileRow;
use iris_rows::item::Item;
use sha2::{Digest, Sha256};
use std::alloc::Global;

// Puts the records of a file's blocks and parts, and answers what its entry says of it.
fn put_file(
    alloc: Global,
    keys: &Keys,
    shelf: &mut Shelf,
    file: FileId,
    row: &FileRow,
) -> Result<Told, NoMemory>
    requires { 2 ≤ file.0 }
    ensures told { IfOk result (λ t. t ≡ file_told file.0 (file_of row.now)) }
    ensures body { IfOk result (λ t. IsBody t.body) }
    ensures puts { OnOk result (Adds keys.now.block (λ n.
        in_file n file.0 (file_of row.now)) shelf.old shelf.new) }
{
    put_blocks(alloc, keys, shelf, file, row)?;
    let versions = put_parts(alloc, shelf, file, row)?;
    let length = row.size();
    let body = Body::File {
        length,
        counter: row.counter(),
        versions,
    };
    Ok(Told {
        body,
        blocks: blocks_of(length),
    })
}

// The depth of what lies inside a directory: no list has so many items that there is none.
fn deeper(depth: usize) -> Result<usize, NoMemory>
    ensures { IfOk result (λ d. d ≡ depth + 1) }
{
    depth.checked_add(1).ok_or(NoMemory)
}

// Puts the records of what lies inside a row, and answers what its entry says. The items after it are done.
fn put_item(
    alloc: Global,
    keys: &Keys,
    shelf: &mut Shelf,
    item: &Item,
    after: &[Item],
    told: &[Told],
) -> Result<Told, NoMemory>
    requires fit { IsFit item.now after.now }
    requires told { told.now ≡ map told_of (all_owns keys.now.order after.now) }
    requires items { All IsItem after.now }
    requires bodies { All (λ t. IsBody t.body) told.now }
    ensures told { IfOk result (λ t. t ≡ told_of (own_of keys.now.order item.now after.now)) }
    ensures body { IfOk result (λ t. IsBody t.body) }
    ensures puts { OnOk result (Adds keys.now.block (λ n.
        inside_item keys.now.order n item.now item.now.file after.now) shelf.old shelf.new) }
{
    if let Some(file) = &item.file {
        return put_file(alloc, keys, shelf, item.id, file);
    }
    let depth = deeper(item.depth)?;
    let top = put_directory(alloc, keys, shelf, depth, after, told)?;
    Ok(Told {
        body: Body::Dir { top },
        blocks: blocks_behind(&top),
    })
}

// Puts the records of what lies inside each row, from the last row to the first, and answers what each says.
fn put_items(
    alloc: Global,
    keys: &Keys,
    shelf: &mut Shelf,
    items: &[Item],
) -> Result<Vec<Told>, NoMemory>
    requires { AreFit items.now }
    ensures told { IfOk result (λ ts. ts.items ≡ map told_of (all_owns keys.now.order items.now)) }
    ensures bodies { IfOk result (λ ts. All (λ t. IsBody t.body) ts.items) }
    ensures puts { OnOk result (Adds keys.now.block (λ n.
        inside_items keys.now.order n items.now) shelf.old shelf.new) }
{
    let mut told = Vec::new(alloc);
    let mut i = items.len();
    while 0 < i {
        i -= 1;
        let own = put_item(
            alloc,
            keys,
            shelf,
            &items[i],
            &items[i + 1..],
            told.as_slice(),
        )?;
        told.insert(0, own)?;
    }
    Ok(told)
}

// Puts the records of all that lies below a root, and answers the link to its topmost entry.
fn put_rows(
    alloc: Global,
    keys: &Keys,
    shelf: &mut Shelf,
    items: &[Item],
) -> Result<Option<Link>, NoMemory>
    requires { AreStored items.now }
    ensures linked { IfOk result (λ l. IsLinkToNamed l) }
    ensures link { IfOk result (λ l. l ≡ link_to (directory keys.now.order (grown 0 items.now))
        (node_of (directory keys.now.order (grown 0 items.now)))) }
    ensures puts { OnOk result (Adds keys.now.block (λ n.
        among_items keys.now.order n items.now) shelf.old shelf.new) }
{
    let told = put_items(alloc, keys, shelf, items)?;
    put_directory(alloc, keys, shelf, 0, items, told.as_slice())
}

// Puts the record of a root, and answers its hash.
fn put_root(
    alloc: Global,
    shelf: &mut Shelf,
    id: FileId,
    top: Option<Link>,
) -> Result<Hash32, NoMemory>
    requires root { id.0 < 2 }
    requires top { IsLinkToNamed top }
    ensures hash { IfOk result (λ h. (inside : Unfolded) → top ≡ link_to inside (node_of inside) →
        h.0 ≡ sha256 (node_record (Folder id.0 [] Absent Absent inside))) }
    ensures puts { OnOk result ((inside : Unfolded) (key : List ℕ) →
        top ≡ link_to inside (node_of inside) →
        Adds key (λ n. in_directory n (Folder id.0 [] Absent Absent inside)) shelf.old shelf.new) }
{
    let entry = EntryNode {
        id,
        name: Text::of(String::new(alloc)),
        left: None,
        right: None,
        body: Body::Dir { top },
    };
    put_node(alloc, shelf, &Node::Entry(entry))
}

// The hashes of the visible root and of the trash.
#[derive(Clone, Copy)]
struct Roots {
    visible: Hash32,
    trash: Hash32,
}

// The hash of both roots' hashes and the next id.
fn joined_hash(roots: &Roots, next: u64) -> Hash32
    ensures { result.0 ≡
        sha256 (roots.now.visible.0 ++ (roots.now.trash.0 ++ to_be_bytes w64 next)) }
{
    let mut hasher = Sha256::new();
    hasher.update(roots.visible.0);
    hasher.update(roots.trash.0);
    hasher.update(next.to_be_bytes());
    Hash32(hasher.finalize())
}

// Puts all records of a table, and answers the hashes of its roots.
fn put_roots(
    alloc: Global,
    keys: &Keys,
    shelf: &mut Shelf,
    visible: &[Item],
    trash: &[Item],
) -> Result<Roots, NoMemory>
    requires visible { AreStored visible.now }
    requires trash { AreStored trash.now }
    ensures visible { IfOk result (λ roots.
        roots.visible.0 ≡ sha256 (node_record (root_of_items keys.now.order 0 visible.now))) }
    ensures trash { IfOk result (λ roots.
        roots.trash.0 ≡ sha256 (node_record (root_of_items keys.now.order 1 trash.now))) }
    ensures puts { OnOk result (Adds keys.now.block (λ n.
        shown_items keys.now.order n visible.now trash.now) shelf.old shelf.new) }
{
    let trash = put_rows(alloc, keys, shelf, trash)?;
    let visible = put_rows(alloc, keys, shelf, visible)?;
    let trash = put_root(alloc, shelf, FileId(1), trash)?;
    let visible = put_root(alloc, shelf, FileId(0), visible)?;
    Ok(Roots { visible, trash })
}

/// The records that lie in the store for the rows of a table, in order of names: exactly those of the live names.
pub fn records_of(
    alloc: Global,
    keys: &Keys,
    visible: &[Item],
    trash: &[Item],
) -> Result<Vec<(Name, Bytes)>, NoMemory>
    requires visible { IsForest visible.now }
    requires trash { IsForest trash.now }
    requires sound { (next : ℕ) ×
        ((age : ℕ) × IsSound (table_over visible.now trash.now next age)) }
    ensures { IfOk result (λ records. (next age : ℕ) →
        AreLive keys.now (table_over visible.now trash.now next age) records.items) }
{
    let mut shelf = Shelf::new(alloc);
    put_roots(alloc, keys, &mut shelf, visible, trash)?;
    Ok(shelf.into_vec())
}

/// The root hash of a table: SHA-256 of the hashes of the two roots' records and the next id.
pub fn root_of(
    alloc: Global,
    keys: &Keys,
    visible: &[Item],
    trash: &[Item],
    next: u64,
) -> Result<Hash32, NoMemory>
    requires visible { IsForest visible.now }
    requires trash { IsForest trash.now }
    requires sound { (age : ℕ) × IsSound (table_over visible.now trash.now next age) }
    ensures { IfOk result (λ h. (age : ℕ) →
        h.0 ≡ root_hash keys.now.order (table_over visible.now trash.now next age)) }
{
    let mut shelf = Shelf::new(alloc);
    let roots = put_roots(alloc, keys, &mut shelf, visible, trash)?;
    Ok(joined_hash(&roots, next))
}
