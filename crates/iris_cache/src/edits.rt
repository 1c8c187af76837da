//! Changes of one resident node in the map of them.

ghost use Rattle.std.specs.Prelude.{◌≡◌, ◌≢◌, ◌≤◌, ◌+◌, map, ◌<◌, ◌^◌, IfSome, IsSome, Some, length, false};
ghost use Rattle.std.specs.Option.{option_map};
ghost use Rattle.std.specs.Map.{values_of};
ghost use Rattle.std.specs.List.{count_by};
ghost use Rattle.iris_name.specs.Names.{same_name};
ghost use Rattle.iris_name.specs.declared.name.Name.{Name as SpecName};
ghost use Rattle.indexmap.specs.IndexMap.{IsUnique, spare, get};
ghost use Rattle.iris_cache.specs.Held.{IsEdit, edited_node, is_child, points, unpinned_node, with_node};
ghost use Rattle.iris_cache.specs.Dirty.{dirty_addend};
ghost use Rattle.iris_cache.specs.Idle.{is_free};
ghost use Rattle.iris_cache.specs.Resident.{map_if};

use crate::held::{Edit, Edited, Held};
use indexmap::IndexMap;
use iris_name::Name;
use iris_node::Node;

// Makes an edit of a node, where it is resident.
pub(crate) fn edit(nodes: &mut IndexMap<Name, Held>, name: &Name, edit: Edit) -> Edited
    requires { IfSome (get same_name nodes.old name.now) (IsEdit edit) }
    ensures nodes { (q : SpecName) → get same_name nodes.new q ≡
        map_if (same_name name.now q) (edited_node edit) (get same_name nodes.old q) }
    ensures count { length nodes.new.entries ≡ length nodes.old.entries }
    ensures spare { spare nodes.new ≡ spare nodes.old }
    ensures unique { IsUnique same_name nodes.old → IsUnique same_name nodes.new }
    ensures there { result ≢ Edited.Missing → IsSome (get same_name nodes.old name.now) }
    ensures same { result ≢ Edited.Turned → (q : SpecName) →
        is_free (get same_name nodes.new q) ≡ is_free (get same_name nodes.old q) }
{
    match nodes.get_mut(name) {
        Some(held) => held.edit(edit),
        None => Edited::Missing,
    }
}

// Makes an edit of a node, where it is resident, with the count of the dirty ones.
pub(crate) fn edit_counted(
    nodes: &mut IndexMap<Name, Held>,
    dirty: &mut usize,
    name: &Name,
    change: Edit,
) -> Edited
    requires edit { IfSome (get same_name nodes.old name.now) (IsEdit change) }
    requires counted { dirty_addend (get same_name nodes.old name.now) ≤ dirty.old }
    requires few { dirty.old < 2 ^ 32 }
    ensures nodes { (q : SpecName) → get same_name nodes.new q ≡
        map_if (same_name name.now q) (edited_node change) (get same_name nodes.old q) }
    ensures dirty { dirty.new + dirty_addend (get same_name nodes.old name.now) ≡ dirty.old +
        dirty_addend (option_map (edited_node change) (get same_name nodes.old name.now)) }
    ensures count { length nodes.new.entries ≡ length nodes.old.entries }
    ensures spare { spare nodes.new ≡ spare nodes.old }
    ensures unique { IsUnique same_name nodes.old → IsUnique same_name nodes.new }
    ensures same { result ≢ Edited.Turned → (q : SpecName) →
        is_free (get same_name nodes.new q) ≡ is_free (get same_name nodes.old q) }
{
    match nodes.get_mut(name) {
        Some(held) => held.edit_counted(change, dirty),
        None => Edited::Missing,
    }
}

// Makes an edit of a parent, where there is one and it is resident.
pub(crate) fn edit_parent(
    nodes: &mut IndexMap<Name, Held>,
    parent: Option<Name>,
    change: Edit,
) -> Edited
    requires { (p : SpecName) →
        parent ≡ Some p → IfSome (get same_name nodes.old p) (IsEdit change) }
    ensures nodes { (q : SpecName) → get same_name nodes.new q ≡
        map_if (points parent q) (edited_node change) (get same_name nodes.old q) }
    ensures count { length nodes.new.entries ≡ length nodes.old.entries }
    ensures spare { spare nodes.new ≡ spare nodes.old }
    ensures unique { IsUnique same_name nodes.old → IsUnique same_name nodes.new }
    ensures there { result ≢ Edited.Missing →
        (p : SpecName) → parent ≡ Some p → IsSome (get same_name nodes.old p) }
    ensures same { result ≢ Edited.Turned → (q : SpecName) →
        is_free (get same_name nodes.new q) ≡ is_free (get same_name nodes.old q) }
{
    match parent {
        Some(parent) => edit(nodes, &parent, change),
        None => Edited::Kept,
    }
}

// How many nodes have this parent: none, where no node is astray and the parent isn't resident.
pub(crate) fn count_children(nodes: &IndexMap<Name, Held>, name: &Name, astray: bool) -> u32
    requires few { length nodes.now.entries < 2 ^ 32 }
    requires homed { astray ≡ false →
        count_by (is_child name.now) (values_of nodes.now.entries) ≡ 0 }
    ensures { result ≡ count_by (is_child name.now) (values_of nodes.now.entries) }
{
    if !astray {
        return 0;
    }
    nodes.values().filter(|held| is_under(held, name)).count() as u32
}

// Whether it is the parent of a node.
fn is_under(held: &Held, name: &Name) -> bool
    ensures { result ≡ is_child name.now held.now }
{
    match held.parent {
        Some(parent) => parent == *name,
        None => false,
    }
}

// Takes a caller's pin off every node.
pub(crate) fn unpin_all(nodes: &mut IndexMap<Name, Held>, who: u32)
    requires { who ≤ 16 }
    ensures nodes { nodes.new.entries ≡ map (λ e. (e.0, unpinned_node who e.1)) nodes.old.entries }
    ensures spare { spare nodes.old ≤ spare nodes.new }
    ensures unique { IsUnique same_name nodes.new }
{
    let kept = !(1 << who);
    // All stay: of the map's loops this one says what it writes.
    nodes.retain(|_, held| {
        held.pins &= kept;
        true
    });
}

// Gives a name another node, where it is resident.
pub(crate) fn renew(nodes: &mut IndexMap<Name, Held>, name: &Name, node: Node)
    ensures nodes { (q : SpecName) → get same_name nodes.new q ≡
        map_if (same_name name.now q) (with_node node) (get same_name nodes.old q) }
    ensures count { length nodes.new.entries ≡ length nodes.old.entries }
    ensures spare { spare nodes.new ≡ spare nodes.old }
    ensures unique { IsUnique same_name nodes.old → IsUnique same_name nodes.new }
{
    if let Some(held) = nodes.get_mut(name) {
        held.renew(node);
    }
}
