//! Resident blocks come, go and change, each in its group.

ghost use Rattle.std.specs.Prelude.{◌≡◌, ◌≤◌, ◌<◌, ◌+◌, cond, Some, None, IsSome, true, false, length, slice_get};
ghost use Rattle.std.specs.Option.{option_map};
ghost use Rattle.iris_name.specs.Names.{same_name};
ghost use Rattle.iris_name.specs.declared.name.Name.{Name as SpecName};
ghost use Rattle.indexmap.specs.IndexMap.{IsUnique, spare, get};
ghost use Rattle.indexmap.specs.Layout.{set_value_at};
ghost use Rattle.iris_cache.specs.Resident.{map_if};
ghost use Rattle.iris_blocks.specs.declared.held.PageHeld.{PageHeld as HeldRecord};
ghost use Rattle.iris_blocks.specs.Held.{edited_page, unpinned_page, IsPageEdit};
ghost use Rattle.iris_blocks.specs.Groups.{group_of, AreGrouped};

use crate::groups::{Ends, lift, settle};
use crate::held::{Edit, PageHeld};
use indexmap::IndexMap;
use iris_name::Name;

// Makes an edit of the entry at an index. Answers whether its group is another then.
fn edit_at(pages: &mut IndexMap<Name, PageHeld>, i: usize, edit: Edit) -> bool
    requires within { i < length pages.old.entries }
    requires edit { IsPageEdit edit }
    ensures entries { (n : SpecName) → (h : HeldRecord) →
        slice_get pages.old.entries i ≡ Some (n, h) →
        pages.new.entries ≡ set_value_at pages.old.entries i (edited_page edit h) }
    ensures group { result ≡ false → (n : SpecName) → (h : HeldRecord) →
        slice_get pages.old.entries i ≡ Some (n, h) → group_of (edited_page edit h) ≡ group_of h }
    ensures pages { (n : SpecName) → (h : HeldRecord) →
        slice_get pages.old.entries i ≡ Some (n, h) → (q : SpecName) → get same_name pages.new q ≡
        map_if (same_name n q) (edited_page edit) (get same_name pages.old q) }
    ensures count { length pages.new.entries ≡ length pages.old.entries }
    ensures spare { spare pages.new ≡ spare pages.old }
    ensures unique { IsUnique same_name pages.old → IsUnique same_name pages.new }
{
    let (_, held) = pages.pair_mut(i);
    let was = held.group();
    held.edit(edit);
    held.group() != was
}

/// Makes an edit of a block, where it is resident.
pub(crate) fn edit(pages: &mut IndexMap<Name, PageHeld>, ends: &mut Ends, name: &Name, edit: Edit)
    requires edit { IsPageEdit edit }
    requires grouped { AreGrouped pages.old.entries ends.old }
    ensures grouped { AreGrouped pages.new.entries ends.new }
    ensures pages { (q : SpecName) → get same_name pages.new q ≡
        map_if (same_name name.now q) (edited_page edit) (get same_name pages.old q) }
    ensures count { length pages.new.entries ≡ length pages.old.entries }
    ensures spare { spare pages.old ≤ spare pages.new }
    ensures unique { IsUnique same_name pages.old → IsUnique same_name pages.new }
{
    let Some((i, _, _)) = pages.get_full(name) else {
        return;
    };
    if edit_at(pages, i, edit) {
        let at = lift(pages, ends, i);
        settle(pages, ends, at);
    }
}

/// Takes a block in that isn't resident.
pub(crate) fn put(
    pages: &mut IndexMap<Name, PageHeld>,
    ends: &mut Ends,
    name: Name,
    guest: PageHeld,
)
    requires absent { get same_name pages.old name ≡ None }
    requires spare { 0 < spare pages.old }
    requires grouped { AreGrouped pages.old.entries ends.old }
    ensures grouped { AreGrouped pages.new.entries ends.new }
    ensures pages { (q : SpecName) → get same_name pages.new q ≡
        cond (same_name name q) (Some guest) (get same_name pages.old q) }
    ensures count { length pages.new.entries ≡ length pages.old.entries + 1 }
    ensures spare { spare pages.old ≤ spare pages.new + 1 }
    ensures unique { IsUnique same_name pages.new }
{
    let i = pages.len();
    match pages.insert(name, guest) {
        Ok(_) => {}
        Err(_) => unreachable!(),
    }
    settle(pages, ends, i);
}

/// Lets a resident block go.
pub(crate) fn take(pages: &mut IndexMap<Name, PageHeld>, ends: &mut Ends, name: &Name) -> PageHeld
    requires resident { IsSome (get same_name pages.old name.now) }
    requires grouped { AreGrouped pages.old.entries ends.old }
    ensures grouped { AreGrouped pages.new.entries ends.new }
    ensures block { get same_name pages.old name.now ≡ Some result }
    ensures pages { (q : SpecName) → get same_name pages.new q ≡
        cond (same_name name.now q) None (get same_name pages.old q) }
    ensures count { length pages.new.entries + 1 ≡ length pages.old.entries }
    ensures spare { spare pages.old ≤ spare pages.new }
    ensures unique { IsUnique same_name pages.new }
{
    let Some((i, _, _)) = pages.get_full(name) else {
        unreachable!()
    };
    let at = lift(pages, ends, i);
    let Some((_, held)) = pages.swap_remove_index(at) else {
        unreachable!()
    };
    held
}
