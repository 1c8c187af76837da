//! The resident blocks in groups, one behind another, so that each kind is found without a search. A block that goes from one group to
//! another changes places with those at the ends of the groups between, which takes no memory.

ghost use Rattle.std.specs.Prelude.{◌≡◌, ◌≤◌, ◌<◌, ◌+◌, Some, length, not, slice_get};
ghost use Rattle.iris_name.specs.Names.{same_name};
ghost use Rattle.iris_name.specs.declared.name.Name.{Name as SpecName};
ghost use Rattle.indexmap.specs.IndexMap.{IsUnique, spare, get};
ghost use Rattle.iris_blocks.specs.declared.held.PageHeld.{PageHeld as HeldRecord};
ghost use Rattle.iris_blocks.specs.Groups.{group_of, AreGrouped, AreGroupedBut, AreGroupedTo, Leaves, JoinsIn, is_in_three};

use crate::held::PageHeld;
use indexmap::IndexMap;
use iris_name::Name;

/// The group of a resident block.
#[derive(Clone, Copy, PartialEq)]
pub(crate) enum Group {
    /// Dirty, and nothing is out for it.
    Waiting,
    /// Dirty, and something is out for it.
    Sent,
    /// It can go.
    Loose,
    /// Clean, but out or pinned.
    Kept,
}

/// How many blocks the first group has, the first two, and the first three.
#[derive(Clone, Copy)]
pub(crate) struct Ends {
    pub waiting: usize,
    pub dirty: usize,
    pub loose: usize,
}

// The group of the entry at an index.
fn group_at(pages: &IndexMap<Name, PageHeld>, i: usize) -> Group
    requires { i < length pages.now.entries }
    ensures { (n : SpecName) → (h : HeldRecord) →
        slice_get pages.now.entries i ≡ Some (n, h) → result ≡ group_of h }
{
    match pages.get_index(i) {
        Some((_, held)) => held.group(),
        None => unreachable!(),
    }
}

// Takes an entry out of the first `end`, where it is one of them. Answers where it is then.
fn leave(pages: &mut IndexMap<Name, PageHeld>, end: &mut usize, i: usize) -> usize
    requires within { i < length pages.old.entries }
    requires end { end.old ≤ length pages.old.entries }
    ensures leaves { Leaves pages.old.entries end.old i pages.new.entries end.new result }
    ensures same { (q : SpecName) → get same_name pages.new q ≡ get same_name pages.old q }
    ensures count { length pages.new.entries ≡ length pages.old.entries }
    ensures spare { spare pages.old ≤ spare pages.new }
    ensures unique { IsUnique same_name pages.old → IsUnique same_name pages.new }
{
    if i >= *end {
        return i;
    }
    let last = *end - 1;
    *end = last;
    pages.swap_indices(i, last);
    last
}

// Takes an entry behind the first `end` in among them. Answers where it is then.
fn join(pages: &mut IndexMap<Name, PageHeld>, end: &mut usize, i: usize) -> usize
    requires within { i < length pages.old.entries }
    requires behind { end.old ≤ i }
    ensures joins { JoinsIn pages.old.entries end.old i pages.new.entries end.new result }
    ensures same { (q : SpecName) → get same_name pages.new q ≡ get same_name pages.old q }
    ensures count { length pages.new.entries ≡ length pages.old.entries }
    ensures spare { spare pages.old ≤ spare pages.new }
    ensures unique { IsUnique same_name pages.old → IsUnique same_name pages.new }
{
    let count = pages.len();
    let next = *end;
    prove!(next < count);
    *end = next + 1;
    pages.swap_indices(i, next);
    next
}

/// Takes an entry out of all groups but the last. Answers where it is then.
pub(crate) fn lift(pages: &mut IndexMap<Name, PageHeld>, ends: &mut Ends, i: usize) -> usize
    requires within { i < length pages.old.entries }
    requires grouped { AreGroupedBut pages.old.entries ends.old i }
    ensures grouped { AreGroupedBut pages.new.entries ends.new result }
    ensures behind { ends.new.loose ≤ result }
    ensures within { result < length pages.new.entries }
    ensures carried { slice_get pages.new.entries result ≡ slice_get pages.old.entries i }
    ensures same { (q : SpecName) → get same_name pages.new q ≡ get same_name pages.old q }
    ensures count { length pages.new.entries ≡ length pages.old.entries }
    ensures spare { spare pages.old ≤ spare pages.new }
    ensures unique { IsUnique same_name pages.old → IsUnique same_name pages.new }
{
    let first = leave(pages, &mut ends.waiting, i);
    let second = leave(pages, &mut ends.dirty, first);
    let third = leave(pages, &mut ends.loose, second);
    third
}

// Takes an entry of the last group in among those that can go.
fn to_loose(pages: &mut IndexMap<Name, PageHeld>, ends: &mut Ends, i: usize) -> usize
    requires within { i < length pages.old.entries }
    requires grouped { AreGroupedBut pages.old.entries ends.old i }
    requires behind { ends.old.loose ≤ i }
    ensures grouped { AreGroupedBut pages.new.entries ends.new result }
    ensures waiting { ends.new.waiting ≡ ends.old.waiting }
    ensures dirty { ends.new.dirty ≡ ends.old.dirty }
    ensures loose { ends.new.loose ≡ ends.old.loose + 1 }
    ensures last { result ≡ ends.old.loose }
    ensures carried { slice_get pages.new.entries result ≡ slice_get pages.old.entries i }
    ensures same { (q : SpecName) → get same_name pages.new q ≡ get same_name pages.old q }
    ensures count { length pages.new.entries ≡ length pages.old.entries }
    ensures spare { spare pages.old ≤ spare pages.new }
    ensures unique { IsUnique same_name pages.old → IsUnique same_name pages.new }
{
    let at = join(pages, &mut ends.loose, i);
    at
}

// Takes an entry of the last group in among those that are dirty and out.
fn to_sent(pages: &mut IndexMap<Name, PageHeld>, ends: &mut Ends, i: usize) -> usize
    requires within { i < length pages.old.entries }
    requires grouped { AreGroupedBut pages.old.entries ends.old i }
    requires behind { ends.old.loose ≤ i }
    ensures grouped { AreGroupedBut pages.new.entries ends.new result }
    ensures waiting { ends.new.waiting ≡ ends.old.waiting }
    ensures dirty { ends.new.dirty ≡ ends.old.dirty + 1 }
    ensures loose { ends.new.loose ≡ ends.old.loose + 1 }
    ensures last { result ≡ ends.old.dirty }
    ensures carried { slice_get pages.new.entries result ≡ slice_get pages.old.entries i }
    ensures same { (q : SpecName) → get same_name pages.new q ≡ get same_name pages.old q }
    ensures count { length pages.new.entries ≡ length pages.old.entries }
    ensures spare { spare pages.old ≤ spare pages.new }
    ensures unique { IsUnique same_name pages.old → IsUnique same_name pages.new }
{
    let passed = to_loose(pages, ends, i);
    let at = join(pages, &mut ends.dirty, passed);
    at
}

// Takes an entry of the last group in among those that wait.
fn to_waiting(pages: &mut IndexMap<Name, PageHeld>, ends: &mut Ends, i: usize) -> usize
    requires within { i < length pages.old.entries }
    requires grouped { AreGroupedBut pages.old.entries ends.old i }
    requires behind { ends.old.loose ≤ i }
    ensures grouped { AreGroupedBut pages.new.entries ends.new result }
    ensures waiting { ends.new.waiting ≡ ends.old.waiting + 1 }
    ensures dirty { ends.new.dirty ≡ ends.old.dirty + 1 }
    ensures loose { ends.new.loose ≡ ends.old.loose + 1 }
    ensures last { result ≡ ends.old.waiting }
    ensures carried { slice_get pages.new.entries result ≡ slice_get pages.old.entries i }
    ensures same { (q : SpecName) → get same_name pages.new q ≡ get same_name pages.old q }
    ensures count { length pages.new.entries ≡ length pages.old.entries }
    ensures spare { spare pages.old ≤ spare pages.new }
    ensures unique { IsUnique same_name pages.old → IsUnique same_name pages.new }
{
    let passed = to_sent(pages, ends, i);
    let at = join(pages, &mut ends.waiting, passed);
    at
}

/// Takes an entry that lies behind all groups but the last into its own.
pub(crate) fn settle(pages: &mut IndexMap<Name, PageHeld>, ends: &mut Ends, i: usize)
    requires within { i < length pages.old.entries }
    requires grouped { AreGroupedBut pages.old.entries ends.old i }
    requires behind { ends.old.loose ≤ i }
    ensures grouped { AreGrouped pages.new.entries ends.new }
    ensures same { (q : SpecName) → get same_name pages.new q ≡ get same_name pages.old q }
    ensures count { length pages.new.entries ≡ length pages.old.entries }
    ensures spare { spare pages.old ≤ spare pages.new }
    ensures unique { IsUnique same_name pages.old → IsUnique same_name pages.new }
{
    match group_at(pages, i) {
        Group::Waiting => {
            to_waiting(pages, ends, i);
        }
        Group::Sent => {
            to_sent(pages, ends, i);
        }
        Group::Loose => {
            to_loose(pages, ends, i);
        }
        Group::Kept => {}
    }
}

// Whether the entry at an index is of the last group.
fn is_kept_at(pages: &IndexMap<Name, PageHeld>, i: usize) -> bool
    requires { i < length pages.now.entries }
    ensures { (n : SpecName) → (h : HeldRecord) →
        slice_get pages.now.entries i ≡ Some (n, h) → result ≡ not (is_in_three (group_of h)) }
{
    match group_at(pages, i) {
        Group::Kept => true,
        Group::Waiting | Group::Sent | Group::Loose => false,
    }
}

/// Takes each entry of the last group that can go in among those that can.
pub(crate) fn regroup(pages: &mut IndexMap<Name, PageHeld>, ends: &mut Ends)
    requires { AreGroupedTo pages.old.entries ends.old ends.old.loose }
    ensures grouped { AreGrouped pages.new.entries ends.new }
    ensures same { (q : SpecName) → get same_name pages.new q ≡ get same_name pages.old q }
    ensures count { length pages.new.entries ≡ length pages.old.entries }
    ensures spare { spare pages.old ≤ spare pages.new }
    ensures unique { IsUnique same_name pages.old → IsUnique same_name pages.new }
{
    for i in ends.loose..pages.len() {
        if !is_kept_at(pages, i) {
            join(pages, &mut ends.loose, i);
        }
    }
}
