//! The links of a node are counted together.

ghost use Rattle.std.specs.Prelude.{◌≡◌, ◌≤◌, ◌<◌, ◌+◌, ◌*◌, ◌^◌, false};
ghost use Rattle.iris_name.specs.declared.name.FileId.{FileId as SpecId};
ghost use Rattle.iris_links.specs.Links.{linked_count, linked_sum, IsSameSum};
ghost use Rattle.iris_links.specs.Alike.{LeadAlike, target_of};
ghost use Rattle.iris_links.specs.NodeLinks.{link_count, link_inside, links_to, sum_to};

use crate::links::Links;
use iris_name::FileId;
use iris_node::{Body, EntryNode, Link, Node};

/// The most links that a node has.
pub const MOST_LINKS: usize = 3;

impl Links {
    /// Counts the links of a node.
    pub fn add_node(&mut self, node: &Node)
        ensures partial { self.new.partial ≡ false → self.old.partial ≡ false }
        ensures whole { MOST_LINKS ≤ self.old.room →
            ((q : SpecId) → linked_count self.old q + links_to q node.now < 2 ^ 64) →
            self.old.partial ≡ false → self.new.partial ≡ false }
        ensures room { self.old.room ≤ self.new.room + MOST_LINKS }
        ensures counts { self.new.partial ≡ false → (q : SpecId) →
            linked_count self.new q ≡ linked_count self.old q + links_to q node.now }
        ensures sums { self.new.partial ≡ false → (q : SpecId) →
            IsSameSum (linked_sum self.new q) (linked_sum self.old q + sum_to q node.now) }
    {
        if let Node::Entry(entry) = node {
            self.add_link(entry.left, entry.id);
            self.add_link(entry.right, entry.id);
            self.add_link(link_inside(&entry.body), entry.id);
        }
    }

    /// Takes the links of a node off.
    pub fn remove_node(&mut self, node: &Node)
        ensures partial { self.new.partial ≡ false → self.old.partial ≡ false }
        ensures counts { self.new.partial ≡ false → (q : SpecId) →
            linked_count self.new q + links_to q node.now ≡ linked_count self.old q }
        ensures sums { self.new.partial ≡ false → (q : SpecId) →
            IsSameSum (linked_sum self.old q) (linked_sum self.new q + sum_to q node.now) }
    {
        if let Node::Entry(entry) = node {
            self.remove_link(entry.left, entry.id);
            self.remove_link(entry.right, entry.id);
            self.remove_link(link_inside(&entry.body), entry.id);
        }
    }

    /// Takes the links of a node off and counts those of another in their place. What leads where it led costs no look-up.
    pub fn exchange_node(&mut self, old: &Node, new: &Node)
        ensures partial { self.new.partial ≡ false → self.old.partial ≡ false }
        ensures counts { self.new.partial ≡ false → (q : SpecId) → linked_count self.new q +
            links_to q old.now ≡ linked_count self.old q + links_to q new.now }
        ensures sums { self.new.partial ≡ false → (q : SpecId) → IsSameSum
            (linked_sum self.new q + sum_to q old.now) (linked_sum self.old q + sum_to q new.now) }
        ensures alike { LeadAlike old.now new.now → self.new ≡ self.old }
    {
        match (old, new) {
            (Node::Entry(was), Node::Entry(is)) if was.id == is.id => {
                self.exchange_entry(was, is);
            }
            (Node::Part(_), Node::Part(_)) => {}
            _ => {
                self.remove_node(old);
                self.add_node(new);
            }
        }
    }

    // Of one entry each link that leads elsewhere is exchanged.
    fn exchange_entry(&mut self, old: &EntryNode, new: &EntryNode)
        requires { old.now.id ≡ new.now.id }
        ensures partial { self.new.partial ≡ false → self.old.partial ≡ false }
        ensures counts { self.new.partial ≡ false → (q : SpecId) → linked_count self.new q +
            links_to q (Node.Entry old.now) ≡
            linked_count self.old q + links_to q (Node.Entry new.now) }
        ensures sums { self.new.partial ≡ false → (q : SpecId) → IsSameSum
            (linked_sum self.new q + sum_to q (Node.Entry old.now))
            (linked_sum self.old q + sum_to q (Node.Entry new.now)) }
        ensures alike { LeadAlike (Node.Entry old.now) (Node.Entry new.now) → self.new ≡ self.old }
    {
        self.exchange_link(old.left, new.left, new.id);
        self.exchange_link(old.right, new.right, new.id);
        self.exchange_link(link_inside(&old.body), link_inside(&new.body), new.id);
    }

    fn exchange_link(&mut self, old: Option<Link>, new: Option<Link>, holder: FileId)
        ensures partial { self.new.partial ≡ false → self.old.partial ≡ false }
        ensures counts { self.new.partial ≡ false → (q : SpecId) → linked_count self.new q +
            link_count old q ≡ linked_count self.old q + link_count new q }
        ensures sums { self.new.partial ≡ false → (q : SpecId) → IsSameSum
            (linked_sum self.new q + link_count old q * holder.0)
            (linked_sum self.old q + link_count new q * holder.0) }
        ensures alike { target_of old ≡ target_of new → self.new ≡ self.old }
    {
        if target_of(old) != target_of(new) {
            self.remove_link(old, holder);
            self.add_link(new, holder);
        }
    }

    fn add_link(&mut self, link: Option<Link>, holder: FileId)
        ensures partial { self.new.partial ≡ false → self.old.partial ≡ false }
        ensures whole { 1 ≤ self.old.room →
            ((q : SpecId) → linked_count self.old q + link_count link q < 2 ^ 64) →
            self.old.partial ≡ false → self.new.partial ≡ false }
        ensures room { self.old.room ≤ self.new.room + 1 }
        ensures counts { self.new.partial ≡ false → (q : SpecId) →
            linked_count self.new q ≡ linked_count self.old q + link_count link q }
        ensures sums { self.new.partial ≡ false → (q : SpecId) →
            IsSameSum (linked_sum self.new q)
            (linked_sum self.old q + link_count link q * holder.0) }
    {
        if let Some(link) = link {
            self.add(link.id, holder);
        }
    }

    fn remove_link(&mut self, link: Option<Link>, holder: FileId)
        ensures partial { self.new.partial ≡ false → self.old.partial ≡ false }
        ensures counts { self.new.partial ≡ false → (q : SpecId) →
            linked_count self.new q + link_count link q ≡ linked_count self.old q }
        ensures sums { self.new.partial ≡ false → (q : SpecId) →
            IsSameSum (linked_sum self.old q)
            (linked_sum self.new q + link_count link q * holder.0) }
    {
        if let Some(link) = link {
            self.remove(link.id, holder);
        }
    }
}

// Where a link leads.
fn target_of(link: Option<Link>) -> Option<FileId>
    ensures { result ≡ target_of link }
{
    match link {
        Some(link) => Some(link.id),
        None => None,
    }
}

// The link inside a directory.
fn link_inside(body: &Body) -> Option<Link>
    ensures { result ≡ link_inside body.now }
{
    match *body {
        Body::Dir { top } => top,
        Body::File { .. } => None,
    }
}
