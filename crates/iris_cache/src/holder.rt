//! Which resident node holds a hash of a name.

ghost use Rattle.std.specs.Prelude.{◌≡◌, None, IfSome};
ghost use Rattle.iris_cache.specs.Holders.{IsHolder, HasNoHolder, link_leads, side_leads, body_leads, has_hash_of};

use crate::cache::Cache;
use crate::parts::{high_part, low_part, part_above, top_part};
use iris_links::Holders;
use iris_name::{FileId, Name};
use iris_node::{Body, Link, Node, Side};

impl Cache {
    /// A resident node that holds a hash of a name, if there is one: the parent that `insert` wants for its node.
    /// It takes one look-up. It goes over all that is resident only where several resident links lead to an entry,
    /// or where there wasn't memory to count one.
    pub fn holder(&self, name: &Name) -> Option<Name>
        ensures found { IfSome result (λ p. IsHolder self.now p name.now) }
        ensures none { result ≡ None → HasNoHolder self.now name.now }
    {
        match *name {
            Name::Entry { id } => self.entry_holder(name, id),
            Name::Part { file, level, index } => self.part_holder(name, file, level, index),
            Name::Block { .. } => None,
        }
    }

    fn entry_holder(&self, name: &Name, id: FileId) -> Option<Name>
        requires { name.now ≡ Name.Entry id }
        ensures found { IfSome result (λ p. IsHolder self.now p name.now) }
        ensures none { result ≡ None → HasNoHolder self.now name.now }
    {
        match self.links.holders(id) {
            Holders::Nobody => None,
            Holders::One(holder) => Some(Name::Entry { id: holder }),
            Holders::More | Holders::Unknown => self.any_holder(name),
        }
    }

    fn part_holder(&self, name: &Name, file: FileId, level: u8, index: u32) -> Option<Name>
        requires { name.now ≡ Name.Part file level index }
        ensures found { IfSome result (λ p. IsHolder self.now p name.now) }
        ensures none { result ≡ None → HasNoHolder self.now name.now }
    {
        let _ = &self.nodes;
        self.holder_at(part_above(file, level, index), name)
    }

    // A node, where it is resident and holds a hash of a name.
    fn holder_at(&self, at: Name, name: &Name) -> Option<Name>
        ensures found { IfSome result (λ p. IsHolder self.now p name.now) }
        ensures none { result ≡ None → IsHolder self.now at name.now → ⊥ }
    {
        match self.find(&at) {
            Some(held) if has_hash_of(&held.node, name) => Some(at),
            _ => None,
        }
    }

    // Any node that holds a hash of a name, by a pass over all that is resident.
    fn any_holder(&self, name: &Name) -> Option<Name>
        ensures found { IfSome result (λ p. IsHolder self.now p name.now) }
        ensures none { result ≡ None → HasNoHolder self.now name.now }
    {
        self.sound();
        for i in 0..self.count() {
            let (parent, held) = self.at(i);
            if has_hash_of(&held.node, name) {
                return Some(*parent);
            }
        }
        None
    }
}

// Whether a node holds a hash of a name.
fn has_hash_of(node: &Node, name: &Name) -> bool
    ensures { result ≡ has_hash_of node.now name.now }
{
    match node {
        Node::Entry(entry) => {
            link_leads(entry.left, name)
                || link_leads(entry.right, name)
                || body_leads(entry.id, &entry.body, name)
        }
        Node::Part(part) => {
            side_leads(low_part(part), part.low, name)
                || side_leads(high_part(part), part.high, name)
        }
    }
}

fn body_leads(id: FileId, body: &Body, name: &Name) -> bool
    ensures { result ≡ body_leads id body.now name.now }
{
    match *body {
        Body::Dir { top } => link_leads(top, name),
        Body::File { versions, .. } => side_leads(top_part(id), versions, name),
    }
}

fn link_leads(link: Option<Link>, name: &Name) -> bool
    ensures { result ≡ link_leads link name.now }
{
    match link {
        Some(link) => (Name::Entry { id: link.id }) == *name,
        None => false,
    }
}

fn side_leads(part: Name, side: Side, name: &Name) -> bool
    ensures { result ≡ side_leads part side name.now }
{
    match side {
        Side::Below(_) => part == *name,
        Side::Fold(_) => false,
    }
}
