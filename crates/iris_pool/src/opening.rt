//! What is there before any store was asked.

ghost use Rattle.std.specs.Prelude.{◌≡◌, None, OnOk, OnErr};
ghost use Rattle.iris_cache.specs.Resident.{held_node};
ghost use Rattle.iris_desk.specs.AtDesks.{out_of};
ghost use Rattle.iris_node.specs.Nodes.{name_of};
ghost use Rattle.iris_pool.specs.Opening.{NodeAdmitted};

use crate::pool::Pool;
use iris_name::{Name, NoMemory};
use iris_node::Node;

impl Pool {
    /// Takes a node in that no store has yet: dirty, settled and without a pin.
    pub fn admit(&mut self, parent: Option<Name>, node: Node) -> Result<(), NoMemory>
        requires absent { held_node self.old.nodes (name_of node) ≡ None }
        requires free { out_of self.old.desks (name_of node) ≡ None }
        ensures admitted { OnOk result (NodeAdmitted self.old self.new parent node) }
        ensures pages { self.new.pages ≡ self.old.pages }
        ensures desks { self.new.desks ≡ self.old.desks }
        ensures err { OnErr result (self.new ≡ self.old) }
    {
        let name = node.name();
        self.cache.room(&name)?;
        self.cache.insert(parent, node, 0);
        self.cache.unpin(&name, 0);
        self.cache.mark(&name);
        Ok(())
    }
}
