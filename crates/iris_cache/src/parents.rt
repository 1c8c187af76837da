//! The parents of names with changes made.

ghost use Rattle.std.specs.Prelude.{◌≡◌};
ghost use Rattle.iris_cache.specs.Pictures.{parent_after};

use crate::cache::Cache;
use crate::draft::Draft;
use iris_name::Name;

impl Draft {
    /// The parent of a name with the changes made, where it has one.
    pub fn parent(&self, cache: &Cache, name: &Name) -> Option<Name>
        ensures { result ≡ parent_after self.now cache.now name.now }
    {
        match self.changes.get(name) {
            Some(change) => change.parent,
            None => cache.find(name)?.parent,
        }
    }
}
