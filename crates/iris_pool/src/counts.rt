//! How many names are marked.

ghost use Rattle.std.specs.Prelude.{◌≡◌};
ghost use Rattle.iris_pool.specs.Counts.{marked_blocks, marked_nodes};

use crate::pool::Pool;

impl Pool {
    /// How many blocks are marked: dirty or doomed. It goes over none.
    pub fn marked_blocks(&self) -> u64
        ensures { result ≡ marked_blocks self.now }
    {
        let doomed = self.desks.doomed_blocks();
        let most = self.desks.doomed().len();
        prove!(doomed <= most);
        self.blocks.dirty() as u64 + doomed as u64
    }

    /// How many nodes are marked: dirty, or doomed and no blocks. It goes over none.
    pub fn marked_nodes(&self) -> u64
        ensures { result ≡ marked_nodes self.now }
    {
        let doomed = self.desks.doomed().len() - self.desks.doomed_blocks();
        self.cache.dirty() as u64 + doomed as u64
    }
}
