//! The pool, and what it lends.

ghost use Rattle.std.specs.Prelude.{◌≡◌, ℕ, None, IfOk, false};
ghost use Rattle.iris_blocks.specs.Paged.{held_page};
ghost use Rattle.iris_cache.specs.Resident.{held_node};
ghost use Rattle.iris_desk.specs.AtDesks.{asked_by, is_doomed, keeps_for, out_of};
ghost use Rattle.iris_name.specs.declared.name.Name.{Name as SpecName};
ghost use Rattle.iris_pool.specs.View.{IsPool};

use iris_blocks::Blocks;
use iris_cache::Cache;
use iris_desk::Desks;
use iris_name::NoMemory;
use std::alloc::Global;
use std::marker::Model;

/// The buffer pool: the cached nodes, the resident blocks, and the desks, where something is asked, out and kept for each caller.
#[derive(Drop)]
pub struct Pool {
    pub(crate) cache: Cache,
    pub(crate) blocks: Blocks,
    pub(crate) desks: Desks,
}

impl Model for Pool {
    ghost use Rattle.iris_pool.specs.Pool.{PoolState};
    ghost use Rattle.iris_pool.specs.View.{IsPool};

    ghost Value = { PoolState };

    ghost view = { λ a. record { nodes = a.cache; pages = a.blocks; desks = a.desks } };

    ghost invariant = { λ a.
        IsPool (record { nodes = a.cache; pages = a.blocks; desks = a.desks }) };
}

impl Pool {
    /// Nothing is held, asked, out, kept or doomed.
    pub fn new(alloc: Global) -> Result<Pool, NoMemory>
        ensures nodes { IfOk result (λ p. (n : SpecName) → held_node p.nodes n ≡ None) }
        ensures pages { IfOk result (λ p. (n : SpecName) → held_page p.pages n ≡ None) }
        ensures asked { IfOk result (λ p. (w : ℕ) → asked_by p.desks w ≡ None) }
        ensures out { IfOk result (λ p. (n : SpecName) → out_of p.desks n ≡ None) }
        ensures kept { IfOk result (λ p.
            (w : ℕ) (n : SpecName) → keeps_for p.desks w n ≡ false) }
        ensures doomed { IfOk result (λ p. (n : SpecName) → is_doomed p.desks n ≡ false) }
    {
        Ok(Pool {
            cache: Cache::new(alloc),
            blocks: Blocks::new(alloc),
            desks: Desks::new(alloc)?,
        })
    }

    /// What every pool keeps.
    pub fn sound(&self)
        ensures { IsPool self.now }
    {
        let _ = &self.cache;
    }

    /// The cached nodes.
    pub fn cache(&self) -> &Cache
        ensures { result.now ≡ self.now.nodes }
    {
        &self.cache
    }

    /// The resident blocks.
    pub fn blocks(&self) -> &Blocks
        ensures { result.now ≡ self.now.pages }
    {
        &self.blocks
    }

    /// What is asked, out, kept and doomed.
    pub fn desks(&self) -> &Desks
        ensures { result.now ≡ self.now.desks }
    {
        &self.desks
    }
}
