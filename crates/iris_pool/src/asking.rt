//! A caller's request is asked, and its call entered.

ghost use Rattle.std.specs.Prelude.{◌≡◌, ◌≤◌, ℕ, List, Some, None};
ghost use Rattle.iris_desk.specs.AtDesks.{asked_by};
ghost use Rattle.iris_invariant.specs.Events.{Asked};
ghost use Rattle.iris_pool.specs.Changes.{Entered, HoldsAlike, IsIdle};
ghost use Rattle.iris_pool.specs.View.{pool_view};

use crate::by_name::unpin_each;
use crate::pool::Pool;
use crate::seats;
use iris_name::Request;

impl Pool {
    /// Keeps the request of a caller for whom nothing is out, in place of an older one.
    pub fn ask(&mut self, who: u32, request: Request)
        requires caller { who ≤ 16 }
        requires idle { IsIdle self.old.desks who }
        ensures asked { (key : List ℕ) →
            Asked who (pool_view key self.old) (pool_view key self.new) }
        ensures request { asked_by self.new.desks who ≡ Some request }
        ensures nodes { self.new.nodes ≡ self.old.nodes }
        ensures pages { self.new.pages ≡ self.old.pages }
    {
        seats::ask(&mut self.desks, who, request);
    }

    /// Enters the call of a caller for whom nothing is out: its request is handed out, and what was kept for it is let go. It costs a
    /// look-up for each name that was kept.
    pub fn enter(&mut self, who: u32) -> Option<Request>
        requires caller { who ≤ 16 }
        requires idle { IsIdle self.old.desks who }
        ensures request { result ≡ asked_by self.old.desks who }
        ensures entered { (key : List ℕ) →
            Entered who (pool_view key self.old) (pool_view key self.new) }
        ensures alike { HoldsAlike self.old self.new }
    {
        let kept = self.desks.desk(who).kept();
        unpin_each(&mut self.cache, &mut self.blocks, kept, who);
        seats::enter(&mut self.desks, who)
    }
}
