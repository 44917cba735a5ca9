// What a walk knows beside its tables, and how it changes.
ghost use Rattle.std.specs.Prelude.{◌≡◌, ◌<◌};
ghost use Rattle.walk.specs.Walk.{fresh_walker, refused_as, root_passed, current_at, back_at, at_end, ring_said};
ghost use Rattle.writer.specs.Tables.{far};

use join_pool::Pool;
use walk_entry::WalkError;

#[derive(Clone, Copy, Debug, PartialEq, Eq)]
pub struct Walker {
    // The next root to try.
    pub next: u32,
    // The current atom, if there is one.
    pub here: Option<u32>,
    // How many atoms were left since the last event.
    pub pend: usize,
    // How many were met.
    pub count: u32,
    pub pool: Pool,
    // Why it stopped, if it did.
    pub refusal: Option<WalkError>,
}

impl Walker {
    // Nothing met.
    pub fn start(pool: Pool) -> Walker
        ensures { result ≡ fresh_walker pool }
    {
        Walker {
            next: 0,
            here: None,
            pend: 0,
            count: 0,
            pool,
            refusal: None,
        }
    }

    pub fn refused(mut self, why: WalkError) -> Walker
        ensures { result ≡ refused_as self why }
    {
        self.refusal = Some(why);
        self
    }

    // The next root passed over.
    pub fn pass(mut self) -> Walker
        requires { self.next < far }
        ensures { result ≡ root_passed self }
    {
        self.next += 1;
        self
    }

    // An atom met: it is the current one, and the atoms left before were popped.
    pub fn meet(mut self, a: u32) -> Walker
        requires { self.count < far }
        ensures { result ≡ current_at self a }
    {
        self.here = Some(a);
        self.pend = 0;
        self.count += 1;
        self
    }

    // The current atom left for the one that it was reached from.
    pub fn leave(mut self, a: u32) -> Walker
        requires { self.pend < far }
        ensures { result ≡ back_at self a }
    {
        self.here = Some(a);
        self.pend += 1;
        self
    }

    // The end of a component: what was left is never popped.
    pub fn end(mut self) -> Walker
        ensures { result ≡ at_end self }
    {
        self.here = None;
        self.pend = 0;
        self
    }

    // A ring number handed out: the atoms left before were popped.
    pub fn ring(mut self) -> Walker
        ensures { result ≡ ring_said self self.pool }
    {
        self.pend = 0;
        self
    }
}
