ghost use Rattle.std.specs.Prelude.{◌≡◌, List, [], ◌∷◌};

use std::marker::{Model, PhantomData};

/// What happened so far, the newest entry first. Only proofs read it.
#[derive(Drop)]
pub struct History<E> {
    of: PhantomData<E>,
    ghost entries: { List E },
}

impl<E> Model for History<E> {
    ghost use Rattle.std.specs.Prelude.{List};
    ghost use Rattle.std.specs.Borrow.{ftrue};

    ghost Value = { List E };

    ghost view = { λ h. h.entries };

    ghost also_owns = { λ _. ftrue };
}

impl<E> History<E> {
    /// The history in which nothing happened yet.
    pub fn new() -> Self
        ensures { result ≡ [] }
    {
        History { of: PhantomData }
    }

    /// Notes one entry. Nothing is done when it runs: the caller's proof makes the entry of the value that is shown.
    #[inline(always)]
    pub fn note<X>(&mut self, _shown: &X)
        ghost entry: { E }
        ensures { self.new ≡ entry ∷ self.old }
    {}
}

// It owns nothing, so any thread may have it.
unsafe impl<E> Send for History<E> {}

// Nothing is reached through it, so any thread may share it.
unsafe impl<E> Sync for History<E> {}
