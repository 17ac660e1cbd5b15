ghost use Rattle.std.specs.Prelude.{ℕ};

/// A clock in milliseconds.
pub trait Clock {
    /// Whether the clock gave a moment. Only `now` tells it.
    ghost gave: { Self → ℕ → Type 0 };

    /// The moment, in milliseconds from one that the clock chooses.
    fn now(&self) -> u64
        ensures { gave self.now result };

    /// Waits until that moment, at the most.
    fn rest(&self, until: u64);
}
