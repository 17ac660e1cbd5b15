ghost use Rattle.std.specs.Prelude.{◌≡◌, ◌+◌, ◌-◌, ◌<◌, ◌^◌, min};
ghost use Rattle.vx_ends_os.specs.Places.{offset_at, first_place, next_of, anew, opened};

/// The greatest offset that a checkpoint keeps.
pub(crate) const GREATEST: u64 = (1 << 63) - 1;

/// How far a stream was taken, and at which of its positions, and at which offset, the file under way was begun.
///
/// A position counts the bytes of the whole stream. So where another file is begun, positions go on and offsets do not.
#[derive(Clone, Copy)]
pub(crate) struct Place {
    from: u64,
    base: u64,
    taken: u64,
}

impl Place {
    /// A stream of which nothing was taken yet, and whose file is begun at that offset.
    pub(crate) fn new(offset: u64) -> Self
        ensures { result ≡ first_place offset }
    {
        Place {
            from: 0,
            base: offset,
            taken: 0,
        }
    }

    /// The offset that is done with once the stream is done with up to a position.
    pub(crate) fn offset_of(&self, position: u64) -> u64
        ensures offset { result ≡ offset_at self.now.from self.now.base position }
        ensures kept { result < 2 ^ 63 }
    {
        if position < self.from {
            return 0;
        }
        let passed = position - self.from;
        self.base.saturating_add(passed).min(GREATEST)
    }

    /// The offset of the next byte to take.
    pub(crate) fn next(&self) -> u64
        ensures offset { result ≡ next_of self.now }
        ensures kept { result < 2 ^ 63 }
    {
        self.offset_of(self.taken)
    }

    /// Counts bytes that were taken.
    pub(crate) fn took(&mut self, n: u64)
        ensures taken { self.new.taken ≡ min (self.old.taken + n) (2 ^ 64 - 1) }
        ensures rest { self.new ≡ record self.old { taken = self.new.taken } }
    {
        self.taken = self.taken.saturating_add(n);
    }

    /// The place at the front of another file: the next byte to take is its first.
    pub(crate) fn anew(self) -> Self
        ensures { result ≡ anew self }
    {
        Place {
            from: self.taken,
            base: 0,
            taken: self.taken,
        }
    }

    /// The place in a file of so many bytes that was opened: at its front, where it is shorter.
    pub(crate) fn opened(self, length: u64) -> Self
        ensures { result ≡ opened length self }
    {
        if length < self.next() {
            self.anew()
        } else {
            self
        }
    }
}
