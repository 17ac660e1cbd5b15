ghost use Rattle.std.specs.Prelude.{◌≡◌, ◌/◌, ◌%◌, ◌^◌, ◌==◌, Some, None, nat_lt, nat_le, if◌then◌else◌};
ghost use Rattle.vx_json.specs.ProbeModes.{opened};

/// Behind this many the next level is one too many.
const FULL: u64 = 0x1_0000_0000;

/// The brackets and braces that are open, at most 32.
#[derive(Clone, Copy)]
pub struct Nesting {
    /// Behind a leading 1 a bit for each level, the innermost last: 1 for an object.
    kinds: u64,
}

impl Nesting {
    /// Nothing is open.
    pub fn none() -> Self
        ensures { result.kinds ≡ 1 }
    {
        Nesting { kinds: 1 }
    }

    /// Whether nothing is open.
    pub fn is_empty(&self) -> bool
        ensures { result ≡ (self.now.kinds == 1) }
    {
        self.kinds == 1
    }

    /// Whether no more may be opened.
    pub fn is_full(&self) -> bool
        ensures { result ≡ nat_le (2 ^ 32) self.now.kinds }
    {
        self.kinds >= FULL
    }

    /// Whether the innermost level is an object. `None` where nothing is open.
    pub fn innermost(&self) -> Option<bool>
        ensures { result ≡ (if self.now.kinds == 1 then None else Some (self.now.kinds % 2 == 1)) }
    {
        if self.is_empty() {
            return None;
        }
        Some(self.kinds % 2 == 1)
    }

    /// Opens a level, where it can.
    pub fn open(&mut self, is_object: bool)
        ensures { self.new.kinds
            ≡ (if nat_lt self.old.kinds
            (2 ^ 32) then opened is_object self.old.kinds else self.old.kinds) }
    {
        if self.is_full() {
            return;
        }
        self.kinds = self.kinds * 2 + is_object as u64;
    }

    /// Closes the innermost level.
    pub fn close(&mut self)
        ensures { self.new.kinds ≡ self.old.kinds / 2 }
    {
        self.kinds /= 2;
    }
}
