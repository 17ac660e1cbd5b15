ghost use Rattle.std.specs.Prelude.{◌≡◌, ℕ, List, [], ◌∷◌, ◌++◌};
ghost use Rattle.vx_frame.specs.Frames.{Frame};
ghost use Rattle.vx_codec.specs.declared.decoding.Decoding.{Decoding};
ghost use Rattle.vx_record.specs.Records.{capped};
ghost use Rattle.vx_sourcecore.specs.NewLines.{AreObserved, IsObservedOf};

/// The lines that one read of a source completes. Each count stands still at its type's end.
#[derive(Clone, Copy, PartialEq, Eq, Debug)]
pub struct NewLines {
    /// Lines that were not too long.
    pub lines: u64,
    /// Lines that were too long.
    pub overlong: u64,
    /// Non-empty lines of an allowed length that gave no event.
    pub undecodable: u64,
}

impl NewLines {
    /// Those of a read that completes nothing.
    pub fn none() -> Self
        ensures { (d : Decoding) → AreObserved d [] 0 result }
    {
        NewLines {
            lines: 0,
            overlong: 0,
            undecodable: 0,
        }
    }

    /// Tells one line that was not too long: whether it is empty, and whether it gives an event.
    pub fn line(&mut self, empty: bool, gives: bool)
        ensures { (d : Decoding) → (given : List Frame) → (frame : Frame) → (over : ℕ) →
            IsObservedOf d frame empty gives → AreObserved d given over self.old →
            AreObserved d (given ++ frame ∷ []) over self.new }
    {
        self.lines = self.lines.saturating_add(1);
        if !empty && !gives {
            self.undecodable = self.undecodable.saturating_add(1);
        }
    }

    /// Tells how many lines were too long.
    pub fn too_long(&mut self, over: u64)
        ensures { (d : Decoding) → (given : List Frame) → (n : ℕ) → over ≡ capped n →
            AreObserved d given 0 self.old → AreObserved d given n self.new }
    {
        self.overlong = over;
    }
}
