ghost use Rattle.std.specs.Prelude.{◌≡◌, [], ◌∷◌, OnOk, IfSome, IsNone, IfNone, ◌↔◌};

use crate::frame::Frame;
use std::alloc::Global;
use std::marker::Model;
use vx_value::WantOfMemory;

/// The frames around another. Contracts see their list, the innermost first.
#[derive(Drop)]
pub struct FrameStack {
    frames: Vec<Frame>,
}

impl Model for FrameStack {
    ghost use Rattle.std.specs.Prelude.{List, reverse};
    ghost use Rattle.vx_condition.specs.declared.frame.Frame.{Frame};
    ghost use Rattle.std.specs.Coded.{coded_list};
    ghost use Rattle.vx_condition.specs.FrameCode.{coded_frame};

    ghost Value = { List Frame };

    ghost coded = { coded_list coded_frame };

    ghost view = { λ s. reverse s.frames.items };
}

impl FrameStack {
    /// No frames. It takes no memory.
    pub fn new(alloc: Global) -> Self
        ensures { result ≡ [] }
    {
        FrameStack {
            frames: Vec::new(alloc),
        }
    }

    /// Puts a frame inside the others.
    pub fn push(&mut self, frame: Frame) -> Result<(), WantOfMemory>
        ensures { OnOk result (self.new ≡ frame ∷ self.old) }
    {
        self.frames.push(frame)?;
        Ok(())
    }

    /// Takes the innermost frame. `None` exactly where there is none.
    pub fn pop(&mut self) -> Option<Frame>
        ensures some { IfSome result (λ frame. self.old ≡ frame ∷ self.new) }
        ensures none { IsNone result ↔ (self.old ≡ []) }
        ensures empty { IfNone result (self.new ≡ []) }
    {
        self.frames.pop()
    }
}
