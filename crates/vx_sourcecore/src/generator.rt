ghost use Rattle.std.specs.Prelude.{◌≡◌, ℕ, ◌<◌, ◌≤◌, true};
ghost use Rattle.std.specs.List.{list_all};
ghost use Rattle.vx_sourcecore.specs.Lines.{is_unbroken, next_lines, behind};

use crate::demo_lines::Lines;
use crate::source::{SourceCore, Turned};
use std::snapshot::Snapshot;
use vx_demo::DemoSettings;
use vx_value::{Bytes, WantOfMemory};

/// A source that makes its lines itself, all of stream 0, and cuts them like bytes that it took. It needs no port.
#[derive(Drop)]
pub struct Generator {
    core: SourceCore,
    lines: Lines,
    most: u32,
    ghost some: { 0 < most },
    ghost few: { most ≤ 64 },
    ghost unbroken: { list_all is_unbroken lines.settings.lines ≡ true },
}

impl Generator {
    ghost use Rattle.std.specs.Prelude.{[], length, false, IfOk, OnOk, OnErr, IsSome, IfSome};
    ghost use Rattle.vx_record.specs.Records.{Record};
    ghost use Rattle.vx_record.specs.Reads.{all_ended, ended_streams};
    ghost use Rattle.vx_sourcecore.specs.Turns.{IsInRoom, reading_of, cut_of};
    ghost use Rattle.vx_sourcecore.specs.Generators.{IsBegun, IsGenerating, IsMade, HasMade, IsNext};

    /// A source at its beginning that makes lines of some settings, `most` of them at once (1 to 64). It takes no memory.
    ///
    /// There is a text, and none has a line feed.
    pub fn new(core: SourceCore, demo: DemoSettings, most: u32) -> Self
        requires texts { 0 < length demo.lines }
        requires unbroken { list_all is_unbroken demo.lines ≡ true }
        requires some { 0 < most }
        requires few { most ≤ 64 }
        ensures { IsBegun core demo most result }
    {
        Generator {
            core,
            lines: Lines::new(demo),
            most,
        }
    }

    /// Makes the next lines and cuts them, or tells the end of all behind the last.
    ///
    /// Answers `Err` where no memory is found for the lines, or where they have more than 4,294,967,295 bytes: then it is as it was.
    /// Where no memory is found to cut them, the answer tells that without a `Cut`.
    pub fn turn(&mut self) -> Result<Turned, WantOfMemory>
        ensures whole { IfOk result IsInRoom }
        ensures few { IfOk result
            (λ turned. IfSome (cut_of turned) (λ cut. length cut.events ≤ 65536)) }
        ensures reads { IfOk result IsMade }
        ensures next { IfOk result
            (λ turned. (h : Record) → (i : ℕ) → all_ended h i ≡ false → IsGenerating h i self.old →
            IsNext h i turned) }
        ensures made { IfOk result
            (λ turned. (h : Record) → (i : ℕ) → all_ended h i ≡ false → IsGenerating h i self.old →
            HasMade h i self.new turned) }
        ensures stays { OnErr result
            ((h : Record) → (i : ℕ) → IsGenerating h i self.old → IsGenerating h i self.new) }
    {
        let left = self.lines.left();
        if left == 0 {
            let (stream, cut) = self.core.finish_last();
            return Ok(Turned::AllEnded { stream, cut });
        }
        let (bytes, n) = self.next_lines()?;
        let room = Snapshot::of(&bytes);
        let cut = self.core.feed(0, bytes.as_slice());
        Ok(Turned::Lines {
            stream: 0,
            n,
            room,
            cut,
        })
    }

    /// The next lines, and how many bytes they have.
    ///
    /// Answers `Err` where no memory is found for them, or where they have more than 4,294,967,295 bytes: then it is as it was.
    fn next_lines(&mut self) -> Result<(Vec<u8>, u32), WantOfMemory>
        ensures lines { IfOk result
            (λ made. made.0.items ≡ next_lines self.old.lines self.old.most) }
        ensures bytes { IfOk result (λ made. made.1 ≡ length made.0.items) }
        ensures given { OnOk result
            (self.new ≡ record self.old { lines = behind self.old.lines self.old.most }) }
        ensures same { OnErr result (self.new ≡ self.old) }
    {
        let mut bytes = Bytes::new(self.core.alloc());
        let n = self.lines.next(self.most, &mut bytes)?;
        let bytes = bytes.into_vec();
        let Ok(len) = u32::try_from(bytes.len()) else {
            self.lines.take_back(n);
            return Err(WantOfMemory);
        };
        Ok((bytes, len))
    }
}
