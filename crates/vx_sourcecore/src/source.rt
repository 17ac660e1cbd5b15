ghost use Rattle.std.specs.Prelude.{◌≡◌, ◌++◌, length, OnOk};
ghost use Rattle.vx_json.specs.LineEvents.{event_fields};
ghost use Rattle.vx_record.specs.Reads.{event_with};

use crate::framing::framed;
use crate::new_lines::NewLines;
use std::alloc::Global;
use std::snapshot::Snapshot;
use vx_ends::{Port, Took, Trouble};
use vx_frame::{Framer, LineList};
use vx_json::{Decoding, line_into_event};
use vx_ledger::{SharedEvent, SharedEventList};
use vx_value::{Event, Text, WantOfMemory};

/// The greatest number of bytes that one take asks for.
const ROOM: usize = 65_536;

/// The lines that one read completes: their events, the end of the last of them in its stream's bytes, also where that
/// gave no event (0 where no line was completed), and how many lines there were.
#[derive(Drop)]
pub struct Cut {
    pub events: SharedEventList,
    pub end: u64,
    pub new: NewLines,
}

/// What one turn of a source brought. Where memory was wanting while its lines were cut there is no `Cut`: then the port
/// took what is said, and the source is of no use any more.
#[derive(Drop)]
pub enum Turned {
    /// Bytes of a stream: the first `n` of the room as it was then, or of the lines that a generator made.
    Lines {
        stream: u64,
        n: u32,
        room: Snapshot<Vec<u8>>,
        cut: Option<Cut>,
    },
    /// The stream has ended, and that completes its unfinished line, if there is one.
    StreamEnded {
        stream: u64,
        cut: Option<Cut>,
    },
    /// All has ended, and with it the stream that bytes were last taken of, which is 0 where none were.
    AllEnded {
        stream: u64,
        cut: Option<Cut>,
    },
    /// There is nothing now.
    Idle,
    /// The device failed, at its start or at the take.
    Failed {
        at_start: bool,
    },
}

/// A source at work: it cuts the bytes that it takes into lines, and makes the events of those by its codec.
#[derive(Drop)]
pub struct SourceCore {
    alloc: Global,
    decoding: Decoding,
    source_type: Text,
    file: Option<Text>,
    room: Vec<u8>,
    framer: Framer,
    last: Option<u64>,
    ghost roomy: { length room.items ≡ 65536 },
    ghost observed: { framer.overlong ≡ 0 },
}

impl SourceCore {
    ghost use Rattle.std.specs.Prelude.{◌≡◌, ℕ, ◌≤◌, List, length, take, true, unwrap_or, IfOk, OnErr, IfSome, IsTrue};
    ghost use Rattle.vx_sourcecore.specs.declared.source.SourceCore.{SourceCore};
    ghost use Rattle.vx_record.specs.Records.{Record, capped};
    ghost use Rattle.vx_ends.specs.Observation.{CountsBy, nothing};
    ghost use Rattle.vx_sourcecore.specs.Turns.{DidTake, IsUnmoved, IsInRoom, StartsAtMost, cut_of, turn_counts};
    ghost use Rattle.vx_sourcecore.specs.Sources.{IsOf, HasFed, HasFinished, HasBrought, BringsSome, IsOfOpen, IsSame, IsFresh, HasGathered};
    ghost use Rattle.vx_sourcecore.specs.Abreast.{IsAbreast, HasTurned, MayTurnOn};

    /// A source that takes lines of at most `limit` bytes, and decodes each. Their events have its type, and the path of its file if it
    /// reads one.
    ///
    /// Answers `Err` where no memory is found.
    pub fn new(
        alloc: Global,
        limit: u32,
        decoding: Decoding,
        source_type: Text,
        file: Option<Text>,
    ) -> Result<Self, WantOfMemory>
        ensures { IfOk result (IsFresh limit decoding source_type file) }
    {
        let room = vec![in alloc; 0u8; ROOM]?;
        Ok(SourceCore {
            alloc,
            decoding,
            source_type,
            file,
            room,
            framer: Framer::new(alloc, limit),
            last: None,
        })
    }

    /// Starts the port if it isn't started, and makes one take, of at most 65,536 bytes.
    ///
    /// Answers `Err` where the port finds no memory: then nothing moved, and the source is as it was. Where no memory is found to cut
    /// what was taken, the answer tells that without a `Cut`.
    pub fn turn<P: Port>(&mut self, port: &mut P) -> Result<Turned, WantOfMemory>
        ensures did { IfOk result (λ turned. DidTake (P.observed port.old) turned (P.observed port.new)) }
        ensures counts { IfOk result
            (λ turned. CountsBy (turn_counts (P.observed port.old).started turned) (P.observed port.old)
            (P.observed port.new)) }
        ensures unmoved { OnErr result (IsUnmoved (P.observed port.old) (P.observed port.new)) }
        ensures uncounted { OnErr result (StartsAtMost (P.observed port.old) (P.observed port.new)) }
        ensures whole { IfOk result IsInRoom }
        ensures few { IfOk result
            (λ turned. IfSome (cut_of turned) (λ cut. length cut.events ≤ 65536)) }
        ensures turned { IfOk result
            (λ turned. (h : Record) → (i : ℕ) → MayTurnOn h i (P.observed port.old).ended →
            IsAbreast h i self.old → HasTurned h i self.new turned) }
        ensures stays { OnErr result
            ((h : Record) → (i : ℕ) → IsAbreast h i self.old → IsAbreast h i self.new) }
    {
        match port.start() {
            Ok(()) => self.take(port),
            Err(Trouble::WantOfMemory) => Err(WantOfMemory),
            Err(_) => Ok(Turned::Failed { at_start: true }),
        }
    }

    /// Makes one take of a port.
    fn take<P: Port>(&mut self, port: &mut P) -> Result<Turned, WantOfMemory>
        requires { IsTrue (P.observed port.old).started }
        ensures did { IfOk result (λ turned. DidTake (P.observed port.old) turned (P.observed port.new)) }
        ensures counts { IfOk result
            (λ turned. CountsBy (turn_counts true turned) (P.observed port.old) (P.observed port.new)) }
        ensures unmoved { OnErr result (IsUnmoved (P.observed port.old) (P.observed port.new)) }
        ensures uncounted { OnErr result (CountsBy nothing (P.observed port.old) (P.observed port.new)) }
        ensures whole { IfOk result IsInRoom }
        ensures some { IfOk result BringsSome }
        ensures open { IfOk result (IsOfOpen (P.observed port.old).ended) }
        ensures brings { IfOk result (λ turned. HasBrought self.old turned self.new) }
        ensures same { OnErr result (IsSame self.old self.new) }
    {
        match port.take(self.room.as_mut_slice()) {
            Ok(Took::Bytes { stream, n }) => {
                let room = Snapshot::of(&self.room);
                let cut = self.cut(stream, n);
                Ok(Turned::Lines {
                    stream,
                    n,
                    room,
                    cut,
                })
            }
            Ok(Took::StreamEnded { stream }) => {
                let cut = self.finish(stream);
                Ok(Turned::StreamEnded { stream, cut })
            }
            Ok(Took::AllEnded) => {
                let (stream, cut) = self.finish_last();
                Ok(Turned::AllEnded { stream, cut })
            }
            Ok(Took::Idle) => Ok(Turned::Idle),
            Err(Trouble::WantOfMemory) => Err(WantOfMemory),
            Err(_) => Ok(Turned::Failed { at_start: false }),
        }
    }

    /// The lines that the first `n` bytes of the room complete, which are of a stream; `None` where no memory is found.
    fn cut(&mut self, stream: u64, n: u32) -> Option<Cut>
        requires { n ≤ 65536 }
        ensures { IfSome result
            (λ cut. HasFed self.old stream (take n self.old.room.items) cut self.new) }
    {
        let bytes = &self.room[..n as usize];
        let framed = framed(self.alloc, &mut self.framer, stream, bytes);
        self.cut_framed(stream, framed)
    }

    /// The lines that bytes of a stream complete, which no port gave; `None` where no memory is found.
    pub(crate) fn feed(&mut self, stream: u64, bytes: &[u8]) -> Option<Cut>
        ensures { IfSome result (λ cut. HasFed self.old stream bytes.now cut self.new) }
    {
        let framed = framed(self.alloc, &mut self.framer, stream, bytes);
        self.cut_framed(stream, framed)
    }

    /// What the lines give that the framer made of a stream's bytes; `None` where no memory is found, be it for them or for what they give.
    fn cut_framed(&mut self, stream: u64, framed: Option<(LineList, u64)>) -> Option<Cut>
        ensures { (old : SourceCore) → (bytes : List ℕ) →
            IfSome framed (λ lines. HasGathered old stream bytes lines.0 lines.1 self.old) →
            IfSome result (λ cut. HasFed old stream bytes cut self.new) }
    {
        let (lines, overlong) = framed?;
        self.last = Some(stream);
        self.lines(lines, overlong).ok()
    }

    /// The stream of which bytes were last taken, which is 0 where none were, and the unfinished line with which it ends, if there is
    /// one; in place of that `None` where no memory is found.
    pub(crate) fn finish_last(&mut self) -> (u64, Option<Cut>)
        ensures stream { result.0 ≡ unwrap_or self.old.last 0 }
        ensures cut { IfSome result.1 (λ cut. HasFinished self.old result.0 cut self.new) }
    {
        let stream = self.last.unwrap_or(0);
        let cut = self.finish(stream);
        (stream, cut)
    }

    /// Where it finds memory.
    pub(crate) fn alloc(&self) -> Global
        ensures { result ≡ self.now.alloc }
    {
        self.alloc
    }

    /// The unfinished line with which a stream ends, if there is one; `None` where no memory is found.
    fn finish(&mut self, stream: u64) -> Option<Cut>
        ensures { IfSome result (λ cut. HasFinished self.old stream cut self.new) }
    {
        let mut lines = LineList::new(self.alloc);
        let finished = self.framer.finish(stream, &mut lines);
        let overlong = self.framer.take_overlong();
        if finished.is_err() {
            return None;
        }
        self.lines(lines, overlong).ok()
    }

    /// What some lines give, beside so many that were too long.
    fn lines(&self, lines: LineList, overlong: u64) -> Result<Cut, WantOfMemory>
        ensures { IfOk result
            (λ cut. (over : ℕ) → overlong ≡ capped over →
            IsOf self.now.decoding self.now.source_type self.now.file lines over cut) }
    {
        let mut cut = Cut {
            events: SharedEventList::new(self.alloc),
            end: 0,
            new: NewLines::none(),
        };
        for line in lines.into_vec() {
            let bare = line.bytes.as_slice().is_empty();
            let file = self.file.as_ref();
            let event = line_into_event(
                self.alloc,
                self.decoding,
                line.bytes,
                &self.source_type,
                file,
            )?;
            cut.new.line(bare, event.is_some());
            push(self.alloc, &mut cut.events, event)?;
            cut.end = line.end;
        }
        cut.new.too_long(overlong);
        Ok(cut)
    }
}

/// Adds an event, if there is one.
fn push(
    alloc: Global,
    events: &mut SharedEventList,
    event: Option<Event>,
) -> Result<(), WantOfMemory>
    ensures { OnOk result (events.new ≡ events.old ++ event_with (event_fields event)) }
{
    let Some(event) = event else {
        return Ok(());
    };
    match events.push(SharedEvent::new(alloc, event)?) {
        Ok(()) => Ok(()),
        Err(_) => Err(WantOfMemory),
    }
}
