ghost use Rattle.std.specs.Prelude.{◌≡◌, ◌<◌, length, IfSome, IsSomeAnd};
ghost use Rattle.std.specs.Option.{option_map, is_none};
ghost use Rattle.vx_record.specs.declared.entry.Entry.TheVariants.{Read, Idle, SourceLost};
ghost use Rattle.vx_record.specs.Records.{capped};
ghost use Rattle.vx_record.specs.Reads.{bytes_taken, bytes_of, is_end};
ghost use Rattle.vx_record.specs.Abandoning.{MayStillCome};
ghost use Rattle.vx_record.specs.Sourcing.{MayIdle, MayBeLost};
ghost use Rattle.vx_sourcecore.specs.declared.source.Cut.{Cut};
ghost use Rattle.vx_sourcecore.specs.Turns.{reading_of, cut_of, IsInRoom};
ghost use Rattle.vx_instances.specs.Calls.{CountsAt};
ghost use Rattle.vx_moves.specs.Leaving.{Leaves, LeavesUnobserved};
ghost use Rattle.vx_moves.specs.Reading.{MayNoteRead};
ghost use Rattle.vx_moves.specs.Stands.{Stands, Steps};

use crate::engine::EngineState;
use vx_ends::Port;
use vx_sourcecore::{Cut, NewLines, Turned};

impl<P: Port> EngineState<P> {
    /// Notes what a turn of a source that is out took. Where no memory was found to cut it into lines, what the source counts isn't
    /// known any more.
    pub fn read(&mut self, i: u32, turned: &Turned)
        requires stands { Stands P.observed self.old }
        requires within { i < length self.old.states }
        requires whole { IsInRoom turned.now }
        requires may { IsSomeAnd (reading_of turned.now)
            (MayNoteRead self.old.log i (cut_of turned.now)) }
        ensures steps { IsSomeAnd (reading_of turned.now)
            (λ reading. Steps P.observed (Read i reading.stream reading.took) self.old self.new) }
        ensures leaves { LeavesUnobserved (is_none (cut_of turned.now)) i self.old self.new }
    {
        let bytes = bytes_in(turned);
        let new = new_in(turned);
        let all = ends_all(turned);
        self.states.read(i, bytes, new, all);
        self.log.note(&(i, turned));
    }

    /// Notes that the port of a source that is out had nothing, or failed to start and is tried again.
    pub fn idle(&mut self, i: u32, failed: bool)
        requires stands { Stands P.observed self.old }
        requires within { i < length self.old.states }
        requires may { MayIdle self.old.log i failed }
        requires left { MayStillCome self.old.log (Idle i failed) }
        ensures steps { Steps P.observed (Idle i failed) self.old self.new }
        ensures leaves { Leaves self.old self.new }
    {
        self.states.idle(i, failed);
        self.log.note(&(i, failed));
    }

    /// Notes that a source that is out is lost, by a failed start or a failed take.
    pub fn lose(&mut self, i: u32, failed: bool)
        requires stands { Stands P.observed self.old }
        requires within { i < length self.old.states }
        requires fit { CountsAt self.old.states i }
        requires may { MayBeLost self.old.log i (capped (bytes_taken self.old.log i)) failed }
        requires left { MayStillCome self.old.log
            (SourceLost i (capped (bytes_taken self.old.log i)) failed) }
        ensures steps { Steps P.observed
            (SourceLost i (capped (bytes_taken self.old.log i)) failed) self.old self.new }
        ensures leaves { Leaves self.old self.new }
    {
        let at = self.states.lost(i);
        self.log.note(&(i, at, failed));
    }
}

/// How many bytes a turn took.
fn bytes_in(turned: &Turned) -> u64
    requires { IsInRoom turned.now }
    ensures { IfSome (reading_of turned.now)
        (λ reading. result ≡ capped (length (bytes_of reading.took))) }
{
    match turned {
        Turned::Lines { n, .. } => u64::from(*n),
        _ => 0,
    }
}

/// The lines that a turn completed, where memory was found for them.
fn new_in(turned: &Turned) -> Option<NewLines>
    ensures { result ≡ option_map (λ (cut : Cut). cut.new) (cut_of turned.now) }
{
    match turned {
        Turned::Lines { cut, .. } => new_of(cut),
        Turned::StreamEnded { cut, .. } => new_of(cut),
        Turned::AllEnded { cut, .. } => new_of(cut),
        _ => None,
    }
}

/// The lines of a cut, if there is one.
fn new_of(cut: &Option<Cut>) -> Option<NewLines>
    ensures { result ≡ option_map (λ (cut : Cut). cut.new) cut.now }
{
    match cut {
        Some(cut) => Some(cut.new),
        None => None,
    }
}

/// Whether a turn told the end of all.
fn ends_all(turned: &Turned) -> bool
    ensures { IfSome (reading_of turned.now) (λ reading. result ≡ is_end reading.took) }
{
    matches!(turned, Turned::AllEnded { .. })
}
