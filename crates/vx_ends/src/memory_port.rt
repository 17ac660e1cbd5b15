ghost use Rattle.std.specs.Prelude.{◌≡◌, ◌≢◌, ◌<◌, ◌≤◌, ℕ, ◌++◌, length, take, IfOk, IsOk, IsTrue, OnOk, OnErr, false, None, not, ◌&&◌, is_ok};
ghost use Rattle.vx_ends.specs.Acts.{first_act, later_acts, plain_answer, finish_answer, give_answer, AnswersOrWants, is_failed, is_refused, is_idle, raised};
ghost use Rattle.vx_ends.specs.Script.{upcoming, answer_of, brought_by, rest_after};
ghost use Rattle.vx_ends.specs.Observation.{Grows, Shrinks, SameBytes, TakeLeaves, HasCause, HasIdle, HasRefusal, CountsBy, nothing, piece_of, part_of, ended_by, over_after, IsWithin, IsOfOpen, EndsAll, EndsStream};

use crate::act::ActList;
use crate::acts::Acts;
use crate::answers::{
    answer_finish, answer_plainly, confirm_by, count_if, give_by, has_ended_all, has_failed,
    has_nothing, has_refused,
};
use crate::port::{Port, Took};
use crate::port_spec::PortSpec;
use crate::position::PositionList;
use crate::script::Script;
use crate::step::StepList;
use crate::trouble::Trouble;
use std::alloc::Global;
use std::marker::Model;
use vx_value::Bytes;

/// A port that plays a script, and keeps what it is given and what is confirmed.
///
/// Its steps answer the takes. Its acts say, one after the other, how the other calls end: a call to give, to finish
/// or to confirm reads one, and so does a start, where the port wasn't started yet. With no act left, calls pass.
#[derive(Drop)]
pub struct MemoryPort {
    alloc: Global,
    script: Script,
    acts: Acts,
    given: Bytes,
    confirmed: PositionList,
    spec: Option<PortSpec>,
    started: bool,
    over: bool,
    faults: u64,
    idles: u64,
    refusals: u64,
    starts: u64,
    finishes: u64,
    confirms: u64,
}

impl Model for MemoryPort {
    ghost use Rattle.std.specs.Prelude.{◌≡◌, ◌≤◌, length, IsTrue};
    ghost use Rattle.vx_ends.specs.Playing.{Playing};

    ghost Value = { Playing };

    ghost view = { λ p. record { script = p.script; acts = p.acts; given = p.given; confirmed = p.confirmed; spec = p.spec; started = p.started; over = p.over; faults = p.faults; idles = p.idles; refusals = p.refusals; starts = p.starts; finishes = p.finishes; confirms = p.confirms } };

    // After the end of all no step is left.
    ghost invariant = { λ p. IsTrue p.over → length p.script.rest ≤ 0 };
}

impl MemoryPort {
    ghost use Rattle.vx_ends.specs.Playing.{closed_port};

    /// A closed port with a script and acts. It tells no spec.
    pub fn new(alloc: Global, steps: StepList, acts: ActList) -> Self
        ensures { result ≡ closed_port None steps acts }
    {
        MemoryPort::made_for(alloc, None, steps, acts)
    }

    // A closed port with a script and acts, and what it was made for.
    pub(crate) fn made_for(
        alloc: Global,
        spec: Option<PortSpec>,
        steps: StepList,
        acts: ActList,
    ) -> Self
        ensures { result ≡ closed_port spec steps acts }
    {
        MemoryPort {
            alloc,
            script: Script::new(steps),
            acts: Acts::new(acts),
            given: Bytes::new(alloc),
            confirmed: PositionList::new(alloc),
            spec,
            started: false,
            over: false,
            faults: 0,
            idles: 0,
            refusals: 0,
            starts: 0,
            finishes: 0,
            confirms: 0,
        }
    }

    /// The bytes that it was given.
    pub fn given(&self) -> &[u8]
        ensures { result.now ≡ self.now.given }
    {
        self.given.as_slice()
    }

    /// The positions that were confirmed, in order.
    pub fn confirmed(&self) -> &PositionList
        ensures { result.now ≡ self.now.confirmed }
    {
        &self.confirmed
    }
}

impl Port for MemoryPort {
    ghost use Rattle.vx_ends.specs.Playing.{observe, start_answer, after_start, confirmed_after};

    ghost observed = { observe };

    fn start(&mut self) -> Result<(), Trouble>
        ensures answer { result ≡ start_answer self.old }
        ensures after { self.new ≡ after_start self.old }

        ensures started { OnOk result (IsTrue self.new.started) }
        ensures closed { OnErr result (self.new.started ≡ self.old.started) }
        ensures again { IsTrue self.old.started →
            IsOk result × (observe self.new ≡ observe self.old) }
        ensures bytes { SameBytes (observe self.old) (observe self.new) }
        ensures cause { HasCause self.old.faults self.new.faults result }
        ensures unrefused { result ≢ Err Trouble.Refused }
        ensures idles { self.old.idles ≤ self.new.idles }
        ensures refusals { self.old.refusals ≤ self.new.refusals }
        ensures counts { CountsBy
            (record nothing {
              failed = is_failed result;
              started = is_ok result && not self.old.started;
            }) (observe self.old)
            (observe self.new) }
    {
        if self.started {
            return Ok(());
        }
        let answer = answer_plainly(self.acts.next());
        self.started = answer.is_ok();
        self.faults = count_if(self.faults, has_failed(&answer));
        self.starts = count_if(self.starts, answer.is_ok());
        answer
    }

    fn take(&mut self, into: &mut [u8]) -> Result<Took, Trouble>
        requires { 0 < length into.old }

        ensures answer { result ≡ answer_of (length into.old)
            (upcoming self.old.script.past self.old.script.rest) }
        ensures brought { take
            (length
            (brought_by (length into.old) (upcoming self.old.script.past self.old.script.rest)))
            into.new
            ≡ brought_by (length into.old) (upcoming self.old.script.past self.old.script.rest) }
        ensures steps { self.new.script.rest
            ≡ rest_after (length into.old) (upcoming self.old.script.past self.old.script.rest) }
        ensures after { self.new
            ≡ record
            self.old {
              script = self.new.script;
              over = over_after self.old.over result;
              faults = raised self.old.faults (is_failed result);
              idles = raised self.old.idles (is_idle result);
            } }

        ensures within { IfOk result (IsWithin (length into.old)) }
        ensures taken { (stream : ℕ) →
            Grows ((observe self.old).taken stream) ((observe self.new).taken stream)
            (piece_of stream result into.new) }
        ensures left { (stream : ℕ) →
            Shrinks ((observe self.old).left stream) ((observe self.new).left stream)
            (piece_of stream result into.new) }
        ensures ended { (observe self.new).ended ≡ (observe self.old).ended ++ ended_by result }
        ensures open { IfOk result (IsOfOpen (observe self.old).ended) }
        ensures over { self.new.over ≡ over_after self.old.over result }
        ensures after_end { IsTrue self.old.over → IfOk result (λ took. took ≡ Took.AllEnded) }
        ensures all_ended { IfOk result (EndsAll (observe self.new)) }
        ensures stream_ended { IfOk result (EndsStream (observe self.new)) }
        ensures rest { TakeLeaves (observe self.old) (observe self.new) }
        ensures cause { HasCause self.old.faults self.new.faults result }
        ensures idle { HasIdle self.old.idles self.new.idles result }
        ensures unrefused { result ≢ Err Trouble.Refused }
        ensures refusals { self.old.refusals ≤ self.new.refusals }
        ensures counts { CountsBy
            (record nothing { failed = is_failed result; idle = is_idle result }) (observe self.old)
            (observe self.new) }
    {
        let answer = self.script.take(into);
        self.over = has_ended_all(self.over, &answer);
        self.faults = count_if(self.faults, has_failed(&answer));
        self.idles = count_if(self.idles, has_nothing(&answer));
        answer
    }

    fn give(&mut self, bytes: &[u8]) -> Result<u32, Trouble>
        requires { 0 < length bytes.now }

        ensures answer { AnswersOrWants result (give_answer (first_act self.old.acts) bytes.now) }
        ensures after { self.new
            ≡ record
            self.old {
              acts = later_acts self.old.acts;
              given = self.old.given ++ part_of result bytes.now;
              faults = raised self.old.faults (is_failed result);
              refusals = raised self.old.refusals (is_refused result);
            } }

        ensures some { IfOk result (λ n. 0 < n) }
        ensures within { IfOk result (λ n. n ≤ length bytes.now) }
        ensures given { Grows (observe self.old).given (observe self.new).given
            (part_of result bytes.now) }
        ensures rest { SameBytes (record (observe self.old) { given = (observe self.new).given })
            (observe self.new) }
        ensures started { self.new.started ≡ self.old.started }
        ensures cause { HasCause self.old.faults self.new.faults result }
        ensures refusal { HasRefusal self.old.refusals self.new.refusals result }
        ensures idles { self.old.idles ≤ self.new.idles }
        ensures counts { CountsBy
            (record nothing { failed = is_failed result; refused = is_refused result })
            (observe self.old) (observe self.new) }
    {
        let act = self.acts.next();
        let answer = give_by(act, bytes, &mut self.given);
        self.faults = count_if(self.faults, has_failed(&answer));
        self.refusals = count_if(self.refusals, has_refused(&answer));
        answer
    }

    fn finish(&mut self) -> Result<(), Trouble>
        ensures answer { result ≡ finish_answer (first_act self.old.acts) }
        ensures after { self.new
            ≡ record
            self.old {
              acts = later_acts self.old.acts;
              faults = raised self.old.faults (is_failed result);
              refusals = raised self.old.refusals (is_refused result);
              finishes = raised self.old.finishes (is_ok result);
            } }

        ensures bytes { SameBytes (observe self.old) (observe self.new) }
        ensures started { self.new.started ≡ self.old.started }
        ensures cause { HasCause self.old.faults self.new.faults result }
        ensures refusal { HasRefusal self.old.refusals self.new.refusals result }
        ensures idles { self.old.idles ≤ self.new.idles }
        ensures counts { CountsBy
            (record nothing {
              failed = is_failed result;
              refused = is_refused result;
              finished = is_ok result;
            }) (observe self.old) (observe self.new) }
    {
        let answer = answer_finish(self.acts.next());
        self.faults = count_if(self.faults, has_failed(&answer));
        self.refusals = count_if(self.refusals, has_refused(&answer));
        self.finishes = count_if(self.finishes, answer.is_ok());
        answer
    }

    fn confirm(&mut self, positions: &PositionList) -> Result<(), Trouble>
        ensures answer { AnswersOrWants result (plain_answer (first_act self.old.acts)) }
        ensures after { self.new
            ≡ record
            self.old {
              acts = later_acts self.old.acts;
              confirmed = confirmed_after self.old.confirmed result positions.now;
              faults = raised self.old.faults (is_failed result);
              confirms = raised self.old.confirms (is_ok result);
            } }

        ensures ok { OnOk result
            (Grows (observe self.old).confirmed (observe self.new).confirmed positions.now) }
        ensures err { OnErr result ((observe self.new).confirmed ≡ (observe self.old).confirmed) }
        ensures rest { SameBytes
            (record (observe self.old) { confirmed = (observe self.new).confirmed })
            (observe self.new) }
        ensures started { self.new.started ≡ self.old.started }
        ensures cause { HasCause self.old.faults self.new.faults result }
        ensures unrefused { result ≢ Err Trouble.Refused }
        ensures idles { self.old.idles ≤ self.new.idles }
        ensures refusals { self.old.refusals ≤ self.new.refusals }
        ensures counts { CountsBy
            (record nothing { failed = is_failed result; confirmed = is_ok result })
            (observe self.old) (observe self.new) }
    {
        let act = self.acts.next();
        let answer = confirm_by(self.alloc, act, positions, &mut self.confirmed);
        self.faults = count_if(self.faults, has_failed(&answer));
        self.confirms = count_if(self.confirms, answer.is_ok());
        answer
    }

    fn close(&mut self)
        ensures after { self.new ≡ record self.old { started = false } }

        ensures closed { self.new.started ≡ false }
        ensures bytes { SameBytes (observe self.old) (observe self.new) }
        ensures faults { self.old.faults ≤ self.new.faults }
        ensures idles { self.old.idles ≤ self.new.idles }
        ensures refusals { self.old.refusals ≤ self.new.refusals }
        ensures counts { CountsBy (nothing) (observe self.old) (observe self.new) }
    {
        self.started = false;
    }
}
