ghost use Rattle.std.specs.Prelude.{◌≡◌, ℕ, ◌+◌, ◌<◌, ◌≤◌, [], ◌∷◌, ◌++◌, List, length, take, drop, min, IfOk, Ok, false};
ghost use Rattle.vx_ends.specs.Script.{progress_of, has_ended, left_of, ends_of, SameObserved, passes_first, upcoming, fitting, answer_of, brought_by, rest_after, TakeChanges};
ghost use Rattle.vx_ends.specs.Observation.{IsWithin, IsOfOpen};

use crate::port::Took;
use crate::step::{Step, StepList};
use crate::trouble::Trouble;
use std::marker::Model;

/// A script, and how far it was told.
#[derive(Drop)]
pub struct Script {
    steps: StepList,
    place: Place,
}

impl Model for Script {
    ghost use Rattle.vx_ends.specs.Script.{Progress, progress_of};

    ghost Value = { Progress };

    ghost view = { λ s. progress_of s.steps s.place.step s.place.offset };
}

impl Script {
    /// A script of which nothing was told.
    pub fn new(steps: StepList) -> Self
        ensures past { result.past ≡ [] }
        ensures rest { result.rest ≡ steps }
    {
        Script {
            steps,
            place: Place { step: 0, offset: 0 },
        }
    }

    /// Answers a take by the next step that isn't passed over.
    pub fn take(&mut self, into: &mut [u8]) -> Result<Took, Trouble>
        requires { 0 < length into.old }
        ensures answer { result ≡ answer_of (length into.old)
            (upcoming self.old.past self.old.rest) }
        ensures brought { take
            (length (brought_by (length into.old) (upcoming self.old.past self.old.rest))) into.new
            ≡ brought_by (length into.old) (upcoming self.old.past self.old.rest) }
        ensures rest { self.new.rest
            ≡ rest_after (length into.old) (upcoming self.old.past self.old.rest) }
        ensures observed { TakeChanges self.old self.new result into.new }
        ensures within { IfOk result (IsWithin (length into.old)) }
        ensures live { IfOk result (IsOfOpen (ends_of self.old.past)) }
        ensures all_ended { result ≡ Ok Took.AllEnded → self.new.rest ≡ [] }
        ensures stream_ended { (stream : ℕ) → result ≡ Ok (Took.StreamEnded stream) →
            left_of stream self.new ≡ [] }
    {
        let place = live_place(self.steps.as_slice(), self.place);
        let (answer, behind) = play(self.steps.as_slice(), place, into);
        self.place = behind;
        answer
    }
}

// A place in a script: so many steps are behind it, and so many bytes of the next one.
#[derive(Clone, Copy)]
struct Place {
    step: usize,
    offset: usize,
}

// Whether a step ends a stream.
fn ends_stream(step: &Step, stream: u64) -> bool
    ensures { result ≡ has_ended stream (step.now ∷ []) }
{
    match step {
        Step::StreamEnded(from) => *from == stream,
        Step::AllEnded => true,
        Step::Bytes { .. } | Step::Idle | Step::Fail => false,
    }
}

// Whether a stream has ended with these steps.
fn ends_within(steps: &[Step], stream: u64) -> bool
    ensures { result ≡ has_ended stream steps.now }
{
    for step in steps {
        if ends_stream(step, stream) {
            return true;
        }
    }
    false
}

// Whether the step at a place is passed over.
fn is_passed_at(steps: &[Step], place: Place) -> bool
    requires { place.step < length steps.now }
    ensures { result ≡ passes_first (progress_of steps.now place.step place.offset).past
        (progress_of steps.now place.step place.offset).rest }
{
    match &steps[place.step] {
        Step::Bytes { stream, bytes } => {
            bytes.len() <= place.offset || ends_within(&steps[..place.step], *stream)
        }
        Step::StreamEnded(stream) => ends_within(&steps[..place.step], *stream),
        Step::AllEnded | Step::Idle | Step::Fail => false,
    }
}

// The next place at which a step isn't passed over.
fn live_place(steps: &[Step], from: Place) -> Place
    ensures past { SameObserved (progress_of steps.now from.step from.offset).past
        (progress_of steps.now result.step result.offset).past }
    ensures rest { (progress_of steps.now result.step result.offset).rest
        ≡ upcoming (progress_of steps.now from.step from.offset).past
        (progress_of steps.now from.step from.offset).rest }
    ensures live { passes_first (progress_of steps.now result.step result.offset).past
        (progress_of steps.now result.step result.offset).rest ≡ false }
{
    let mut place = from;
    while place.step < steps.len() && is_passed_at(steps, place) {
        place = Place {
            step: place.step + 1,
            offset: 0,
        };
    }
    place
}

// Copies what fits of the bytes from an offset on.
fn copy_from(bytes: &[u8], offset: usize, into: &mut [u8]) -> u32
    requires { offset ≤ length bytes.now }
    ensures fits { result ≡ fitting (length into.old) (drop offset bytes.now) }
    ensures copied { take result into.new ≡ take result (drop offset bytes.now) }
    ensures within { offset + result ≤ length bytes.now }
{
    let n = (bytes.len() - offset).min(into.len()).min(0xffff_ffff);
    let to = &mut into[..n];
    to.copy_from_slice(&bytes[offset..offset + n]);
    n as u32
}

// What a take answers at a place, and the place behind it.
fn play(steps: &[Step], place: Place, into: &mut [u8]) -> (Result<Took, Trouble>, Place)
    requires room { 0 < length into.old }
    requires live { passes_first (progress_of steps.now place.step place.offset).past
        (progress_of steps.now place.step place.offset).rest ≡ false }
    ensures answer { result.0
        ≡ answer_of (length into.old) (progress_of steps.now place.step place.offset).rest }
    ensures brought { take
        (length (brought_by (length into.old) (progress_of steps.now place.step place.offset).rest))
        into.new
        ≡ brought_by (length into.old) (progress_of steps.now place.step place.offset).rest }
    ensures rest { (progress_of steps.now result.1.step result.1.offset).rest
        ≡ rest_after (length into.old) (progress_of steps.now place.step place.offset).rest }
    ensures observed { TakeChanges (progress_of steps.now place.step place.offset)
        (progress_of steps.now result.1.step result.1.offset) result.0 into.new }
{
    if place.step >= steps.len() {
        return (Ok(Took::AllEnded), place);
    }
    let behind = Place {
        step: place.step + 1,
        offset: 0,
    };
    match &steps[place.step] {
        Step::Bytes { stream, bytes } => {
            let n = copy_from(bytes.as_slice(), place.offset, into);
            let within = Place {
                step: place.step,
                offset: place.offset + n as usize,
            };
            (Ok(Took::Bytes { stream: *stream, n }), within)
        }
        Step::StreamEnded(stream) => (Ok(Took::StreamEnded { stream: *stream }), behind),
        Step::AllEnded => {
            let end = Place {
                step: steps.len(),
                offset: 0,
            };
            (Ok(Took::AllEnded), end)
        }
        Step::Idle => (Ok(Took::Idle), behind),
        Step::Fail => (Err(Trouble::Failed), behind),
    }
}
