ghost use Rattle.std.specs.Prelude.{◌≡◌, ◌+◌, ◌<◌, ◌≤◌, ◌^◌, ◌%◌, ◌==◌, ◌||◌, List, [], ◌∷◌, ◌++◌, OnOk, OnErr, IfOk, if◌then◌else◌};
ghost use Rattle.vx_value.specs.declared.event.Event.{Event};
ghost use Rattle.vx_condition.specs.Steps.{Test};
ghost use Rattle.vx_condition.specs.Picking.{held as count_held, sample_passes};
ghost use Rattle.vx_plan.specs.Options.{if_any};
ghost use Rattle.vx_record.specs.Transforms.{AllMean, test_of, passing, port_bits};
ghost use Rattle.vx_pick.specs.Picks.{AreMeant};
ghost use Rattle.vx_pick.specs.Samplers.{HasCounted};

use crate::answer::{answer, bits_for};
use std::alloc::Global;
use std::marker::Model;
use vx_condition::Condition;
use vx_ledger::Parcel;
use vx_transform::{Back, Immediate, Shelf};
use vx_value::{Event, WantOfMemory};

/// Passes each event whose number, from 0, is a multiple of a rate, and discards the others. An event of which a condition
/// holds passes too, and isn't counted.
///
/// Contracts see the rate, the text of the condition, where there is one, and how many events were counted.
#[derive(Drop)]
pub struct Sample {
    rate: u64,
    exclude: Option<Condition>,
    counted: u64,
}

impl Model for Sample {
    ghost use Rattle.std.specs.Prelude.{◌≤◌};
    ghost use Rattle.vx_pick.specs.Samplers.{Sampler};

    ghost Value = { Sampler };

    ghost view = { λ s. record { rate = s.rate; exclude = s.exclude; counted = s.counted } };

    ghost invariant = { λ s. 1 ≤ s.rate };
}

impl Sample {
    /// The sample at a rate, that saw no event. It takes no memory.
    pub fn new(rate: u64, exclude: Option<Condition>) -> Self
        requires { 1 ≤ rate }
        ensures rate { result.rate ≡ rate }
        ensures exclude { result.exclude ≡ exclude }
        ensures seen { HasCounted result [] }
    {
        Sample {
            rate,
            exclude,
            counted: 0,
        }
    }

    /// The bits of the ports on which the next event is put out: that of port 0 where the condition holds of it, or where the
    /// number of events so far of which it doesn't hold is a multiple of the rate, and elsewhere none. For want of memory the
    /// event isn't counted.
    pub fn ports_for(&mut self, alloc: Global, event: &Event) -> Result<u128, WantOfMemory>
        ensures ports { IfOk result
            (λ ports. (tests : List Test) (earlier : List Event) →
            AllMean (if_any self.old.exclude) tests → HasCounted self.old earlier →
            ports ≡ port_bits
            (passing
            (sample_passes self.old.rate (test_of self.old.exclude tests)) earlier event.now)) }
        ensures below { IfOk result (λ ports. ports < 2 ^ 1) }
        ensures meant { OnOk result (AreMeant (if_any self.old.exclude)) }
        ensures seen { OnOk result
            ((earlier : List Event) → HasCounted self.old earlier →
            HasCounted self.new (earlier ++ event.now ∷ [])) }
        ensures rate { self.new.rate ≡ self.old.rate }
        ensures exclude { self.new.exclude ≡ self.old.exclude }
        ensures same { OnErr result (self.new ≡ self.old) }
    {
        let excluded = self.is_excluded(alloc, event)?;
        let ports = bits_for(self.passes(excluded));
        self.count(excluded);
        Ok(ports)
    }

    // Whether the condition holds of an event. Without one it never does.
    fn is_excluded(&mut self, alloc: Global, event: &Event) -> Result<bool, WantOfMemory>
        ensures says { IfOk result
            (λ excluded. (tests : List Test) → AllMean (if_any self.old.exclude) tests →
            excluded ≡ test_of self.old.exclude tests event.now) }
        ensures meant { OnOk result (AreMeant (if_any self.old.exclude)) }
        ensures same { self.new ≡ self.old }
    {
        match &mut self.exclude {
            Some(condition) => condition.holds(alloc, event),
            None => Ok(false),
        }
    }

    // Whether the next event passes, if it is excluded or not.
    fn passes(&self, excluded: bool) -> bool
        ensures { result ≡ (excluded || (self.now.counted % self.now.rate == 0)) }
    {
        excluded || self.counted % self.rate == 0
    }

    // Counts an event, if it isn't excluded.
    fn count(&mut self, excluded: bool)
        ensures counted { self.new.counted
            ≡ (if excluded then self.old.counted else count_held (self.old.counted + 1)) }
        ensures rate { self.new.rate ≡ self.old.rate }
        ensures exclude { self.new.exclude ≡ self.old.exclude }
    {
        if !excluded {
            self.counted = self.counted.saturating_add(1);
        }
    }
}

impl Immediate for Sample {
    ghost use Rattle.vx_pick.specs.Judged.{Sampled};

    ghost width = { λ _. 1 };

    ghost answers = { Sampled };

    fn width(&self) -> u32 {
        1
    }

    /// Puts the parcel out on port 0 where its event is excluded, or its number is a multiple of the rate, and discards it
    /// elsewhere.
    fn answer(&mut self, alloc: Global, parcel: Parcel, shelf: &mut Shelf) -> Result<(), Back> {
        let excluded = match self.is_excluded(alloc, parcel.event.get()) {
            Ok(excluded) => excluded,
            Err(WantOfMemory) => return Err(Back { parcel }),
        };
        match answer(shelf, bits_for(self.passes(excluded)), parcel) {
            Ok(()) => {
                self.count(excluded);
                Ok(())
            }
            Err(back) => Err(back),
        }
    }
}
