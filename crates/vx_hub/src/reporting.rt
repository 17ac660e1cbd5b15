// What is told of the run.
ghost use Rattle.std.specs.Prelude.{◌≡◌, ◌<◌, ◌↔◌, ℕ, length, IsTrue, false};
ghost use Rattle.vx_record.specs.Abandoning.{abandoned};
ghost use Rattle.vx_record.specs.Ceasing.{cause_of, lost_at};
ghost use Rattle.vx_record.specs.Confirms.{is_unconfirmed};
ghost use Rattle.vx_record.specs.Copies.{IsLive};
ghost use Rattle.vx_record.specs.Installs.{started};
ghost use Rattle.vx_record.specs.Tallies.{tally};
ghost use Rattle.vx_hub.specs.Standing.{IsHub};
ghost use Rattle.vx_hub.specs.Reporting.{IsNameOf, IsClassOf, HasLive};

use crate::hub::Hub;
use vx_ends::Port;
use vx_plan::Class;
use vx_record::{AbandonCause, Tally};
use vx_value::Text;

impl<P: Port> Hub<P> {
    /// How many instances there are. Their numbers begin with 0.
    pub fn instances(&self) -> u32
        requires hub { IsHub P.observed self.now }
        ensures { result ≡ length (started self.now.engine.log) }
    {
        self.engine.states.len() as u32
    }

    /// The name of an instance's component.
    pub fn name_of(&self, instance: u32) -> &Text
        requires hub { IsHub P.observed self.now }
        requires within { instance < length (started self.now.engine.log) }
        ensures { IsNameOf self.now.engine.log instance result.now }
    {
        &self.engine.states.get(instance).name
    }

    /// The class of an instance's component.
    pub fn class_of(&self, instance: u32) -> Class
        requires hub { IsHub P.observed self.now }
        requires within { instance < length (started self.now.engine.log) }
        ensures { IsClassOf self.now.engine.log instance result }
    {
        self.engine.states.get(instance).class
    }

    /// After how many bytes a source was lost; `None` where it wasn't.
    pub fn lost(&self, instance: u32) -> Option<u64>
        requires hub { IsHub P.observed self.now }
        requires within { instance < length (started self.now.engine.log) }
        ensures { result ≡ lost_at self.now.engine.log instance }
    {
        self.engine.states.get(instance).facts.lost
    }

    /// Whether the last confirm of a source failed.
    pub fn unconfirmed(&self, instance: u32) -> bool
        requires hub { IsHub P.observed self.now }
        requires within { instance < length (started self.now.engine.log) }
        ensures { result ≡ is_unconfirmed self.now.engine.log instance }
    {
        self.engine.states.get(instance).facts.confirm_failed
    }

    /// Whether a copy is live, in a run that wasn't given up: it was made, and neither split nor spent.
    pub fn unspent(&self) -> bool
        requires hub { IsHub P.observed self.now }
        ensures { IsTrue result
            ↔ (HasLive self.now.engine.log × (abandoned self.now.engine.log ≡ false)) }
    {
        self.engine.run.abandoned.is_none() && !self.engine.balance.is_settled()
    }

    /// Whether a landing that was brought back carried want of memory.
    pub fn starved(&self) -> bool
        ensures { result ≡ self.now.engine.run.out_of_memory }
    {
        self.engine.run.out_of_memory
    }

    /// What an instance counted, by the record. Where memory was wanting nothing is said of it.
    pub fn tally(&self, instance: u32) -> Tally
        requires hub { IsHub P.observed self.now }
        requires within { instance < length (started self.now.engine.log) }
        ensures { self.now.engine.run.out_of_memory ≡ false → result ≡ tally self.now.engine.log instance }
    {
        self.engine.states.get(instance).counts.tally
    }

    /// Why the run was given up; `None` where it wasn't.
    pub fn abandoned(&self) -> Option<AbandonCause>
        requires hub { IsHub P.observed self.now }
        ensures { result ≡ cause_of self.now.engine.log }
    {
        self.engine.run.abandoned
    }
}
