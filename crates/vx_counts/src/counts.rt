ghost use Rattle.std.specs.Prelude.{◌≡◌, ℕ, List, [], ◌∷◌, Bool, true, false, Some, length, sum, map, count_by};
ghost use Rattle.vx_ends.specs.declared.position.Position.{Position};
ghost use Rattle.vx_ends.specs.declared.trouble.Reply.{Reply};
ghost use Rattle.vx_plan.specs.declared.class.Class.TheVariants.{Sink};
ghost use Rattle.vx_status.specs.declared.outcome.Outcome.TheVariants.{NewestDropped, NoConsumer};
ghost use Rattle.vx_value.specs.Texts.{ByteString};
ghost use Rattle.vx_value.specs.declared.event.Event.{Event};
ghost use Rattle.vx_record.specs.declared.taken.Taken.{Taken};
ghost use Rattle.vx_record.specs.declared.output.Output.{Output};
ghost use Rattle.vx_record.specs.declared.entry.Entry.TheVariants.{Read, Born, Take, Answer, Attempt, Spent, Notice, Confirm};
ghost use Rattle.vx_record.specs.Records.{Record, capped};
ghost use Rattle.vx_record.specs.Legal.{IsLegal};
ghost use Rattle.vx_record.specs.Reads.{bytes_of};
ghost use Rattle.vx_record.specs.Tallies.{is_batch_of, is_newest, is_first};
ghost use Rattle.vx_counts.specs.Classes.{class_at, IsGiver};
ghost use Rattle.vx_sourcecore.specs.NewLines.{AreNew};
ghost use Rattle.vx_counts.specs.Meets.{Meets};
ghost use Rattle.vx_counts.specs.Spends.{BeginsUnread, BeginsNewest};

use vx_ends::Position;
use vx_record::Tally;
use vx_sourcecore::NewLines;
use vx_status::{BatchStatus, EventStatus, Outcome};

/// What one instance counted so far. Each call is one entry of the record that counts for the instance, takes no memory, and
/// does constant work, but for `confirmed`, which adds the positions up. Other entries leave it.
#[derive(Clone, Copy, PartialEq, Eq, Debug)]
pub struct Counts {
    pub tally: Tally,
}

impl Counts {
    /// The counts before the first entry.
    pub fn none() -> Self
        ensures { (i : ℕ) → Meets i [] result.tally }
    {
        Counts {
            tally: Tally::zero(),
        }
    }

    /// A source took so many bytes, or was told an end, and that completed some lines.
    pub fn read(&mut self, bytes: u64, new: NewLines)
        ensures { (h : Record) → (i stream : ℕ) → (took : Taken) →
            IsLegal (Read i stream took ∷ h) → bytes ≡ capped (length (bytes_of took)) →
            AreNew h i stream took new → Meets i h self.old.tally →
            Meets i (Read i stream took ∷ h) self.new.tally }
    {
        let tally = &mut self.tally;
        tally.read = tally.read.saturating_add(bytes);
        tally.lines = tally.lines.saturating_add(new.lines);
        tally.overlong = tally.overlong.saturating_add(new.overlong);
        tally.undecodable = tally.undecodable.saturating_add(new.undecodable);
    }

    /// A source created a batch of so many events.
    pub fn created_batch(&mut self, events: u64)
        ensures { (h : Record) → (i b place stream end : ℕ) → (copies : List ℕ) →
            (made : List Event) → (waits : Bool) →
            IsLegal (Born i b place copies made waits stream end ∷ h) →
            events ≡ capped (length made) → Meets i h self.old.tally →
            Meets i (Born i b place copies made waits stream end ∷ h) self.new.tally }
    {
        let tally = &mut self.tally;
        tally.events = tally.events.saturating_add(events);
        tally.batches = tally.batches.saturating_add(1);
    }

    /// One of its batches has its notice.
    pub fn noticed(&mut self, status: BatchStatus)
        ensures { (h : Record) → (i b : ℕ) → IsLegal (Notice b status ∷ h) →
            is_batch_of h i b ≡ true → Meets i h self.old.tally →
            Meets i (Notice b status ∷ h) self.new.tally }
    {
        let tally = &mut self.tally;
        match status {
            BatchStatus::Delivered => tally.delivered = tally.delivered.saturating_add(1),
            BatchStatus::Errored => tally.errored = tally.errored.saturating_add(1),
            BatchStatus::Rejected => tally.rejected = tally.rejected.saturating_add(1),
        }
    }

    /// Positions were confirmed to a source's port.
    pub fn confirmed(&mut self, positions: &[Position])
        ensures { (h : Record) → (i : ℕ) → IsLegal (Confirm i positions.now true ∷ h) →
            Meets i h self.old.tally → Meets i (Confirm i positions.now true ∷ h) self.new.tally }
    {
        let ends = total(positions);
        self.tally.confirmed = ends;
    }

    /// A transform or a sink took a parcel from its buffer.
    pub fn took(&mut self)
        ensures { (h : Record) → (i s : ℕ) → (copies : List ℕ) → IsLegal (Take i s copies ∷ h) →
            Meets i h self.old.tally → Meets i (Take i s copies ∷ h) self.new.tally }
    {
        self.tally.taken = self.tally.taken.saturating_add(1);
    }

    /// A transform answered: it put out so many parcels, each once whatever its ports, and discarded so many of those that it took.
    pub fn answered(&mut self, sent: u64, dropped: u64)
        ensures { (h : Record) → (i : ℕ) → (outputs : List Output) → (discarded kept : List ℕ) →
            IsLegal (Answer i outputs discarded kept ∷ h) → sent ≡ capped (length outputs) →
            dropped ≡ capped (count_by (is_first h i) discarded) → Meets i h self.old.tally →
            Meets i (Answer i outputs discarded kept ∷ h) self.new.tally }
    {
        let tally = &mut self.tally;
        tally.sent = tally.sent.saturating_add(sent);
        tally.dropped = tally.dropped.saturating_add(dropped);
    }

    /// A sink gave its port so many bytes.
    pub fn attempted(&mut self, bytes: u64)
        ensures { (h : Record) → (i : ℕ) → (copies : List ℕ) → (gave : ByteString) → (reply : Reply) →
            IsLegal (Attempt i copies gave reply ∷ h) → bytes ≡ capped (length gave) →
            Meets i h self.old.tally → Meets i (Attempt i copies gave reply ∷ h) self.new.tally }
    {
        let tally = &mut self.tally;
        tally.attempts = tally.attempts.saturating_add(1);
        tally.bytes = tally.bytes.saturating_add(bytes);
    }

    /// The first copy of a parcel that a source or a transform put out was spent for want of a reader. Its other copies don't count.
    pub fn unread(&mut self)
        ensures { (h : Record) → (i j c : ℕ) → IsLegal (Spent j c NoConsumer ∷ h) →
            IsGiver (class_at h i) → BeginsUnread h i c → Meets i h self.old.tally →
            Meets i (Spent j c NoConsumer ∷ h) self.new.tally }
    {
        self.tally.unread = self.tally.unread.saturating_add(1);
    }

    /// The first copy of a parcel for a sink was dropped as the newest, since its buffer was full. The sender `j` spends it.
    /// Its other copies don't count.
    pub fn dropped_newest(&mut self)
        ensures { (h : Record) → (i j c : ℕ) → IsLegal (Spent j c NewestDropped ∷ h) →
            class_at h i ≡ Some Sink → BeginsNewest h i c → Meets i h self.old.tally →
            Meets i (Spent j c NewestDropped ∷ h) self.new.tally }
    {
        self.tally.newest = self.tally.newest.saturating_add(1);
    }

    /// The copy that came first in a parcel that a sink took was spent. Its other copies don't count. What is held is never dropped
    /// as the newest.
    pub fn spent(&mut self, outcome: Outcome)
        ensures { (h : Record) → (i j c : ℕ) → is_newest outcome ≡ false →
            IsLegal (Spent j c outcome ∷ h) → class_at h i ≡ Some Sink → is_first h i c ≡ true →
            Meets i h self.old.tally → Meets i (Spent j c outcome ∷ h) self.new.tally }
    {
        let tally = &mut self.tally;
        match outcome.status() {
            EventStatus::Dropped => {}
            EventStatus::Delivered => tally.delivered = tally.delivered.saturating_add(1),
            EventStatus::Errored => tally.errored = tally.errored.saturating_add(1),
            EventStatus::Rejected => tally.rejected = tally.rejected.saturating_add(1),
        }
    }
}

/// The ends of some positions, together.
fn total(positions: &[Position]) -> u64
    ensures { result ≡ capped (sum (map (λ (p : Position). p.end) positions.now)) }
{
    let mut total = 0u64;
    for position in positions {
        total = total.saturating_add(position.end);
    }
    total
}
