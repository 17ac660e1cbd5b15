ghost use Rattle.std.specs.Prelude.{◌≡◌, ◌<◌, ◌≤◌, ◌^◌, List, [], ◌∷◌, ◌++◌, true, false, OnOk, OnErr, IfOk, IfErr};
ghost use Rattle.std.specs.List.{list_any};
ghost use Rattle.vx_value.specs.declared.event.Event.{Event};
ghost use Rattle.vx_condition.specs.Picking.{dedupe_passes};
ghost use Rattle.vx_record.specs.Transforms.{passing, port_bits};
ghost use Rattle.vx_transform.specs.Moves.{Moves};
ghost use Rattle.vx_pick.specs.Dedupers.{same_datum, remembering, HasSeen};
ghost use Rattle.vx_pick.specs.Judged.{Settled};

use crate::answer::{answer, bits_for};
use crate::dedupe_key::DedupeKey;
use crate::seen_keys::{SeenKeys, add, trim};
use lru::LruCache;
use std::alloc::Global;
use std::marker::Model;
use std::num::NonZeroUsize;
use vx_condition::DedupeFields;
use vx_ledger::Parcel;
use vx_transform::{Back, Immediate, Shelf};
use vx_value::{Event, WantOfMemory};

/// Discards each event whose key is among those that earlier events had last, and passes the others. A repeat counts as the
/// latest event of its key.
///
/// Contracts see what tells repeats apart, how many keys are kept at most, and those that are, each as one value, the latest
/// first.
#[derive(Drop)]
pub struct Dedupe {
    fields: DedupeFields,
    most: usize,
    // It has room for one key more than are kept, so that one that came last can be taken out again.
    seen: SeenKeys,
}

impl Model for Dedupe {
    ghost use Rattle.std.specs.Prelude.{◌≡◌, ◌+◌, ◌≤◌, length};
    ghost use Rattle.std.specs.Coded.{codes};
    ghost use Rattle.std.specs.Map.{keys_of};
    ghost use Rattle.vx_value.specs.DatumCode.{coded_datum};
    ghost use Rattle.vx_pick.specs.Dedupers.{Deduper};

    ghost Value = { Deduper };

    ghost coded = { Prim.hlevel (codes, coded_datum) };

    ghost view = { λ d. record { by = d.fields; most = d.most; keys = keys_of d.seen.entries } };

    ghost invariant = { λ d. (d.seen.cap ≡ d.most + 1) × (length d.seen.entries ≤ d.most) };
}

impl Dedupe {
    /// The dedupe that keeps so many keys at most, and saw no event.
    pub fn new(alloc: Global, fields: DedupeFields, num_events: u32) -> Result<Self, WantOfMemory>
        requires { 1 ≤ num_events }
        ensures by { IfOk result (λ dedupe. dedupe.by ≡ fields) }
        ensures most { IfOk result (λ dedupe. dedupe.most ≡ num_events) }
        ensures seen { IfOk result (λ dedupe. HasSeen dedupe []) }
    {
        let most = num_events as usize;
        match LruCache::sparse(alloc, NonZeroUsize::MIN.saturating_add(most)) {
            Ok(seen) => Ok(Dedupe { fields, most, seen }),
            Err(_) => Err(WantOfMemory),
        }
    }

    /// The bits of the ports on which the next event is put out: none where its key is among those that are kept, and else
    /// that of port 0. Its key is the latest then. For want of memory all is as before.
    pub fn ports_for(&mut self, alloc: Global, event: &Event) -> Result<u128, WantOfMemory>
        ensures ports { IfOk result
            (λ ports. (earlier : List Event) → HasSeen self.old earlier →
            ports ≡ port_bits
            (passing (dedupe_passes self.old.most self.old.by) earlier event.now)) }
        ensures below { IfOk result (λ ports. ports < 2 ^ 1) }
        ensures seen { OnOk result
            ((earlier : List Event) → HasSeen self.old earlier →
            HasSeen self.new (earlier ++ event.now ∷ [])) }
        ensures by { self.new.by ≡ self.old.by }
        ensures most { self.new.most ≡ self.old.most }
        ensures same { OnErr result (self.new ≡ self.old) }
    {
        let key = DedupeKey::of(alloc, &self.fields, event)?;
        let repeats = self.remember(key)?;
        Ok(bits_for(!repeats))
    }

    // Takes a key in as the latest, and says whether it was there. For want of memory all is as before.
    fn remember(&mut self, key: DedupeKey) -> Result<bool, WantOfMemory>
        ensures repeats { IfOk result
            (λ repeats. repeats ≡ list_any (same_datum key) self.old.keys) }
        ensures keys { OnOk result (self.new.keys ≡ remembering self.old.most key self.old.keys) }
        ensures by { self.new.by ≡ self.old.by }
        ensures most { self.new.most ≡ self.old.most }
        ensures same { OnErr result (self.new ≡ self.old) }
    {
        if self.seen.promote(&key) {
            return Ok(true);
        }
        add(&mut self.seen, key)?;
        trim(&mut self.seen, self.most);
        Ok(false)
    }

    // Whether a key is among those that are kept.
    fn keeps(&self, key: &DedupeKey) -> bool
        ensures { result ≡ list_any (same_datum key.now) self.now.keys }
    {
        self.seen.contains(key)
    }

    // Discards the parcel of an event with a key that is kept. For want of memory all is as before.
    fn discard(&mut self, key: DedupeKey, parcel: Parcel, shelf: &mut Shelf) -> Result<(), Back>
        requires { list_any (same_datum key) self.old.keys ≡ true }
        ensures settled { OnOk result
            (Settled parcel shelf.old shelf.new self.old self.new key []) }
        ensures moves { OnOk result (Moves 1 parcel.finalizers [] shelf.old shelf.new) }
        ensures same { OnErr result (self.new ≡ self.old) }
        ensures back { IfErr result (λ refused. refused.parcel ≡ parcel) }
        ensures shelf { OnErr result (shelf.new ≡ shelf.old) }
    {
        match answer(shelf, bits_for(false), parcel) {
            Ok(()) => {
                self.seen.promote(&key);
                Ok(())
            }
            Err(back) => Err(back),
        }
    }

    // Passes the parcel of an event with a key that isn't kept. For want of memory all is as before.
    fn pass(&mut self, key: DedupeKey, parcel: Parcel, shelf: &mut Shelf) -> Result<(), Back>
        requires { list_any (same_datum key) self.old.keys ≡ false }
        ensures settled { OnOk result
            (Settled parcel shelf.old shelf.new self.old self.new key (0 ∷ [])) }
        ensures moves { OnOk result (Moves 1 parcel.finalizers [] shelf.old shelf.new) }
        ensures same { OnErr result (self.new ≡ self.old) }
        ensures back { IfErr result (λ refused. refused.parcel ≡ parcel) }
        ensures shelf { OnErr result (shelf.new ≡ shelf.old) }
    {
        match add(&mut self.seen, key) {
            Ok(()) => {}
            Err(WantOfMemory) => return Err(Back { parcel }),
        }
        match answer(shelf, bits_for(true), parcel) {
            Ok(()) => {
                trim(&mut self.seen, self.most);
                Ok(())
            }
            Err(back) => {
                let _ = self.seen.pop_mru();
                Err(back)
            }
        }
    }
}

impl Immediate for Dedupe {
    ghost use Rattle.vx_pick.specs.Judged.{Deduped};

    ghost width = { λ _. 1 };

    ghost answers = { Deduped };

    fn width(&self) -> u32 {
        1
    }

    /// Discards the parcel where the key of its event is among those that are kept, and puts it out on port 0 elsewhere.
    fn answer(&mut self, alloc: Global, parcel: Parcel, shelf: &mut Shelf) -> Result<(), Back> {
        let key = match DedupeKey::of(alloc, &self.fields, parcel.event.get()) {
            Ok(key) => key,
            Err(WantOfMemory) => return Err(Back { parcel }),
        };
        if self.keeps(&key) {
            self.discard(key, parcel, shelf)
        } else {
            self.pass(key, parcel, shelf)
        }
    }
}
