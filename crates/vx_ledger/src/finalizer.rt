ghost use Rattle.std.specs.Prelude.{◌≡◌};

use std::marker::Model;

/// Stands for one live copy of one event of one batch. It can't be dropped: `Batches::spend` ends it.
pub struct Finalizer {
    batch: u64,
    number: u64,
    place: u64,
}

impl Model for Finalizer {
    ghost use Rattle.vx_ledger.specs.Copies.{Copy};

    ghost Value = { Copy };

    ghost view = { λ f. record { batch = f.batch; number = f.number; place = f.place } };
}

impl Finalizer {
    /// The number of the batch, which is that of its first copy.
    pub fn batch(&self) -> u64
        ensures { result ≡ self.now.batch }
    {
        self.batch
    }

    /// The number of the copy. No other copy of a run has it.
    pub fn number(&self) -> u64
        ensures { result ≡ self.now.number }
    {
        self.number
    }

    /// Where the ledger keeps the batch.
    pub fn place(&self) -> u64
        ensures { result ≡ self.now.place }
    {
        self.place
    }

    // Only the ledger makes a finalizer.
    pub(crate) fn make(batch: u64, number: u64, place: u64) -> Self
        ensures { result ≡ record { batch = batch; number = number; place = place } }
    {
        Finalizer {
            batch,
            number,
            place,
        }
    }

    // Gives the copy another number.
    pub(crate) fn set_number(&mut self, number: u64)
        ensures { self.new
            ≡ record { batch = self.old.batch; number = number; place = self.old.place } }
    {
        self.number = number;
    }

    // Only the ledger ends a finalizer.
    pub(crate) fn destroy_unspent(self) {
        let Finalizer {
            batch: _,
            number: _,
            place: _,
        } = self;
    }
}
