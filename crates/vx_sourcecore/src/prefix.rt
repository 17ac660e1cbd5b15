ghost use Rattle.std.specs.Prelude.{◌≡◌, ℕ, Bool, List, [], ◌∷◌, ◌++◌, Option, None, take_while, not, IfOk, IfErr, IfSome, IfNone, is_some, IsSome, ◌↔◌, ◌||◌};
ghost use Rattle.std.specs.Option.{option_copied};
ghost use Rattle.vx_ends.specs.declared.position.Position.{Position};
ghost use Rattle.vx_record.specs.Confirms.{Birth, is_delivered, moved_to};
ghost use Rattle.vx_sourcecore.specs.Prefixes.{ends_of, birth_at, AreApart, IsCutOf, IsPrefixOf, Judgement, IsReadyFor, NoticeChanges, GoesOn, IsAskFor, IsPopped, IsHeld, passed_in, new_due, fails, kept_before, has_failed};

use crate::ends::Ends;
use crate::positions::{moved, same};
use std::alloc::Global;
use std::collections::VecDeque;
use vx_ends::{Position, PositionList};
use vx_ledger::Notice;
use vx_status::BatchStatus;
use vx_value::WantOfMemory;

/// Positions that are to be confirmed, and the same again, to be remembered as what was asked for.
#[derive(Drop)]
pub struct Due {
    pub positions: PositionList,
    pub copy: PositionList,
}

/// A batch that comes behind one which may not be confirmed yet, or is itself such a one.
#[derive(Drop)]
pub struct Passing {
    /// The batch's number.
    pub batch: u64,
    /// Whether it may be confirmed itself: it was delivered, or needn't wait.
    pub passed: bool,
    /// What is to be confirmed once it and all batches before it may be.
    pub due: Due,
}

/// What a source may confirm to its port: the batches, from the first on, each of which was delivered or needn't wait
/// for that.
#[derive(Drop)]
pub struct Prefix {
    /// Whether the source's batches wait until they are delivered.
    pub waits: bool,
    /// Where all its batches end: for each stream the end of the last one, by rising streams.
    pub ends: PositionList,
    /// The batches from the first on that may not be confirmed yet, the oldest first, up to one that never may.
    pub behind: VecDeque<Passing>,
    /// Whether there is one that never may: it failed. Nothing more is kept of it and of those behind it.
    pub blocked: bool,
    /// What is to be confirmed.
    pub due: Option<Due>,
    /// What was asked for last.
    pub asked: PositionList,
}

impl Prefix {
    /// What a source may confirm that created no batch yet; its batches wait, or none does. It takes no memory.
    pub fn new(alloc: Global, waits: bool) -> Self
        ensures waits { result.waits ≡ waits }
        ensures none { (judged : Judgement) → IsPrefixOf result judged [] [] }
    {
        Prefix {
            waits,
            ends: PositionList::new(alloc),
            behind: VecDeque::new(alloc),
            blocked: false,
            due: None,
            asked: PositionList::new(alloc),
        }
    }

    /// Takes the memory for one batch more, which ends at a position, and for its notice.
    pub fn prepare(&mut self, alloc: Global, position: Position) -> Result<Ends, WantOfMemory>
        ensures same { GoesOn self.old self.new }
        ensures ready { IfOk result (IsReadyFor self.new position) }
    {
        if self.behind.reserve(1).is_err() {
            return Err(WantOfMemory);
        }
        let before = self.ends.as_slice();
        Ok(Ends {
            kept: moved(alloc, before, position)?,
            positions: moved(alloc, before, position)?,
            copy: moved(alloc, before, position)?,
        })
    }

    /// Adds a batch for which memory was taken. It may be confirmed at once, unless the source's batches wait.
    pub fn born(&mut self, batch: u64, ends: Ends)
        requires ready { (position : Position) × IsReadyFor self.old position ends }
        ensures waits { self.new.waits ≡ self.old.waits }
        ensures born { (position : Position) → (judged : Judgement) → (births : List Birth) →
            (asked : List Position) → IsReadyFor self.old position ends →
            judged.may (birth_at self.old.waits batch position) ≡ not self.old.waits →
            IsPrefixOf self.old judged births asked →
            IsPrefixOf self.new judged
            (births ++ birth_at self.old.waits batch position ∷ []) asked }
    {
        let Ends {
            kept,
            positions,
            copy,
        } = ends;
        self.ends = kept;
        if self.blocked {
            return;
        }
        self.behind.push_back_reserved(Passing {
            batch,
            passed: !self.waits,
            due: Due { positions, copy },
        });
        self.advance();
    }

    /// Takes the notice of a batch. It takes no memory.
    pub fn notice(&mut self, notice: Notice)
        ensures waits { self.new.waits ≡ self.old.waits }
        ensures noticed { (judged : Judgement) → (next : Judgement) → (births : List Birth) →
            (asked : List Position) → NoticeChanges notice.batch (is_delivered notice.status) judged next →
            AreApart births → IsPrefixOf self.old judged births asked →
            IsPrefixOf self.new next births asked }
    {
        if delivers(notice.status) {
            self.pass(notice.batch);
            self.advance();
        } else {
            self.block(notice.batch);
        }
    }

    /// What is to be confirmed. `None` exactly where the batches that may be confirmed end where it was asked for last.
    pub fn due(&self) -> Option<&PositionList>
        ensures { (judged : Judgement) → (births : List Birth) → (asked : List Position) →
            IsPrefixOf self.now judged births asked →
            IsAskFor (option_copied result) (ends_of (take_while judged.may births)) asked }
    {
        match &self.due {
            Some(due) => Some(&due.positions),
            None => None,
        }
    }

    /// Whether something is to be confirmed.
    pub fn is_due(&self) -> bool
        ensures { result ≡ is_some self.now.due }
    {
        self.due.is_some()
    }

    /// Takes what is to be confirmed, and remembers that it was asked for. It takes no memory.
    pub fn take_due(&mut self) -> Option<PositionList>
        ensures waits { self.new.waits ≡ self.old.waits }
        ensures asked { (judged : Judgement) → (births : List Birth) → (asked : List Position) →
            IsPrefixOf self.old judged births asked →
            IsPrefixOf self.new judged births (ends_of (take_while judged.may births)) }
        ensures due { (judged : Judgement) → (births : List Birth) → (asked : List Position) →
            IsPrefixOf self.old judged births asked →
            IsAskFor result (ends_of (take_while judged.may births)) asked }
        ensures none { self.old.due ≡ None → result ≡ None }
    {
        match self.due.take() {
            Some(Due { positions, copy }) => {
                self.asked = copy;
                Some(positions)
            }
            None => None,
        }
    }

    /// Lets the batch of a number be confirmed, as soon as those before it are.
    fn pass(&mut self, batch: u64)
        ensures passed { self.new.behind.items ≡ passed_in batch self.old.behind.items }
        ensures rest { self.new ≡ record self.old { behind = self.new.behind } }
    {
        for i in 0..self.behind.len() {
            if self.behind[i].batch == batch {
                self.behind[i].passed = true;
                return;
            }
        }
    }

    /// Lets go of the batch of a number and of all behind it, since none of them will be confirmed.
    fn block(&mut self, batch: u64)
        ensures kept { self.new.behind.items ≡ kept_before batch self.old.behind.items }
        ensures blocked { self.new.blocked
            ≡ (self.old.blocked || has_failed batch self.old.behind.items) }
        ensures rest { self.new
            ≡ record self.old { behind = self.new.behind; blocked = self.new.blocked } }
    {
        for i in 0..self.behind.len() {
            if fails(&self.behind[i], batch) {
                self.behind.truncate(i);
                self.blocked = true;
                return;
            }
        }
    }

    /// Moves past the batches at the front that may be confirmed.
    fn advance(&mut self)
        ensures waits { self.new.waits ≡ self.old.waits }
        ensures advanced { (judged : Judgement) → (births : List Birth) → (asked : List Position) →
            IsCutOf self.old judged births asked → IsPrefixOf self.new judged births asked }
    {
        while let Some(due) = self.pop_passed() {
            self.reach(due);
        }
    }

    /// Takes the front, if that may be confirmed, and tells what is to be confirmed then.
    fn pop_passed(&mut self) -> Option<Due>
        ensures some { IfSome result (IsPopped self.old self.new) }
        ensures none { IfNone result (IsHeld self.old.behind.items) }
        ensures same { IfNone result (self.new ≡ self.old) }
    {
        match self.behind.front() {
            Some(row) if row.passed => {}
            _ => return None,
        }
        match self.behind.pop_front() {
            Some(row) => Some(row.due),
            None => None,
        }
    }

    /// Notes what is to be confirmed, unless it was asked for last.
    fn reach(&mut self, due: Due)
        ensures { self.new ≡ record self.old { due = new_due due self.old.asked } }
    {
        let is_old = same(due.positions.as_slice(), self.asked.as_slice());
        self.due = if is_old { None } else { Some(due) };
    }
}

/// Whether a batch has a number, and may not be confirmed.
fn fails(row: &Passing, batch: u64) -> bool
    ensures { result ≡ fails batch row.now }
{
    row.batch == batch && !row.passed
}

/// Whether a status lets its batch be confirmed.
fn delivers(status: BatchStatus) -> bool
    ensures { result ≡ is_delivered status }
{
    matches!(status, BatchStatus::Delivered)
}
