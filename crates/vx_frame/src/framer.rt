ghost use Rattle.std.specs.Prelude.{◌≡◌, ◌≢◌, ℕ, ◌+◌, ◌≤◌, List, [], ◌++◌, map, length, take, true, false, IfOk, OnOk, OnErr, IsTrue};

use crate::line::{Line, LineList};
use crate::piece::take_piece;
use crate::unfinished::Unfinished;
use std::alloc::Global;
use std::collections::BTreeMap;
use std::marker::Model;
use vx_value::WantOfMemory;

/// Cuts the bytes of any number of streams into lines, however the bytes come.
///
/// Of each stream it keeps no more than its unfinished line, of which at most one byte more than the limit.
#[derive(Drop)]
pub struct Framer {
    alloc: Global,
    limit: u32,
    overlong: u64,
    streams: BTreeMap<u64, Unfinished>,
}

impl Model for Framer {
    ghost use Rattle.vx_frame.specs.Framings.{Framing, HeldFits};

    ghost Value = { Framing };

    ghost view = { λ f. record { limit = f.limit; overlong = f.overlong; streams = f.streams.entries } };

    ghost invariant = { λ f. HeldFits (record { limit = f.limit; overlong = f.overlong; streams = f.streams.entries }) };
}

impl Framer {
    ghost use Rattle.vx_frame.specs.Frames.{frames, discarded, capped};
    ghost use Rattle.vx_frame.specs.Framings.{Framing, IsSameFraming, HasTaken, HeldFits, has_place, unfinished, untouched, lines_behind, overlong_behind, left_behind, line_of};

    /// A framer of lines of at most `limit` bytes, for streams that are all at their beginning.
    pub fn new(alloc: Global, limit: u32) -> Self
        ensures limit { result.limit ≡ limit }
        ensures overlong { result.overlong ≡ 0 }
        ensures fresh { (stream : ℕ) → HasTaken result stream [] }
    {
        Framer {
            alloc,
            limit,
            overlong: 0,
            streams: BTreeMap::new(alloc),
        }
    }

    /// How many lines beyond the limit were left out that `take_overlong` has not told yet.
    pub fn overlong(&self) -> u64
        ensures { result ≡ self.now.overlong }
    {
        self.overlong
    }

    /// How many lines were longer than the limit since this was asked last. The count begins anew.
    pub fn take_overlong(&mut self) -> u64
        ensures observed { result ≡ self.old.overlong }
        ensures anew { self.new.overlong ≡ 0 }
        ensures limit { self.new.limit ≡ self.old.limit }
        ensures streams { (stream : ℕ) → unfinished self.new stream ≡ unfinished self.old stream }
    {
        let overlong = self.overlong;
        self.overlong = 0;
        overlong
    }

    // Takes out what a stream left unfinished. The stream has a place from then on, and is at its beginning.
    fn take_out(&mut self, stream: u64) -> Result<Unfinished, WantOfMemory>
        ensures taken { IfOk result (λ left. left ≡ unfinished self.old stream) }
        ensures fits { IfOk result (λ left. length left.held ≤ self.old.limit + 1) }
        ensures place { OnOk result (IsTrue (has_place self.new stream)) }
        ensures limit { self.new.limit ≡ self.old.limit }
        ensures overlong { self.new.overlong ≡ self.old.overlong }
        ensures others { (other : ℕ) → other ≢ stream →
            unfinished self.new other ≡ unfinished self.old other }
        ensures err { OnErr result (IsSameFraming self.old self.new) }
    {
        let beginning = Unfinished::nothing(self.alloc, 0);
        match self.streams.insert(stream, beginning) {
            Ok(Some(left)) => Ok(left),
            Ok(None) => Ok(Unfinished::nothing(self.alloc, 0)),
            Err(_) => Err(WantOfMemory),
        }
    }

    // Puts what a stream leaves unfinished at its place, which takes no memory.
    fn put_back(&mut self, stream: u64, left: Unfinished)
        requires place { IsTrue (has_place self.old stream) }
        requires fits { length left.held ≤ self.old.limit + 1 }
        ensures back { unfinished self.new stream ≡ left }
        ensures limit { self.new.limit ≡ self.old.limit }
        ensures overlong { self.new.overlong ≡ self.old.overlong }
        ensures others { (other : ℕ) → other ≢ stream →
            unfinished self.new other ≡ unfinished self.old other }
    {
        match self.streams.insert(stream, left) {
            Ok(_) => {}
            Err(_) => unreachable!(),
        }
    }

    /// Takes more bytes of a stream, and adds the lines that they end to `out`.
    /// For want of memory the framer and `out` are as before.
    pub fn feed(
        &mut self,
        stream: u64,
        bytes: &[u8],
        out: &mut LineList,
    ) -> Result<(), WantOfMemory>
        ensures limit { self.new.limit ≡ self.old.limit }
        ensures lines { OnOk result (out.new ≡ out.old ++ map (line_of stream)
            (lines_behind self.old.limit false (unfinished self.old stream) bytes.now)) }
        ensures overlong { OnOk result (self.new.overlong ≡ capped (self.old.overlong
            + overlong_behind self.old.limit false (unfinished self.old stream) bytes.now)) }
        ensures left { OnOk result (unfinished self.new stream
            ≡ left_behind self.old.limit (unfinished self.old stream) bytes.now) }
        ensures others { (other : ℕ) → other ≢ stream →
            unfinished self.new other ≡ unfinished self.old other }
        ensures err { OnErr result (IsSameFraming self.old self.new) }
        ensures err_out { OnErr result (out.new ≡ out.old) }

        // However the bytes are cut, the stream's lines are those of all its bytes.
        ensures taken { OnOk result ((taken : List ℕ) → HasTaken self.old stream taken →
            HasTaken self.new stream (taken ++ bytes.now)) }
        ensures frames { OnOk result ((taken : List ℕ) → HasTaken self.old stream taken →
            frames (taken ++ bytes.now) self.old.limit false ≡ frames taken self.old.limit false
            ++ lines_behind self.old.limit false (unfinished self.old stream) bytes.now) }
        ensures discarded { OnOk result
            ((taken : List ℕ) → HasTaken self.old stream taken →
            discarded (taken ++ bytes.now) self.old.limit false
            ≡ discarded taken self.old.limit false + overlong_behind self.old.limit false
            (unfinished self.old stream) bytes.now) }
    {
        let mut left = self.take_out(stream)?;
        let taken = take_piece(
            self.alloc,
            self.limit,
            self.overlong,
            stream,
            &mut left,
            bytes,
            out,
        );
        self.put_back(stream, left);
        match taken {
            Ok(overlong) => {
                self.overlong = overlong;
                Ok(())
            }
            Err(WantOfMemory) => Err(WantOfMemory),
        }
    }

    /// Ends a stream, which begins anew: a nonempty unfinished line counts as a line, and is added to `out`.
    /// For want of memory the framer and `out` are as before.
    pub fn finish(&mut self, stream: u64, out: &mut LineList) -> Result<(), WantOfMemory>
        ensures limit { self.new.limit ≡ self.old.limit }
        ensures lines { OnOk result (out.new ≡ out.old ++ map (line_of stream)
            (lines_behind self.old.limit true (unfinished self.old stream) [])) }
        ensures overlong { OnOk result (self.new.overlong ≡ capped (self.old.overlong
            + overlong_behind self.old.limit true (unfinished self.old stream) [])) }
        ensures left { OnOk result (unfinished self.new stream ≡ untouched) }
        ensures others { (other : ℕ) → other ≢ stream →
            unfinished self.new other ≡ unfinished self.old other }
        ensures err { OnErr result (IsSameFraming self.old self.new) }
        ensures err_out { OnErr result (out.new ≡ out.old) }

        // The lines of the stream are those of all its bytes, the last one with them.
        ensures taken { OnOk result (HasTaken self.new stream []) }
        ensures frames { OnOk result ((taken : List ℕ) → HasTaken self.old stream taken →
            frames taken self.old.limit true ≡ frames taken self.old.limit false
            ++ lines_behind self.old.limit true (unfinished self.old stream) []) }
        ensures discarded { OnOk result ((taken : List ℕ) → HasTaken self.old stream taken →
            discarded taken self.old.limit true ≡ discarded taken self.old.limit false
            + overlong_behind self.old.limit true (unfinished self.old stream) []) }
    {
        if !self.streams.contains_key(&stream) {
            return Ok(());
        }
        let Unfinished { seen, held } = self.take_out(stream)?;
        if held.len() > self.limit as usize {
            self.overlong = self.overlong.saturating_add(1);
        } else if !held.is_empty() {
            let line = Line {
                stream,
                bytes: held,
                end: seen,
            };
            match out.push(line) {
                Ok(()) => {}
                Err(line) => {
                    let held = line.bytes;
                    self.put_back(stream, Unfinished { seen, held });
                    return Err(WantOfMemory);
                }
            }
        }
        let _ = self.streams.remove(&stream);
        Ok(())
    }
}
