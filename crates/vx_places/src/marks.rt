// Which instances may have something, found without a look at each of the others.
ghost use Rattle.std.specs.Prelude.{◌≡◌, ◌<◌, ◌≤◌, length};
ghost use Rattle.vx_places.specs.Marks.{AreMarked, AreMarkedBut, IsNextMark};

use crate::looks;
use crate::row::Row;
use memchr::memchr;

/// The byte of an instance that is marked.
pub(crate) const MARKED: u8 = 1;

/// Two marks for each instance: whether it may have an output or a waiting child, and whether something may stand in its buffer or
/// among what it holds.
#[derive(Drop)]
pub struct Marks {
    pub unsent: Vec<u8>,
    pub filled: Vec<u8>,
}

// Marks an instance by what stands at it, where the marks of all others are right.
pub(crate) fn mark(rows: &[Row], marks: &mut Marks, i: usize)
    requires within { i < length rows.now }
    requires others { AreMarkedBut i rows.now marks.old }
    ensures { AreMarked rows.now marks.new }
{
    marks.unsent[i] = u8::from(!looks::is_sent(rows, i));
    marks.filled[i] = u8::from(!looks::is_unfilled(rows, i));
}

// The next instance that is marked, from a number on.
pub(crate) fn next_marked(marks: &[u8], from: usize) -> Option<usize>
    requires { from ≤ length marks.now }
    ensures { IsNextMark marks.now from result }
{
    match memchr(MARKED, &marks[from..]) {
        Some(k) => Some(from + k),
        None => None,
    }
}
