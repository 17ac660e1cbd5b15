use std::alloc::Global;
use std::process::Abort;
use std::test::Fail;
use vx_frame::{Framer, LineList, with_room_for};
use vx_value::{ItemList, WantOfMemory};

// What one line is: its stream, its bytes and its end.
fn check(rt: &impl Abort, out: &LineList, i: usize, bytes: &[u8], end: u64) -> Result<(), Fail> {
    let line = out.get(i).ok_or("a line is missing")?;
    assert_eq!(rt; line.stream, 7);
    assert_eq!(rt; line.bytes.as_slice(), bytes);
    assert_eq!(rt; line.end, end);
    Ok(())
}

// Checks how many lines came, and how many were too long.
fn has_counts(rt: &impl Abort, framer: &Framer, out: &LineList, lines: usize, overlong: u64) {
    assert_eq!(rt; out.len(), lines);
    assert_eq!(rt; framer.overlong(), overlong);
}

// Checks that three lines came of `a`, `bc` and `d`.
fn are_three(rt: &impl Abort, out: &LineList) -> Result<(), Fail> {
    assert_eq!(rt; out.len(), 3);
    check(rt, out, 0, b"a", 2)?;
    check(rt, out, 1, b"bc", 5)?;
    check(rt, out, 2, b"d", 6)
}

// Feeds a piece of the stream.
fn feed(framer: &mut Framer, piece: &[u8], out: &mut LineList) -> Result<(), WantOfMemory> {
    framer.feed(7, piece, out)
}

// Feeds a piece of the stream, and one of a stream beside it.
fn feed_both(framer: &mut Framer, piece: &[u8], out: &mut LineList) -> Result<(), WantOfMemory> {
    feed(framer, piece, out)?;
    framer.feed(8, b"x", out)
}

// Ends the stream.
fn finish(framer: &mut Framer, out: &mut LineList) -> Result<(), WantOfMemory> {
    framer.finish(7, out)
}

// Feeds a text, torn behind each byte whose bit is set in `tear`.
fn feed_torn(framer: &mut Framer, tear: u32, out: &mut LineList) -> Result<(), Fail> {
    let text = b"a\nbc\nd";
    let mut start = 0;
    for end in 1..7 {
        if end == 6 || (tear >> (end - 1)) % 2 == 1 {
            feed_both(framer, text.get(start..end).ok_or("a piece")?, out)?;
            start = end;
        }
    }
    Ok(())
}

// Checks the lines of a text that is torn so, an end, and a second end.
fn has_lines(rt: &impl Abort, alloc: Global, tear: u32) -> Result<(), Fail> {
    let mut framer = Framer::new(alloc, 10);
    let mut out = ItemList::new(alloc);
    feed_torn(&mut framer, tear, &mut out)?;
    finish(&mut framer, &mut out)?;
    are_three(rt, &out)?;
    finish(&mut framer, &mut out)?;
    has_counts(rt, &framer, &out, 3, 0);
    Ok(())
}

// Every tear of a text into pieces, an end, and a stream beside it.
#[test]
fn lines_however_cut(rt: HostRuntime) -> Result<(), Fail> {
    for tear in 0u32..32 {
        has_lines(&rt, rt.alloc(), tear)?;
    }
    Ok(())
}

// A line that is too long is counted, until its count is taken.
#[test]
fn counts_of_long_lines(rt: HostRuntime) -> Result<(), Fail> {
    let mut framer = Framer::new(rt.alloc(), 1);
    let mut out = with_room_for(rt.alloc(), b"ab\n")?;
    feed(&mut framer, b"ab\n", &mut out)?;
    has_counts(&rt, &framer, &out, 0, 1);
    assert_eq!(rt; framer.take_overlong(), 1);
    has_counts(&rt, &framer, &out, 0, 0);
    Ok(())
}
