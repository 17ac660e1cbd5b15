//! How a reader goes on inside a token.
ghost use Rattle.std.specs.Prelude.{◌≡◌, ◌<◌, ◌∷◌, ◌++◌, [], ◌==◌, ◌&&◌, ◌+◌, ◌-◌, ◌*◌, not, true, cond, nat_lt, length, IfErr, IfOk, OnOk};
ghost use Rattle.std.specs.Str.{IsUtf8};
ghost use Rattle.vx_value.specs.Paths.{move_of};
ghost use Rattle.vx_condition.specs.Grammar.{is_digit, escaped};
ghost use Rattle.vx_condition.specs.Moves.{at, moved, step, arrived, behind_blanks, behind_path, in_word, in_path, in_text, with_escape, behind_text, in_pattern, in_whole, fits, signed, held_by, Stops, StopsPattern};
ghost use Rattle.vx_condition.specs.Takes.{HasSize, StopsIn, whole_in, end_at};

use crate::comparison::Comparison;
use crate::disjunction::Disjunction;
use crate::expected::Expected;
use crate::fixed_word::FixedWord;
use crate::frame::Frame;
use crate::frame_stack::FrameStack;
use crate::literal::Literal;
use crate::mode::{Behind, Mode, PathUse, TextUse};
use crate::openings::{behind_path, equal_to, is_blank, is_digit, or_equal, with_number};
use crate::operator::Operator;
use crate::pattern::{Pattern, PatternFault};
use crate::predicate::Predicate;
use crate::reader::{Reader, text_of};
use crate::stop::Stop;
use crate::term::Atom;
use std::alloc::Global;
use std::mem;
use vx_value::{ItemList, Path, PathMode, PathMove, TextList};

// Adds a byte to those that are held.
fn held_with(held: ItemList<u8>, byte: u8) -> Result<ItemList<u8>, Stop>
    ensures ok { IfOk result (λ longer. longer ≡ held ++ byte ∷ []) }
    ensures stop { IfErr result (λ stop. stop ≡ Stop.WantOfMemory) }
{
    let mut held = held;
    match held.push(byte) {
        Ok(()) => Ok(held),
        Err(_) => Err(Stop::WantOfMemory),
    }
}

// What a letter behind a backslash stands for.
fn escaped(byte: u8) -> Option<u8>
    ensures { result ≡ escaped byte }
{
    match byte {
        b'"' | b'\\' => Some(byte),
        b'n' => Some(b'\n'),
        b'r' => Some(b'\r'),
        b't' => Some(b'\t'),
        _ => None,
    }
}

// The names of a path with one more.
fn names_with(alloc: Global, names: TextList, name: ItemList<u8>) -> Result<TextList, Stop>
    requires { IsUtf8 name }
    ensures ok { IfOk result (λ longer. longer ≡ names ++ name ∷ []) }
    ensures stop { IfErr result (λ stop. stop ≡ Stop.WantOfMemory) }
{
    let name = text_of(alloc, name)?;
    let mut names = names;
    match names.push(name) {
        Ok(()) => Ok(names),
        Err(_) => Err(Stop::WantOfMemory),
    }
}

// The number of a size.
fn signed(negative: bool, size: u64) -> i64
    requires some { negative ≡ true → 0 < size }
    requires fits { fits negative size ≡ true }
    ensures { result ≡ signed negative size }
{
    if negative {
        -((size - 1) as i64) - 1
    } else {
        size as i64
    }
}

impl Reader {
    // Goes on behind a fixed word.
    fn arrive(&mut self, behind: Behind) -> Result<(), Stop>
        ensures ok { OnOk result (self.new ≡ arrived self.old behind) }
        ensures stop { IfErr result (λ stop. stop ≡ Stop.WantOfMemory) }
    {
        match behind {
            Behind::Wants(expected) => {
                self.stand(Mode::Expects(expected));
                Ok(())
            }
            Behind::Done(predicate) => self.state(predicate),
        }
    }

    // Takes a byte in a fixed word, of which some letters were read.
    fn in_word(
        &mut self,
        word: FixedWord,
        read: usize,
        behind: Behind,
        byte: u8,
    ) -> Result<(), Stop>
        ensures ok { OnOk result (in_word self.old word read behind byte ≡ Ok self.new) }
        ensures stop { IfErr result (Stops (in_word self.old word read behind byte)) }
    {
        let letters = word.letters().as_bytes();
        if read >= letters.len() || byte != letters[read] {
            drop(behind);
            return Err(Stop::Refused);
        }
        if read + 1 == letters.len() {
            self.arrive(behind)
        } else {
            self.stand(Mode::Word(word, read + 1, behind));
            Ok(())
        }
    }

    // Takes a byte that ends a name, behind which another comes.
    fn next_name(
        &mut self,
        alloc: Global,
        use_of: PathUse,
        name: ItemList<u8>,
        names: TextList,
    ) -> Result<(), Stop>
        requires { IsUtf8 name }
        ensures ok { OnOk result
            (cond (nat_lt (length names) 30)
            (Ok (at self.old (Mode.Path use_of PathMode.Name [] (names ++ name ∷ []))))
            (Err Stop.Refused) ≡ Ok self.new) }
        ensures stop { IfErr result
            (Stops
            (cond (nat_lt (length names) 30)
            (Ok (at self.old (Mode.Path use_of PathMode.Name [] (names ++ name ∷ []))))
            (Err Stop.Refused))) }
    {
        if names.len() >= 30 {
            return Err(Stop::Refused);
        }
        let names = names_with(alloc, names, name)?;
        let next = ItemList::new(alloc);
        self.stand(Mode::Path(use_of, PathMode::Name, next, names));
        Ok(())
    }

    // Takes a byte behind a path.
    fn end_path(
        &mut self,
        alloc: Global,
        use_of: PathUse,
        name: ItemList<u8>,
        names: TextList,
        byte: u8,
    ) -> Result<(), Stop>
        requires text { IsUtf8 name }
        requires few { length names < 31 }
        ensures ok { OnOk result
            (behind_blanks 32 self.old (behind_path use_of (names ++ name ∷ [])) byte
            ≡ Ok self.new) }
        ensures stop { IfErr result
            (Stops (behind_blanks 32 self.old (behind_path use_of (names ++ name ∷ [])) byte)) }
    {
        let names = names_with(alloc, names, name)?;
        self.behind_blanks(alloc, behind_path(use_of, Path::of(names)), byte)
    }

    // Takes a byte of a name.
    fn add_to_name(
        &mut self,
        use_of: PathUse,
        next: PathMode,
        name: ItemList<u8>,
        names: TextList,
        byte: u8,
    ) -> Result<(), Stop>
        ensures ok { OnOk result
            (self.new ≡ at self.old (Mode.Path use_of next (name ++ byte ∷ []) names)) }
        ensures stop { IfErr result (λ stop. stop ≡ Stop.WantOfMemory) }
    {
        let name = held_with(name, byte)?;
        self.stand(Mode::Path(use_of, next, name, names));
        Ok(())
    }

    // Takes a byte in a path, or behind one that may end here.
    pub(crate) fn in_path(
        &mut self,
        alloc: Global,
        use_of: PathUse,
        place: PathMode,
        name: ItemList<u8>,
        names: TextList,
        byte: u8,
    ) -> Result<(), Stop>
        requires { byte < 128 → IsUtf8 name }
        ensures ok { OnOk result
            (in_path 32 self.old use_of place name names byte
            (move_of place (length name == 0) byte) ≡ Ok self.new) }
        ensures stop { IfErr result
            (Stops
            (in_path 32 self.old use_of place name names byte
            (move_of place (length name == 0) byte))) }
    {
        match place.takes(name.len() == 0, byte) {
            PathMove::Adds(next) => self.add_to_name(use_of, next, name, names, byte),
            PathMove::Passes(next) => self.go(Some(Mode::Path(use_of, next, name, names))),
            PathMove::Ends => self.next_name(alloc, use_of, name, names),
            PathMove::Refused => {
                let may_end = place.may_end() && names.len() < 31 && byte < 128;
                if !may_end {
                    return Err(Stop::Refused);
                }
                self.end_path(alloc, use_of, name, names, byte)
            }
        }
    }

    // Ends a text in quotes.
    fn end_text(&mut self, alloc: Global, use_of: TextUse, held: ItemList<u8>) -> Result<(), Stop>
        requires { IsUtf8 held }
        ensures ok { OnOk result (self.new ≡ behind_text self.old use_of held) }
        ensures stop { IfErr result (λ stop. stop ≡ Stop.WantOfMemory) }
    {
        let text = text_of(alloc, held)?;
        match use_of {
            TextUse::Literal(path, equality) => {
                self.state(equal_to(path, equality, Literal::Words(text)))
            }
            TextUse::Part(path) => {
                self.stand(Mode::Expects(Expected::Close(Predicate::Contains(path, text))));
                Ok(())
            }
        }
    }

    // Goes on in a text in quotes, with a byte more or none.
    fn add_to_text(
        &mut self,
        use_of: TextUse,
        held: ItemList<u8>,
        byte: Option<u8>,
    ) -> Result<(), Stop>
        ensures ok { OnOk result (with_escape self.old use_of held byte ≡ Ok self.new) }
        ensures stop { IfErr result (Stops (with_escape self.old use_of held byte)) }
    {
        match byte {
            Some(byte) => {
                let held = held_with(held, byte)?;
                self.stand(Mode::Text(use_of, false, held));
                Ok(())
            }
            None => Err(Stop::Refused),
        }
    }

    // Takes a byte in a text in quotes.
    fn in_text(
        &mut self,
        alloc: Global,
        use_of: TextUse,
        behind_backslash: bool,
        held: ItemList<u8>,
        byte: u8,
    ) -> Result<(), Stop>
        requires { byte < 128 → IsUtf8 held }
        ensures ok { OnOk result
            (in_text self.old use_of behind_backslash held byte ≡ Ok self.new) }
        ensures stop { IfErr result (Stops (in_text self.old use_of behind_backslash held byte)) }
    {
        if behind_backslash {
            self.add_to_text(use_of, held, escaped(byte))
        } else if byte == b'"' {
            self.end_text(alloc, use_of, held)
        } else if byte == b'\\' {
            self.stand(Mode::Text(use_of, true, held));
            Ok(())
        } else {
            self.add_to_text(use_of, held, Some(byte))
        }
    }

    // Ends a pattern.
    fn end_pattern(&mut self, alloc: Global, path: Path, held: ItemList<u8>) -> Result<(), Stop>
        requires { IsUtf8 held }
        ensures ok { OnOk result (in_pattern self.old path held 39 ≡ Ok self.new) }
        ensures stop { IfErr result (StopsPattern self.old.keeps held) }
    {
        let length = held.len();
        let text = text_of(alloc, held)?;
        let sought = if self.keeps {
            match Pattern::new(alloc, text.as_str()) {
                Ok(pattern) => Predicate::Matches(path, pattern),
                Err(PatternFault::Refused) => return Err(Stop::BadPattern(length)),
                Err(PatternFault::WantOfMemory) => return Err(Stop::WantOfMemory),
            }
        } else {
            Predicate::Contains(path, text)
        };
        self.stand(Mode::Expects(Expected::Close(sought)));
        Ok(())
    }

    // Takes a byte in a whole number.
    fn in_whole(
        &mut self,
        alloc: Global,
        path: Path,
        operator: Operator,
        negative: bool,
        size: u64,
        byte: u8,
    ) -> Result<(), Stop>
        requires some { negative ≡ true → 0 < size }
        requires fits { fits negative size ≡ true }
        ensures ok { OnOk result
            (in_whole self.old path operator negative size byte ≡ Ok self.new) }
        ensures stop { IfErr result (Stops (in_whole self.old path operator negative size byte)) }
    {
        if !is_digit(byte) {
            let number = signed(negative, size);
            self.state(with_number(path, operator, number))?;
            return self.behind_operand(alloc, byte);
        }
        match larger(negative, size, byte) {
            Some(size) => {
                self.stand(Mode::Whole(path, operator, negative, size));
                Ok(())
            }
            None => Err(Stop::Refused),
        }
    }
}

// The size of a number with a digit more. `None` where that is no number of 64 bits, or begins with a needless zero.
fn larger(negative: bool, size: u64, byte: u8) -> Option<u64>
    requires digit { is_digit byte ≡ true }
    requires fits { fits negative size ≡ true }
    ensures { result ≡ cond (not (size == 0) && fits negative (10 * size + (byte - 48)))
        (Some (10 * size + (byte - 48))) None }
{
    let wide = u128::from(size) * 10 + u128::from(byte - b'0');
    let most = if negative { 1 << 63 } else { (1 << 63) - 1 };
    if size != 0 && wide <= most {
        Some(wide as u64)
    } else {
        None
    }
}

impl Reader {
    // Takes a byte before everything.
    fn at_start(&mut self, alloc: Global, byte: u8) -> Result<(), Stop>
        ensures ok { OnOk result (moved 32 self.old Mode.Start byte ≡ Ok self.new) }
        ensures stop { IfErr result (Stops (moved 32 self.old Mode.Start byte)) }
    {
        if is_blank(byte) {
            return Err(Stop::Refused);
        }
        self.operand(alloc, byte)
    }

    // Takes a byte behind the `r` of a pattern.
    fn in_mark(&mut self, alloc: Global, path: Path, byte: u8) -> Result<(), Stop>
        ensures ok { OnOk result (moved 32 self.old (Mode.Mark path) byte ≡ Ok self.new) }
        ensures stop { IfErr result (Stops (moved 32 self.old (Mode.Mark path) byte)) }
    {
        if byte != b'\'' {
            return Err(Stop::Refused);
        }
        self.stand(Mode::Pattern(path, ItemList::new(alloc)));
        Ok(())
    }

    // Takes a byte in a pattern.
    fn in_pattern(
        &mut self,
        alloc: Global,
        path: Path,
        held: ItemList<u8>,
        byte: u8,
    ) -> Result<(), Stop>
        requires { byte < 128 → IsUtf8 held }
        ensures ok { OnOk result (in_pattern self.old path held byte ≡ Ok self.new) }
        ensures stop { IfErr result (StopsIn self.old (Mode.Pattern path held) byte) }
    {
        if byte == b'\'' {
            return self.end_pattern(alloc, path, held);
        }
        let held = held_with(held, byte)?;
        self.stand(Mode::Pattern(path, held));
        Ok(())
    }

    // Takes a byte behind the `-` of a number.
    fn in_minus(&mut self, path: Path, operator: Operator, byte: u8) -> Result<(), Stop>
        ensures ok { OnOk result (moved 32 self.old (Mode.Minus path operator) byte ≡ Ok self.new) }
        ensures stop { IfErr result (Stops (moved 32 self.old (Mode.Minus path operator) byte)) }
    {
        if byte < b'1' || b'9' < byte {
            return Err(Stop::Refused);
        }
        self.stand(Mode::Whole(path, operator, true, u64::from(byte - b'0')));
        Ok(())
    }

    // Takes a byte behind a `<` or `>`.
    fn in_angle(
        &mut self,
        alloc: Global,
        path: Path,
        comparison: Comparison,
        byte: u8,
    ) -> Result<(), Stop>
        ensures ok { OnOk result
            (moved 32 self.old (Mode.Angle path comparison) byte ≡ Ok self.new) }
        ensures stop { IfErr result (Stops (moved 32 self.old (Mode.Angle path comparison) byte)) }
    {
        if byte == b'=' {
            let operator = Operator::Compared(or_equal(comparison));
            self.stand(Mode::Expects(Expected::Literal(path, operator)));
            return Ok(());
        }
        let literal = Expected::Literal(path, Operator::Compared(comparison));
        self.behind_blanks(alloc, literal, byte)
    }

    // Takes a byte at a place, wherever it stands.
    fn take_at(&mut self, alloc: Global, mode: Mode, byte: u8) -> Result<(), Stop>
        requires number { HasSize mode }
        requires text { byte < 128 → IsUtf8 (held_by mode) }
        ensures ok { OnOk result (moved 32 self.old mode byte ≡ Ok self.new) }
        ensures stop { IfErr result (StopsIn self.old mode byte) }
    {
        match mode {
            Mode::Start => self.at_start(alloc, byte),
            Mode::Expects(expected) => self.behind_blanks(alloc, expected, byte),
            Mode::Complete => self.behind_operand(alloc, byte),
            Mode::Word(word, read, behind) => self.in_word(word, read, behind, byte),
            Mode::Path(use_of, place, name, names) => {
                self.in_path(alloc, use_of, place, name, names, byte)
            }
            Mode::Text(use_of, behind_backslash, held) => {
                self.in_text(alloc, use_of, behind_backslash, held, byte)
            }
            Mode::Mark(path) => self.in_mark(alloc, path, byte),
            Mode::Pattern(path, held) => self.in_pattern(alloc, path, held, byte),
            Mode::Minus(path, operator) => self.in_minus(path, operator, byte),
            Mode::Whole(path, operator, negative, size) => {
                self.in_whole(alloc, path, operator, negative, size, byte)
            }
            Mode::Angle(path, comparison) => self.in_angle(alloc, path, comparison, byte),
        }
    }

    /// Takes a byte.
    pub fn take(&mut self, alloc: Global, byte: u8) -> Result<(), Stop>
        requires number { HasSize self.old.mode }
        requires text { byte < 128 → IsUtf8 (held_by self.old.mode) }
        ensures ok { OnOk result (step 32 self.old byte ≡ Ok self.new) }
        ensures stop { IfErr result (StopsIn self.old self.old.mode byte) }
    {
        let mode = mem::replace(&mut self.mode, Mode::Start);
        self.take_at(alloc, mode, byte)
    }

    /// The condition that was read, where the text may end.
    pub fn finish(self) -> Result<Option<Disjunction>, Stop>
        requires { HasSize self.mode }
        ensures ok { IfOk result (λ tree. tree ≡ end_at self.frame self.outer self.mode) }
        ensures stop { IfErr result (λ stop. stop ≡ Stop.WantOfMemory) }
    {
        let Reader {
            frame,
            outer,
            mode,
            keeps: _,
        } = self;
        match mode {
            Mode::Complete => whole_in(frame, outer),
            Mode::Whole(path, operator, negative, size) => {
                let number = with_number(path, operator, signed(negative, size));
                let mut frame = frame;
                match frame.push(Atom::Stated(number)) {
                    Ok(()) => whole_in(frame, outer),
                    Err(_) => Err(Stop::WantOfMemory),
                }
            }
            other => {
                drop(other);
                Ok(None)
            }
        }
    }
}

// The condition in a frame that no other is around.
fn whole_in(frame: Frame, outer: FrameStack) -> Result<Option<Disjunction>, Stop>
    ensures ok { IfOk result (λ tree. tree ≡ whole_in frame outer) }
    ensures stop { IfErr result (λ stop. stop ≡ Stop.WantOfMemory) }
{
    let mut outer = outer;
    match outer.pop() {
        Some(_) => Ok(None),
        None => match frame.into_disjunction() {
            Ok(all) => Ok(Some(all)),
            Err(_) => Err(Stop::WantOfMemory),
        },
    }
}
