ghost use Rattle.std.specs.Prelude.{◌≡◌, ◌<◌, [], cond, nat_lt, IfOk, IfErr, OnOk};
ghost use Rattle.std.specs.Str.{IsUtf8};

use crate::call::Call;
use crate::expected::Expected;
use crate::fixed_word::FixedWord;
use crate::frame::Frame;
use crate::frame_stack::FrameStack;
use crate::mode::{Behind, Mode, PathUse};
use crate::openings::{argument_mode, is_blank, literal_mode, operand_mode, operator_mode};
use crate::predicate::Predicate;
use crate::stop::Stop;
use crate::term::Atom;
use std::alloc::Global;
use std::mem;
use vx_value::{ItemList, PathMode, Text};

/// A reader in the midst of a condition.
#[derive(Drop)]
pub struct Reader {
    /// What was read inside the innermost brackets.
    pub frame: Frame,
    /// What was read around them.
    pub outer: FrameStack,
    /// Where it stands.
    pub mode: Mode,
    /// Whether patterns are kept; else a `contains` stands for each `match`.
    pub keeps: bool,
}

// The text of bytes that are one.
pub(crate) fn text_of(alloc: Global, held: ItemList<u8>) -> Result<Text, Stop>
    requires { IsUtf8 held }
    ensures ok { IfOk result (λ text. text ≡ held) }
    ensures err { IfErr result (λ stop. stop ≡ Stop.WantOfMemory) }
{
    match String::from_utf8(held.into_vec()) {
        Ok(text) => match Text::copy_of(alloc, text.as_str()) {
            Ok(text) => Ok(text),
            Err(_) => Err(Stop::WantOfMemory),
        },
        Err(_) => unreachable!(),
    }
}

impl Reader {
    ghost use Rattle.vx_condition.specs.Moves.{at, at_some, stated, operand, joint, closed, expected, behind_blanks, behind_operand, levels_in, Stops};

    /// A reader before everything.
    pub fn new(alloc: Global, keeps: bool) -> Self
        ensures { result
            ≡ record {
              frame = record { base = 0; branches = []; terms = []; negations = 0 };
              outer = [];
              mode = Mode.Start;
              keeps = keeps;
            } }
    {
        Reader {
            frame: Frame::new(alloc, 0),
            outer: FrameStack::new(alloc),
            mode: Mode::Start,
            keeps,
        }
    }

    // Goes to a place. The place before it is dropped here and nowhere else.
    pub(crate) fn stand(&mut self, mode: Mode)
        ensures { self.new ≡ at self.old mode }
    {
        drop(mem::replace(&mut self.mode, mode));
    }

    // Goes to a place, if there is one.
    pub(crate) fn go(&mut self, mode: Option<Mode>) -> Result<(), Stop>
        ensures ok { OnOk result (at_some self.old mode ≡ Ok self.new) }
        ensures stop { IfErr result (Stops (at_some self.old mode)) }
    {
        match mode {
            Some(mode) => {
                self.stand(mode);
                Ok(())
            }
            None => Err(Stop::Refused),
        }
    }

    // Goes on with what is expected, where a byte is the one that is wanted.
    fn pass(&mut self, wanted: bool, next: Expected) -> Result<(), Stop>
        ensures ok { OnOk result
            (cond wanted (Ok (at self.old (Mode.Expects next))) (Err Stop.Refused) ≡ Ok self.new) }
        ensures stop { IfErr result
            (Stops (cond wanted (Ok (at self.old (Mode.Expects next))) (Err Stop.Refused))) }
    {
        if wanted {
            self.stand(Mode::Expects(next));
            Ok(())
        } else {
            drop(next);
            Err(Stop::Refused)
        }
    }

    // Adds a predicate.
    pub(crate) fn state(&mut self, predicate: Predicate) -> Result<(), Stop>
        ensures ok { OnOk result (self.new ≡ stated self.old predicate) }
        ensures stop { IfErr result (λ stop. stop ≡ Stop.WantOfMemory) }
    {
        match self.frame.push(Atom::Stated(predicate)) {
            Ok(()) => {}
            Err(_) => return Err(Stop::WantOfMemory),
        }
        self.stand(Mode::Complete);
        Ok(())
    }

    // Whether one level more may be opened.
    fn may_open(&self) -> bool
        ensures { result ≡ nat_lt (levels_in self.now.frame) 32 }
    {
        u64::from(self.frame.base) + u64::from(self.frame.negations) < 32
    }

    // Opens the level of a `!`.
    fn negate(&mut self) -> Result<(), Stop>
        ensures ok { OnOk result (operand 32 self.old 33 ≡ Ok self.new) }
        ensures stop { IfErr result (Stops (operand 32 self.old 33)) }
    {
        if !self.may_open() {
            return Err(Stop::Deep);
        }
        self.frame.negations += 1;
        self.stand(Mode::Expects(Expected::Operand));
        Ok(())
    }

    // Opens the level of a bracket.
    fn open(&mut self, alloc: Global) -> Result<(), Stop>
        ensures ok { OnOk result (operand 32 self.old 40 ≡ Ok self.new) }
        ensures stop { IfErr result (Stops (operand 32 self.old 40)) }
    {
        if !self.may_open() {
            return Err(Stop::Deep);
        }
        let base = self.frame.base + self.frame.negations + 1;
        let frame = mem::replace(&mut self.frame, Frame::new(alloc, base));
        match self.outer.push(frame) {
            Ok(()) => {}
            Err(_) => return Err(Stop::WantOfMemory),
        }
        self.stand(Mode::Expects(Expected::Operand));
        Ok(())
    }

    // Takes a byte where a term is expected.
    pub(crate) fn operand(&mut self, alloc: Global, byte: u8) -> Result<(), Stop>
        ensures ok { OnOk result (operand 32 self.old byte ≡ Ok self.new) }
        ensures stop { IfErr result (Stops (operand 32 self.old byte)) }
    {
        if byte == b'!' {
            self.negate()
        } else if byte == b'(' {
            self.open(alloc)
        } else {
            self.go(operand_mode(alloc, byte))
        }
    }

    // Closes the innermost bracket.
    fn close(&mut self) -> Result<(), Stop>
        ensures ok { OnOk result (closed self.old self.old.outer ≡ Ok self.new) }
        ensures stop { IfErr result (Stops (closed self.old self.old.outer)) }
    {
        match self.outer.pop() {
            Some(around) => {
                let inside = mem::replace(&mut self.frame, around);
                let inside = match inside.into_disjunction() {
                    Ok(inside) => inside,
                    Err(_) => return Err(Stop::WantOfMemory),
                };
                match self.frame.push(Atom::Bracketed(inside)) {
                    Ok(()) => {}
                    Err(_) => return Err(Stop::WantOfMemory),
                }
                self.stand(Mode::Complete);
                Ok(())
            }
            None => Err(Stop::Refused),
        }
    }

    // Ends a branch before `||`.
    fn end_branch(&mut self, alloc: Global) -> Result<(), Stop>
        ensures ok { OnOk result (joint self.old 124 ≡ Ok self.new) }
        ensures stop { IfErr result (λ stop. stop ≡ Stop.WantOfMemory) }
    {
        match self.frame.end_branch(alloc) {
            Ok(()) => {}
            Err(_) => return Err(Stop::WantOfMemory),
        }
        self.stand(Mode::Word(FixedWord::Or, 1, Behind::Wants(Expected::Operand)));
        Ok(())
    }

    // Takes a byte where an operand may be joined to another.
    fn joint(&mut self, alloc: Global, byte: u8) -> Result<(), Stop>
        ensures ok { OnOk result (joint self.old byte ≡ Ok self.new) }
        ensures stop { IfErr result (Stops (joint self.old byte)) }
    {
        if byte == b'&' {
            self.stand(Mode::Word(FixedWord::And, 1, Behind::Wants(Expected::Operand)));
            Ok(())
        } else if byte == b'|' {
            self.end_branch(alloc)
        } else if byte == b')' {
            self.close()
        } else {
            Err(Stop::Refused)
        }
    }

    // Takes a byte directly behind an operand.
    pub(crate) fn behind_operand(&mut self, alloc: Global, byte: u8) -> Result<(), Stop>
        ensures ok { OnOk result (behind_operand self.old byte ≡ Ok self.new) }
        ensures stop { IfErr result (Stops (behind_operand self.old byte)) }
    {
        if is_blank(byte) {
            self.stand(Mode::Expects(Expected::Joint));
            Ok(())
        } else {
            self.joint(alloc, byte)
        }
    }

    // Takes a byte where the bracket of a call is expected, or a `!` before it.
    fn open_call(&mut self, call: Call, byte: u8) -> Result<(), Stop>
        ensures ok { OnOk result (expected 32 self.old (Expected.Open call) byte ≡ Ok self.new) }
        ensures stop { IfErr result (Stops (expected 32 self.old (Expected.Open call) byte)) }
    {
        if byte == b'(' {
            self.stand(Mode::Expects(Expected::Path(call)));
            Ok(())
        } else {
            let marked = byte == b'!' && matches!(call, Call::Has(_));
            self.pass(marked, Expected::Bracket(call))
        }
    }

    // Takes a byte where the path of a call is expected.
    fn begin_path(&mut self, alloc: Global, call: Call, byte: u8) -> Result<(), Stop>
        ensures ok { OnOk result (expected 32 self.old (Expected.Path call) byte ≡ Ok self.new) }
        ensures stop { IfErr result (Stops (expected 32 self.old (Expected.Path call) byte)) }
    {
        if byte == b'.' {
            let name = ItemList::new(alloc);
            let names = ItemList::new(alloc);
            self.stand(Mode::Path(PathUse::Called(call), PathMode::Name, name, names));
            Ok(())
        } else {
            Err(Stop::Refused)
        }
    }

    // Takes a byte where the closing bracket of a call is expected.
    fn close_call(&mut self, predicate: Predicate, byte: u8) -> Result<(), Stop>
        ensures ok { OnOk result
            (expected 32 self.old (Expected.Close predicate) byte ≡ Ok self.new) }
        ensures stop { IfErr result (Stops (expected 32 self.old (Expected.Close predicate) byte)) }
    {
        if byte == b')' {
            self.state(predicate)
        } else {
            drop(predicate);
            Err(Stop::Refused)
        }
    }

    // Takes a byte where something is expected.
    fn expected(&mut self, alloc: Global, wanted: Expected, byte: u8) -> Result<(), Stop>
        ensures ok { OnOk result (expected 32 self.old wanted byte ≡ Ok self.new) }
        ensures stop { IfErr result (Stops (expected 32 self.old wanted byte)) }
    {
        match wanted {
            Expected::Operand => self.operand(alloc, byte),
            Expected::Operator(path) => self.go(operator_mode(path, byte)),
            Expected::Literal(path, operator) => {
                self.go(literal_mode(alloc, path, operator, byte))
            }
            Expected::Open(call) => self.open_call(call, byte),
            Expected::Bracket(call) => self.pass(byte == b'(', Expected::Path(call)),
            Expected::Path(call) => self.begin_path(alloc, call, byte),
            Expected::Comma(search, path) => {
                self.pass(byte == b',', Expected::Argument(search, path))
            }
            Expected::Argument(search, path) => {
                self.go(argument_mode(alloc, search, path, byte))
            }
            Expected::Close(predicate) => self.close_call(predicate, byte),
            Expected::Joint => self.joint(alloc, byte),
        }
    }

    // Takes a byte where something is expected, behind any blanks.
    pub(crate) fn behind_blanks(
        &mut self,
        alloc: Global,
        next: Expected,
        byte: u8,
    ) -> Result<(), Stop>
        ensures ok { OnOk result (behind_blanks 32 self.old next byte ≡ Ok self.new) }
        ensures stop { IfErr result (Stops (behind_blanks 32 self.old next byte)) }
    {
        if is_blank(byte) {
            self.stand(Mode::Expects(next));
            Ok(())
        } else {
            self.expected(alloc, next, byte)
        }
    }
}
