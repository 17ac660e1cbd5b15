ghost use Rattle.std.specs.Prelude.{◌≡◌, IfOk, IfErr};
ghost use Rattle.vx_condition.specs.Trees.{disjunction_of};
ghost use Rattle.vx_condition.specs.Runs.{run, begun};
ghost use Rattle.vx_condition.specs.Conditions.{IsCondition};
ghost use Rattle.vx_condition.specs.Faults.{IsConditionText, IsConditionFault, IsBadPattern, IsReadFault, HasTree, HasRoom, Halts, fault_of};

use crate::condition::Condition;
use crate::condition_fault::ConditionFault;
use crate::disjunction::Disjunction;
use crate::reader::Reader;
use crate::stop::Stop;
use std::alloc::Global;
use vx_value::Text;

// The fault of a stop at a place.
fn fault_of(stop: Stop, at: usize) -> ConditionFault
    requires { HasRoom stop at }
    ensures { result ≡ fault_of stop at }
{
    match stop {
        Stop::Refused => ConditionFault::Syntax { at: at as u64 },
        Stop::Deep => ConditionFault::Deep { at: at as u64 },
        Stop::BadPattern(length) => ConditionFault::BadPattern {
            at: (at - length - 2) as u64,
        },
        Stop::WantOfMemory => ConditionFault::WantOfMemory,
    }
}

// The reader behind a text, or why it doesn't come there.
fn over(alloc: Global, text: &str, keeps: bool) -> Result<Reader, ConditionFault>
    ensures ok { IfOk result (λ reader. run 32 (begun keeps) text.now ≡ Ok reader) }
    ensures fault { IfErr result (Halts keeps text.now) }
{
    let mut reader = Reader::new(alloc, keeps);
    for (i, byte) in text.as_bytes().iter().enumerate() {
        match reader.take(alloc, *byte) {
            Ok(()) => {}
            Err(stop) => {
                drop(reader);
                return Err(fault_of(stop, i));
            }
        }
    }
    Ok(reader)
}

// The tree of a text, or its fault.
fn read(alloc: Global, text: &str, keeps: bool) -> Result<Disjunction, ConditionFault>
    ensures ok { IfOk result (λ tree. HasTree keeps text.now (disjunction_of tree)) }
    ensures fault { IfErr result (IsReadFault keeps text.now) }
{
    let reader = match over(alloc, text, keeps) {
        Ok(reader) => reader,
        Err(fault) => return Err(fault),
    };
    match reader.finish() {
        Ok(Some(tree)) => Ok(tree),
        Ok(None) => Err(ConditionFault::Syntax {
            at: text.len() as u64,
        }),
        Err(_) => Err(ConditionFault::WantOfMemory),
    }
}

// The condition of a text and its tree.
fn condition_of(alloc: Global, text: &str, tree: Disjunction) -> Result<Condition, ConditionFault>
    requires { IsCondition (disjunction_of tree) text.now }
    ensures ok { IfOk result (λ condition. condition ≡ text.now) }
    ensures fault { IfErr result (λ fault. fault ≡ ConditionFault.WantOfMemory) }
{
    match Text::copy_of(alloc, text) {
        Ok(text) => Ok(Condition::of(text, tree)),
        Err(_) => Err(ConditionFault::WantOfMemory),
    }
}

// The fault of a text with a pattern that is refused.
fn fault_with(alloc: Global, text: &str, at: u64) -> ConditionFault
    requires { IsBadPattern text.now at }
    ensures { IsConditionFault text.now result }
{
    match read(alloc, text, false) {
        Ok(_) => ConditionFault::BadPattern { at },
        Err(fault) => fault,
    }
}

/// The condition that a text is.
///
/// `Syntax` comes where the text is no condition, and tells the length of its longest prefix that begins one, in bytes.
/// `Deep` comes where, before that, a `!` or a bracket opens the 33rd level, and tells its place. `BadPattern` comes
/// where the text is a condition but for a pattern that `regex` refuses, and tells the place of its `r`. `WantOfMemory`
/// comes where no memory is found.
pub fn parse(alloc: Global, text: &str) -> Result<Condition, ConditionFault>
    ensures text { IfOk result (λ condition. condition ≡ text.now) }
    ensures ok { IfOk result (λ condition. IsConditionText text.now) }
    ensures fault { IfErr result (IsConditionFault text.now) }
{
    match read(alloc, text, true) {
        Ok(tree) => condition_of(alloc, text, tree),
        Err(ConditionFault::BadPattern { at }) => Err(fault_with(alloc, text, at)),
        Err(fault) => Err(fault),
    }
}
