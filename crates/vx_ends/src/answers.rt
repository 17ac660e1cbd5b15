ghost use Rattle.std.specs.Prelude.{◌≡◌, ℕ, ◌<◌, ◌++◌, List, length, OnOk, OnErr, min, max};
ghost use Rattle.vx_ends.specs.Acts.{plain_answer, finish_answer, give_answer, AnswersOrWants, is_failed, is_refused, is_idle, raised};
ghost use Rattle.vx_ends.specs.Observation.{part_of, over_after};

use crate::act::Act;
use crate::port::Took;
use crate::position::PositionList;
use crate::trouble::Trouble;
use std::alloc::Global;
use std::mem;
use vx_value::Bytes;

// Whether an answer is that of a device that failed.
pub fn has_failed<T: Drop>(answer: &Result<T, Trouble>) -> bool
    ensures { result ≡ is_failed answer.now }
{
    match answer {
        Err(Trouble::Failed) => true,
        Ok(_) | Err(Trouble::Refused) | Err(Trouble::WantOfMemory) => false,
    }
}

// Whether an answer is a refusal.
pub fn has_refused<T: Drop>(answer: &Result<T, Trouble>) -> bool
    ensures { result ≡ is_refused answer.now }
{
    match answer {
        Err(Trouble::Refused) => true,
        Ok(_) | Err(Trouble::Failed) | Err(Trouble::WantOfMemory) => false,
    }
}

// Whether there was nothing to take.
pub fn has_nothing(answer: &Result<Took, Trouble>) -> bool
    ensures { result ≡ is_idle answer.now }
{
    match answer {
        Ok(Took::Idle) => true,
        Ok(_) | Err(_) => false,
    }
}

// Whether the end of all was told, by an answer or before it.
pub fn has_ended_all(was: bool, answer: &Result<Took, Trouble>) -> bool
    ensures { result ≡ over_after was answer.now }
{
    match answer {
        Ok(Took::AllEnded) => true,
        Ok(_) | Err(_) => was,
    }
}

// A count, one higher where something happened.
pub fn count_if(count: u64, happened: bool) -> u64
    ensures { result ≡ raised count happened }
{
    if happened {
        count.saturating_add(1)
    } else {
        count
    }
}

// The answer of a start or a confirm by its act.
pub fn answer_plainly(act: Act) -> Result<(), Trouble>
    ensures { result ≡ plain_answer act }
{
    match act {
        Act::Pass | Act::Part(_) | Act::Refuse => Ok(()),
        Act::Fail => Err(Trouble::Failed),
    }
}

// The answer of a finish by its act.
pub fn answer_finish(act: Act) -> Result<(), Trouble>
    ensures { result ≡ finish_answer act }
{
    match act {
        Act::Pass | Act::Part(_) => Ok(()),
        Act::Fail => Err(Trouble::Failed),
        Act::Refuse => Err(Trouble::Refused),
    }
}

// Gives bytes by an act, and keeps those that were given.
pub fn give_by(act: Act, bytes: &[u8], given: &mut Bytes) -> Result<u32, Trouble>
    requires { 0 < length bytes.now }
    ensures answer { AnswersOrWants result (give_answer act bytes.now) }
    ensures given { given.new ≡ given.old ++ part_of result bytes.now }
{
    let most = match act {
        Act::Pass => u32::MAX,
        Act::Part(most) => most.max(1),
        Act::Fail => return Err(Trouble::Failed),
        Act::Refuse => return Err(Trouble::Refused),
    };
    let n = bytes.len().min(most as usize);
    match given.push_slice(&bytes[..n]) {
        Ok(()) => Ok(n as u32),
        Err(_) => Err(Trouble::WantOfMemory),
    }
}

// Confirms positions by an act, and keeps them where it passes.
pub fn confirm_by(
    alloc: Global,
    act: Act,
    positions: &PositionList,
    confirmed: &mut PositionList,
) -> Result<(), Trouble>
    ensures answer { AnswersOrWants result (plain_answer act) }
    ensures ok { OnOk result (confirmed.new ≡ confirmed.old ++ positions.now) }
    ensures err { OnErr result (confirmed.new ≡ confirmed.old) }
{
    answer_plainly(act)?;
    let kept = mem::replace(confirmed, PositionList::new(alloc));
    let mut all = kept.into_vec();
    let grown = all.extend_from_slice(positions.as_slice());
    *confirmed = PositionList::from_vec(all);
    match grown {
        Ok(()) => Ok(()),
        Err(_) => Err(Trouble::WantOfMemory),
    }
}
