//! What the clauses of `vector` come to in a plain run of a chain. A law's function does nothing but name other laws: what it ensures is
//! proved.
#![tactic(auto)]

ghost use Rattle.vx_ends.specs.Silent.{observed_if};
ghost use Rattle.vx_plain_vector.specs.PlainRuns.{PlainRecord, PlainBytes};

use vx_cli::one_command;
use vx_ends::Port;
use vx_reading::one_answer;

/// Let the plan in force have a chain, and let the run have ended well. Where its source took bytes of one stream, and its sink failed
/// and refused nothing, the record has the sink given the encoding of what the transforms pass, one after the other, of the events of
/// the lines that the source took.
pub fn plain_record()
    ensures { PlainRecord }
{}

/// Let the words ask for a run of a file whose text the world tells, and that stands for a plan with a chain from a source with a
/// port. Where the run ended well, what the port of the chain's sink was given, if it tells that, is the encoding of what the
/// transforms pass, one after the other, of the events of the lines of the bytes that the source's port tells, if these were of one
/// stream that didn't end by itself, and if the sink's port failed and refused nothing.
pub fn plain_bytes<P: Port>()
    ensures { PlainBytes (observed_if P.observed) }
{
    one_command();
    one_answer();
}
