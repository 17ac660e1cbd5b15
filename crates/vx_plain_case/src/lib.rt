//! What the sink of a chain of transforms that pick writes of what the source read. A law's function does nothing: what it ensures is proved.
#![tactic(auto)]

ghost use Rattle.vx_plain_case.specs.Plain.{PlainCase, EndlessLaw};

/// In a plain run of a chain the sink's bytes are the encoding of what the transforms pass, one after the other, of the events
/// of the lines that the source read.
pub fn plain_case()
    ensures { PlainCase }
{}

/// Where no end was told of a stream alone, none of its bytes came behind such an end.
pub fn endless_streams()
    ensures { EndlessLaw }
{}
