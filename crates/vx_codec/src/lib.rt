//! How lines become events, and events bytes.
#![tactic(auto)]

mod codec;
mod decoding;

pub use codec::Codec;
pub use decoding::Decoding;
