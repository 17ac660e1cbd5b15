//! The run of a pipeline and the judgement of a configuration: the driver, what is printed, and the top call.
#![tactic(auto)]

mod completeness;
mod driver;
mod ended;
mod hosting;
mod judging;
mod merging;
mod preparing;
mod reporting;
mod running;
mod top;
mod transforms;
mod validating;

pub use completeness::{
    blamed_notices, confirmed_ends, failed_prints, faultless_answers, faultless_confirms,
    faultless_notices, well_ended,
};
pub use ended::Ended;
pub use preparing::prepare;
pub use top::vector;
pub use validating::valid_text;
pub use vx_cli::{Fault, fault_text};
