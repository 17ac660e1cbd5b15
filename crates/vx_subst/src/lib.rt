//! The variables of a configuration text are replaced by their values.
#![tactic(auto)]

mod form;
mod replacing;
mod subst_fault;

pub use replacing::replace;
pub use subst_fault::SubstFault;
