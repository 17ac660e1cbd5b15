use crate::finalizers::Finalizers;
use crate::short::Short;

/// A split that was not made, and the list that was to be split.
pub struct SplitRefused {
    pub cause: Short,
    pub finalizers: Finalizers,
}
