use crate::finalizers::Finalizers;

/// A merge for which no memory was found, and both lists as they were.
pub struct MergeRefused {
    pub first: Finalizers,
    pub second: Finalizers,
}
