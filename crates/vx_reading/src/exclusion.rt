use crate::place::Place;

/// Two options of a type that exclude each other. Where both are given, what is wrong is the later one, by the bytes of their paths.
#[derive(Clone, Copy)]
pub(crate) struct Exclusion {
    pub earlier: Place<'static>,
    pub later: Place<'static>,
}
