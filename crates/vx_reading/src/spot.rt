use crate::owner::Owner;

/// Where the options of a table stand: to whom their faults belong, and what leads to them.
#[derive(Clone, Copy)]
pub(crate) struct Spot<'a> {
    pub owner: Owner<'a>,
    pub lead: &'a str,
}
