use vx_ends::PositionList;

/// Where a source's batches end with one more, three times: to go on from, to be confirmed, and to be remembered as
/// what was asked for.
#[derive(Drop)]
pub struct Ends {
    pub kept: PositionList,
    pub positions: PositionList,
    pub copy: PositionList,
}
