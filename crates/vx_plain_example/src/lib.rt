//! A plain run of a chain, and transforms of chains: what the law of plain runs asks for can be had.
#![tactic(auto)]

ghost use Rattle.vx_plain_example.specs.Filtered.{IsPlainFiltered, WritesK};
ghost use Rattle.vx_plain_example.specs.Pickers.{SamplePicks, DedupePicks};

/// The run in which a filter discards one line of two is a plain run of the chain from its source through its filter to its sink; its
/// sink writes `k` and a line feed.
pub fn filtered_run()
    ensures plain { IsPlainFiltered }
    ensures bytes { WritesK }
{}

/// Samples and dedupes are transforms of a chain as filters are.
pub fn other_pickers()
    ensures sample { SamplePicks }
    ensures dedupe { DedupePicks }
{}
