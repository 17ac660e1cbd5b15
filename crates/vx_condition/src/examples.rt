ghost use Rattle.vx_condition.specs.Examples.{MessageText, TwoTermsText, MatchText, NullText, WholeAbove, WordsNotAbove, MissingIsNull, FilterDropsAll, RouteOnTwoPorts, RouteUnmatched, RouteDiscards, SampleWithExclude, DedupeOfTwoKeys, DedupeThatIgnores, ReduceJoinsTwoBatches, ReduceWithEndsWhen, ReduceWithStartsWhen, FirstOfTwo, DueFirst, DueNext, TooYoung, OldEnough, DueNever, SumHeld};

/// What the grammar and the meaning of conditions say of closed texts and events.
pub fn conditions()
    ensures message_text { MessageText }
    ensures two_terms_text { TwoTermsText }
    ensures match_text { MatchText }
    ensures null_text { NullText }
    ensures whole_above { WholeAbove }
    ensures words_not_above { WordsNotAbove }
    ensures missing_is_null { MissingIsNull }
{}

/// What the meanings of transforms say of closed events.
pub fn transforms()
    ensures filter_drops_all { FilterDropsAll }
    ensures route_on_two_ports { RouteOnTwoPorts }
    ensures route_unmatched { RouteUnmatched }
    ensures route_discards { RouteDiscards }
    ensures sample_with_exclude { SampleWithExclude }
    ensures dedupe_of_two_keys { DedupeOfTwoKeys }
    ensures dedupe_that_ignores { DedupeThatIgnores }
    ensures reduce_joins_two_batches { ReduceJoinsTwoBatches }
    ensures reduce_with_ends_when { ReduceWithEndsWhen }
    ensures reduce_with_starts_when { ReduceWithStartsWhen }
    ensures first_of_two { FirstOfTwo }
    ensures due_first { DueFirst }
    ensures due_next { DueNext }
    ensures too_young { TooYoung }
    ensures old_enough { OldEnough }
    ensures due_never { DueNever }
    ensures sum_held { SumHeld }
{}
