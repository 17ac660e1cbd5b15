//! Records that are legal, and records that are not.
#![tactic(auto)]

ghost use Rattle.vx_record.specs.Legal.{IsLegal, IsClosed};
ghost use Rattle.vx_examples.specs.FirstRun.{first_run};
ghost use Rattle.vx_examples.specs.EmptyInput.{run as empty_input};
ghost use Rattle.vx_examples.specs.UnfinishedLine.{run as unfinished_line};
ghost use Rattle.vx_examples.specs.FailedTake.{run as failed_take};
ghost use Rattle.vx_examples.specs.FanOut.{run as fan_out};
ghost use Rattle.vx_examples.specs.Lost.{run as lost};
ghost use Rattle.vx_examples.specs.NeverStarted.{run as never_started};
ghost use Rattle.vx_examples.specs.Dropped.{run as dropped};
ghost use Rattle.vx_examples.specs.GivenUp.{run as given_up};
ghost use Rattle.vx_examples.specs.Batched.{run as batched};
ghost use Rattle.vx_examples.specs.Waiting.{run as waiting};
ghost use Rattle.vx_examples.specs.ThreeTargets.{run as three_targets};
ghost use Rattle.vx_examples.specs.JsonLines.{run as json_lines};
ghost use Rattle.vx_examples.specs.Filtered.{run as filtered};
ghost use Rattle.vx_examples.specs.Routed.{run as routed};
ghost use Rattle.vx_examples.specs.Joined.{run as joined};
ghost use Rattle.vx_examples.specs.Retried.{run as retried};
ghost use Rattle.vx_examples.specs.Overflowing.{run as overflowing};
ghost use Rattle.vx_examples.specs.Generated.{run as generated};
ghost use Rattle.vx_examples.specs.Chained.{run as chained};
ghost use Rattle.vx_examples.specs.RefusedTransforms.{answer_unleased, answer_of_a_sink, answer_that_loses, answer_that_doubles, answer_of_another_copy, answer_in_another_order, filter_that_keeps, lease_owing_an_answer, lease_owing_a_discard, second_answer, filtered_though_passed, take_behind_an_answer, split_of_another_port, split_of_another_event, tick_of_a_filter, lease_of_an_idle_transform, retired_with_a_kept_parcel, unread_though_a_way_is_read, split_of_an_unread_port, no_such_port, lease_before_the_tick, tick_at_another_moment, second_tick, flush_too_soon, joined_in_another_order, joined_with_another_event, young_group_put_out, split_of_a_part, notice_of_another_batch, other_lines, lines_past_the_count, refused_by_a_blackhole, push_past_the_first_stage, dropped_with_room_behind, take_past_the_first_stage, answer_after_an_abandon, tick_after_an_abandon, tick_unleased, flush_with_contents, ended_with_lines_left, lines_of_another_stream, bytes_into_a_blackhole, host_that_loses, repeat_put_out, second_put_out, host_without_a_copy, host_on_no_port, host_past_the_last_port, two_ticks, ticked_host, take_behind_a_tick, keeping_host, flush_that_keeps, ended_on_another_stream, hasty_retry, restless_lease};
ghost use Rattle.vx_examples.specs.RefusedPlans.{two_of_one_name, source_that_writes, source_that_listens, sink_without_a_stage, no_source, no_sink, sink_without_an_input, input_of_nobody, filters_in_a_round};
ghost use Rattle.vx_examples.specs.RefusedJsonLines.{born_of_no_object, born_before_the_last_line, written_as_text};
ghost use Rattle.vx_examples.specs.Facts.{SourceCounts, SinkCounts, SourceBytes, SinkBytes, Positions, NewestCounts, UnreadCounts, FailedCounts, UnconfirmedCounts, RefusedCounts, UndecodableCounts, FilterCounts, RouteCounts, ReduceCounts, JoinedCounts, TwoBatchCounts, OverflowCounts, GeneratorCounts, LayersWait, LayersDontWait, RestsBehindARead, RestsBehindAnIdle, RestsBehindAFailedStart, RetryMoment, Cut, CutOpen, CutShort, Likeness, Readers, NoReaders, Waits, NoWait, RetryWaits, Replaced, EmptyRead, RetryAtTheEnd, TimeoutAtTheEnd};
ghost use Rattle.vx_examples.specs.RefusedFanOuts.{swapped_targets, copy_of_another_child, notice_before_the_third, delivered_past_a_refusal, errored_by_a_refusal};
ghost use Rattle.vx_examples.specs.RefusedMore.{born_of_nothing, born_of_too_few, confirm_unleased, confirm_of_a_sink, retired_stranger, second_notice, push_to_a_later_stage, idle_of_a_sink, lost_unleased, split_after_an_abandon, attempt_of_nothing, closed_before_its_confirm, closed_with_a_parcel, closed_with_a_held_parcel, lease_before_its_notice, lease_without_its_birth, given_up_elsewhere, closed_unleased};
ghost use Rattle.vx_examples.specs.RefusedToo.{no_install, later_version, missing_instances, polled_lease, falling_moment, lease_of_the_retired, fifth_idle, lost_too_soon, lost_at_another_byte, take_of_a_later_stage, take_after_an_attempt, early_attempt, second_attempt, attempt_of_a_part, spent_by_no_failure, filtered_by_a_sink, unread_though_read, newest_with_room, given_up_without_an_abandon, spent_after_a_split, confirmed_again, retired_with_a_copy, second_abandon, waiting_missed, confirmed_before_its_notice, confirmed_past_an_error, returned_twice, read_unleased, read_of_a_sink, born_by_another, born_of_another_stream, born_late, split_while_a_child_waits, split_on_another_port, split_to_nobody, push_while_out, take_unleased, attempt_unleased, confirmed_twice, closed_twice, retired_while_out, retired_twice, numbers_not_used_up};
ghost use Rattle.vx_examples.specs.Refused.{NeverLegal, second_install, lease_without_work, lease_of_one_out, second_read, lost_line, wrong_position, needless_wait, used_number, split_of_the_younger, split_while_out, shared_copy, child_for_another, changed_event, push_past_room, pushed_twice, take_of_the_younger, take_past_the_batch, part_answered_ok, other_bytes, delivered_after_a_failure, spent_twice, spent_elsewhere, early_notice, late_notice, wrong_status, early_confirm, confirm_of_less, lease_of_a_debtor, read_past_the_end, close_too_soon, retired_with_its_port_open, grace_without_a_stop, lease_after_an_abandon, delivered_after_an_abandon};

/// The record of a run of the first configuration on two lines is legal, and nothing is left to do in it.
pub fn first_run()
    ensures legal { IsLegal first_run }
    ensures closed { IsClosed first_run }
{}

/// Short runs of the first configuration: no input, a line without a line feed, an input that fails.
pub fn short_runs()
    ensures empty_input_legal { IsLegal empty_input }
    ensures empty_input_closed { IsClosed empty_input }
    ensures unfinished_line_legal { IsLegal unfinished_line }
    ensures unfinished_line_closed { IsClosed unfinished_line }
    ensures failed_take_legal { IsLegal failed_take }
    ensures failed_take_closed { IsClosed failed_take }
{}

/// A run that reads and writes JSON, on an object, an empty line and a line that is no object.
pub fn json_lines()
    ensures legal { IsLegal json_lines }
    ensures closed { IsClosed json_lines }
{}

/// Each of these records breaks one rule.
pub fn refused()
    ensures second_install { NeverLegal second_install }
    ensures lease_without_work { NeverLegal lease_without_work }
    ensures lease_of_one_out { NeverLegal lease_of_one_out }
    ensures second_read { NeverLegal second_read }
    ensures lost_line { NeverLegal lost_line }
    ensures wrong_position { NeverLegal wrong_position }
    ensures needless_wait { NeverLegal needless_wait }
    ensures used_number { NeverLegal used_number }
    ensures split_of_the_younger { NeverLegal split_of_the_younger }
    ensures split_while_out { NeverLegal split_while_out }
    ensures shared_copy { NeverLegal shared_copy }
    ensures child_for_another { NeverLegal child_for_another }
    ensures changed_event { NeverLegal changed_event }
    ensures push_past_room { NeverLegal push_past_room }
    ensures pushed_twice { NeverLegal pushed_twice }
    ensures take_of_the_younger { NeverLegal take_of_the_younger }
    ensures take_past_the_batch { NeverLegal take_past_the_batch }
    ensures part_answered_ok { NeverLegal part_answered_ok }
    ensures other_bytes { NeverLegal other_bytes }
    ensures delivered_after_a_failure { NeverLegal delivered_after_a_failure }
    ensures spent_twice { NeverLegal spent_twice }
    ensures spent_elsewhere { NeverLegal spent_elsewhere }
    ensures early_notice { NeverLegal early_notice }
    ensures late_notice { NeverLegal late_notice }
    ensures wrong_status { NeverLegal wrong_status }
    ensures early_confirm { NeverLegal early_confirm }
    ensures confirm_of_less { NeverLegal confirm_of_less }
    ensures lease_of_a_debtor { NeverLegal lease_of_a_debtor }
    ensures read_past_the_end { NeverLegal read_past_the_end }
    ensures close_too_soon { NeverLegal close_too_soon }
    ensures retired_with_its_port_open { NeverLegal retired_with_its_port_open }
    ensures grace_without_a_stop { NeverLegal grace_without_a_stop }
    ensures lease_after_an_abandon { NeverLegal lease_after_an_abandon }
    ensures delivered_after_an_abandon { NeverLegal delivered_after_an_abandon }
{}

/// Other runs that are legal, and in which nothing is left to do.
pub fn other_runs()
    ensures fan_out_legal { IsLegal fan_out }
    ensures fan_out_closed { IsClosed fan_out }
    ensures lost_legal { IsLegal lost }
    ensures lost_closed { IsClosed lost }
    ensures never_started_legal { IsLegal never_started }
    ensures never_started_closed { IsClosed never_started }
    ensures dropped_legal { IsLegal dropped }
    ensures dropped_closed { IsClosed dropped }
    ensures given_up_legal { IsLegal given_up }
    ensures given_up_closed { IsClosed given_up }
    ensures batched_legal { IsLegal batched }
    ensures batched_closed { IsClosed batched }
    ensures waiting_legal { IsLegal waiting }
    ensures waiting_closed { IsClosed waiting }
    ensures three_targets_legal { IsLegal three_targets }
    ensures three_targets_closed { IsClosed three_targets }
{}

/// What the definitions say of closed things.
pub fn facts()
    ensures source_counts { SourceCounts }
    ensures sink_counts { SinkCounts }
    ensures source_bytes { SourceBytes }
    ensures sink_bytes { SinkBytes }
    ensures positions { Positions }
    ensures newest_counts { NewestCounts }
    ensures unread_counts { UnreadCounts }
    ensures failed_counts { FailedCounts }
    ensures unconfirmed_counts { UnconfirmedCounts }
    ensures refused_counts { RefusedCounts }
    ensures undecodable_counts { UndecodableCounts }
    ensures filter_counts { FilterCounts }
    ensures route_counts { RouteCounts }
    ensures reduce_counts { ReduceCounts }
    ensures joined_counts { JoinedCounts }
    ensures two_batch_counts { TwoBatchCounts }
    ensures overflow_counts { OverflowCounts }
    ensures generator_counts { GeneratorCounts }
    ensures layers_wait { LayersWait }
    ensures layers_do_not_wait { LayersDontWait }
    ensures cut { Cut }
    ensures cut_open { CutOpen }
    ensures cut_short { CutShort }
    ensures likeness { Likeness }
    ensures readers { Readers }
    ensures no_readers { NoReaders }
    ensures waits { Waits }
    ensures no_wait { NoWait }
    ensures retry_waits { RetryWaits }
    ensures rests_behind_a_read { RestsBehindARead }
    ensures rests_behind_an_idle { RestsBehindAnIdle }
    ensures rests_behind_a_failed_start { RestsBehindAFailedStart }
    ensures retry_moment { RetryMoment }
    ensures replaced { Replaced }
    ensures empty_read { EmptyRead }
    ensures retry_at_the_end { RetryAtTheEnd }
    ensures timeout_at_the_end { TimeoutAtTheEnd }
{}

/// And each of these another one.
pub fn refused_too()
    ensures no_install { NeverLegal no_install }
    ensures later_version { NeverLegal later_version }
    ensures missing_instances { NeverLegal missing_instances }
    ensures polled_lease { NeverLegal polled_lease }
    ensures falling_moment { NeverLegal falling_moment }
    ensures lease_of_the_retired { NeverLegal lease_of_the_retired }
    ensures fifth_idle { NeverLegal fifth_idle }
    ensures lost_too_soon { NeverLegal lost_too_soon }
    ensures lost_at_another_byte { NeverLegal lost_at_another_byte }
    ensures take_of_a_later_stage { NeverLegal take_of_a_later_stage }
    ensures take_after_an_attempt { NeverLegal take_after_an_attempt }
    ensures early_attempt { NeverLegal early_attempt }
    ensures second_attempt { NeverLegal second_attempt }
    ensures attempt_of_a_part { NeverLegal attempt_of_a_part }
    ensures spent_by_no_failure { NeverLegal spent_by_no_failure }
    ensures filtered_by_a_sink { NeverLegal filtered_by_a_sink }
    ensures unread_though_read { NeverLegal unread_though_read }
    ensures newest_with_room { NeverLegal newest_with_room }
    ensures given_up_without_an_abandon { NeverLegal given_up_without_an_abandon }
    ensures spent_after_a_split { NeverLegal spent_after_a_split }
    ensures confirmed_again { NeverLegal confirmed_again }
    ensures retired_with_a_copy { NeverLegal retired_with_a_copy }
    ensures second_abandon { NeverLegal second_abandon }
    ensures waiting_missed { NeverLegal waiting_missed }
    ensures confirmed_before_its_notice { NeverLegal confirmed_before_its_notice }
    ensures confirmed_past_an_error { NeverLegal confirmed_past_an_error }
    ensures returned_twice { NeverLegal returned_twice }
    ensures read_unleased { NeverLegal read_unleased }
    ensures read_of_a_sink { NeverLegal read_of_a_sink }
    ensures born_by_another { NeverLegal born_by_another }
    ensures born_of_another_stream { NeverLegal born_of_another_stream }
    ensures born_late { NeverLegal born_late }
    ensures split_while_a_child_waits { NeverLegal split_while_a_child_waits }
    ensures split_on_another_port { NeverLegal split_on_another_port }
    ensures split_to_nobody { NeverLegal split_to_nobody }
    ensures push_while_out { NeverLegal push_while_out }
    ensures take_unleased { NeverLegal take_unleased }
    ensures attempt_unleased { NeverLegal attempt_unleased }
    ensures confirmed_twice { NeverLegal confirmed_twice }
    ensures closed_twice { NeverLegal closed_twice }
    ensures retired_while_out { NeverLegal retired_while_out }
    ensures retired_twice { NeverLegal retired_twice }
    ensures numbers_not_used_up { NeverLegal numbers_not_used_up }
{}

/// And these, each for a rule of its own.
pub fn more_refused()
    ensures born_of_nothing { NeverLegal born_of_nothing }
    ensures born_of_too_few { NeverLegal born_of_too_few }
    ensures confirm_unleased { NeverLegal confirm_unleased }
    ensures confirm_of_a_sink { NeverLegal confirm_of_a_sink }
    ensures retired_stranger { NeverLegal retired_stranger }
    ensures second_notice { NeverLegal second_notice }
    ensures push_to_a_later_stage { NeverLegal push_to_a_later_stage }
    ensures idle_of_a_sink { NeverLegal idle_of_a_sink }
    ensures lost_unleased { NeverLegal lost_unleased }
    ensures split_after_an_abandon { NeverLegal split_after_an_abandon }
    ensures attempt_of_nothing { NeverLegal attempt_of_nothing }
    ensures closed_before_its_confirm { NeverLegal closed_before_its_confirm }
    ensures closed_with_a_parcel { NeverLegal closed_with_a_parcel }
    ensures closed_with_a_held_parcel { NeverLegal closed_with_a_held_parcel }
    ensures lease_before_its_notice { NeverLegal lease_before_its_notice }
    ensures lease_without_its_birth { NeverLegal lease_without_its_birth }
    ensures given_up_elsewhere { NeverLegal given_up_elsewhere }
    ensures closed_unleased { NeverLegal closed_unleased }
{}

/// And these, each of which differs from the run with three targets in one entry.
pub fn refused_fan_outs()
    ensures swapped_targets { NeverLegal swapped_targets }
    ensures copy_of_another_child { NeverLegal copy_of_another_child }
    ensures notice_before_the_third { NeverLegal notice_before_the_third }
    ensures delivered_past_a_refusal { NeverLegal delivered_past_a_refusal }
    ensures errored_by_a_refusal { NeverLegal errored_by_a_refusal }
{}

/// And these, each of which differs from the run on JSON lines in one entry.
pub fn refused_json_lines()
    ensures born_of_no_object { NeverLegal born_of_no_object }
    ensures born_before_the_last_line { NeverLegal born_before_the_last_line }
    ensures written_as_text { NeverLegal written_as_text }
{}

/// And these, each of which begins with a plan that may not be installed.
pub fn refused_plans()
    ensures two_of_one_name { NeverLegal two_of_one_name }
    ensures source_that_writes { NeverLegal source_that_writes }
    ensures source_that_listens { NeverLegal source_that_listens }
    ensures sink_without_a_stage { NeverLegal sink_without_a_stage }
    ensures no_source { NeverLegal no_source }
    ensures no_sink { NeverLegal no_sink }
    ensures sink_without_an_input { NeverLegal sink_without_an_input }
    ensures input_of_nobody { NeverLegal input_of_nobody }
    ensures filters_in_a_round { NeverLegal filters_in_a_round }
{}

/// Runs with transforms, with a buffer of two stages, with a retry, and with generated lines.
pub fn transforming_runs()
    ensures filtered_legal { IsLegal filtered }
    ensures filtered_closed { IsClosed filtered }
    ensures routed_legal { IsLegal routed }
    ensures routed_closed { IsClosed routed }
    ensures joined_legal { IsLegal joined }
    ensures joined_closed { IsClosed joined }
    ensures retried_legal { IsLegal retried }
    ensures retried_closed { IsClosed retried }
    ensures overflowing_legal { IsLegal overflowing }
    ensures overflowing_closed { IsClosed overflowing }
    ensures generated_legal { IsLegal generated }
    ensures generated_closed { IsClosed generated }
    ensures chained_legal { IsLegal chained }
    ensures chained_closed { IsClosed chained }
{}

/// And records each of which differs from one of these runs in one entry.
pub fn refused_transforms()
    ensures answer_unleased { NeverLegal answer_unleased }
    ensures answer_of_a_sink { NeverLegal answer_of_a_sink }
    ensures answer_that_loses { NeverLegal answer_that_loses }
    ensures answer_that_doubles { NeverLegal answer_that_doubles }
    ensures answer_of_another_copy { NeverLegal answer_of_another_copy }
    ensures answer_in_another_order { NeverLegal answer_in_another_order }
    ensures filter_that_keeps { NeverLegal filter_that_keeps }
    ensures lease_owing_an_answer { NeverLegal lease_owing_an_answer }
    ensures lease_owing_a_discard { NeverLegal lease_owing_a_discard }
    ensures second_answer { NeverLegal second_answer }
    ensures filtered_though_passed { NeverLegal filtered_though_passed }
    ensures take_behind_an_answer { NeverLegal take_behind_an_answer }
    ensures split_of_another_port { NeverLegal split_of_another_port }
    ensures split_of_another_event { NeverLegal split_of_another_event }
    ensures tick_of_a_filter { NeverLegal tick_of_a_filter }
    ensures lease_of_an_idle_transform { NeverLegal lease_of_an_idle_transform }
    ensures retired_with_a_kept_parcel { NeverLegal retired_with_a_kept_parcel }
    ensures unread_though_a_way_is_read { NeverLegal unread_though_a_way_is_read }
    ensures split_of_an_unread_port { NeverLegal split_of_an_unread_port }
    ensures no_such_port { NeverLegal no_such_port }
    ensures lease_before_the_tick { NeverLegal lease_before_the_tick }
    ensures tick_at_another_moment { NeverLegal tick_at_another_moment }
    ensures second_tick { NeverLegal second_tick }
    ensures flush_too_soon { NeverLegal flush_too_soon }
    ensures joined_in_another_order { NeverLegal joined_in_another_order }
    ensures joined_with_another_event { NeverLegal joined_with_another_event }
    ensures young_group_put_out { NeverLegal young_group_put_out }
    ensures split_of_a_part { NeverLegal split_of_a_part }
    ensures notice_of_another_batch { NeverLegal notice_of_another_batch }
    ensures other_lines { NeverLegal other_lines }
    ensures lines_past_the_count { NeverLegal lines_past_the_count }
    ensures refused_by_a_blackhole { NeverLegal refused_by_a_blackhole }
    ensures push_past_the_first_stage { NeverLegal push_past_the_first_stage }
    ensures dropped_with_room_behind { NeverLegal dropped_with_room_behind }
    ensures take_past_the_first_stage { NeverLegal take_past_the_first_stage }
    ensures answer_after_an_abandon { NeverLegal answer_after_an_abandon }
    ensures tick_after_an_abandon { NeverLegal tick_after_an_abandon }
    ensures tick_unleased { NeverLegal tick_unleased }
    ensures flush_with_contents { NeverLegal flush_with_contents }
    ensures ended_with_lines_left { NeverLegal ended_with_lines_left }
    ensures lines_of_another_stream { NeverLegal lines_of_another_stream }
    ensures bytes_into_a_blackhole { NeverLegal bytes_into_a_blackhole }
    ensures host_that_loses { NeverLegal host_that_loses }
    ensures repeat_put_out { NeverLegal repeat_put_out }
    ensures second_put_out { NeverLegal second_put_out }
    ensures host_without_a_copy { NeverLegal host_without_a_copy }
    ensures host_on_no_port { NeverLegal host_on_no_port }
    ensures host_past_the_last_port { NeverLegal host_past_the_last_port }
    ensures two_ticks { NeverLegal two_ticks }
    ensures take_behind_a_tick { NeverLegal take_behind_a_tick }
    ensures flush_that_keeps { NeverLegal flush_that_keeps }
    ensures ended_on_another_stream { NeverLegal ended_on_another_stream }
    ensures hasty_retry { NeverLegal hasty_retry }
    ensures restless_lease { NeverLegal restless_lease }
{}

/// What stands before the refused entry is legal where that is no part of one of the runs.
pub fn before_the_refused()
    ensures ticked_host { IsLegal ticked_host }
    ensures keeping_host { IsLegal keeping_host }
{}
