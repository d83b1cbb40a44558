//! Laws of turns of every run of the machine, over one pass.
#![tactic(auto)]

mod laws;

pub use laws::{
    aborts_are_of_owners, aborts_end_what_they_named, actions_are_done_or_refused,
    actions_are_lawful, agents_die_once, commands_end_as_read, deaths_have_rows,
    decisions_are_sent_where_due, decisions_stand_as_told, discs_are_announced_where_due,
    ends_are_heard, failures_have_rows, faults_follow_deaths, illegal_orbs_have_codes,
    initiators_are_told_by_the_row, judgements_are_lawful, lists_are_cut_where_due,
    logins_are_lawful, operations_fail_where_due, orbs_abort_where_due, orbs_end_where_due,
    packets_are_lawful, requests_are_answered_by_the_tables, requests_are_asked_for,
    requests_are_sent_where_due, rom_operations_wait_for_a_read, runs_are_lawful,
    statuses_and_resets_end_operations, statuses_are_sent_where_due, turns_are_in_order,
    units_are_cleared_where_due, unsolicited_statuses_are_told, unsolicited_statuses_go_alone,
    unsolicited_statuses_stand_where_due, untold_chunks_find_no_label,
    what_is_active_waits_for_a_request, what_is_told_was_sent_so,
    what_runs_is_under_way_behind_turns,
};
