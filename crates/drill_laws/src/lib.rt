//! The laws of a drill, over journals: which lines it has, that it comes to rest, that it manages nothing, that each line appends
//! and each ORB has its status, and what the blocks of unit 0 hold.
#![tactic(auto)]

mod laws;

pub use laws::{
    appends_are_told_or_refused, commands_of_drills_pass, drills_append_where_there_is_room,
    drills_are_done, drills_are_quiet, drills_come_to_rest, drills_end_at_rest, drills_end_well,
    drills_find_room, drills_find_slots, drills_get_no_session_stuck, drills_leave_few_requests,
    drills_manage_nothing, drills_refuse_for_slots_and_labels, drills_run_well,
    drills_take_what_is_rung, drills_write_their_blocks, generated_scripts_are_drills,
    lines_write_their_blocks, runs_rest_where_still, slots_are_taken_one_by_one,
    slots_hold_each_orb_once, statuses_are_those_of_appends,
};
