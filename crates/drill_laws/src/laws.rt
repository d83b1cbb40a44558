//! The laws of a drill.
ghost use Rattle.drill_laws.specs.DrillApart.{SlotsApart};
ghost use Rattle.drill_laws.specs.DrillAppends.{AppendsAreTold};
ghost use Rattle.drill_laws.specs.DrillBlocks.{DrillsWriteBlocks};
ghost use Rattle.drill_laws.specs.DrillCalm.{DrillsAreCalm};
ghost use Rattle.drill_laws.specs.DrillDisk.{CommandsPass};
ghost use Rattle.drill_laws.specs.DrillFew.{DrillsLeaveFew};
ghost use Rattle.drill_laws.specs.DrillDone.{DrillsAreDone};
ghost use Rattle.drill_laws.specs.DrillGood.{DrillsAreGood};
ghost use Rattle.drill_laws.specs.DrillQuiet.{DrillsAreQuiet};
ghost use Rattle.drill_laws.specs.DrillRan.{DrillsRunWell};
ghost use Rattle.drill_laws.specs.DrillRefused.{DrillsAppendAll, DrillsRefuseLittle};
ghost use Rattle.drill_laws.specs.DrillRoom.{DrillsHaveRoom, DrillsHaveSlots, RunsRest};
ghost use Rattle.drill_laws.specs.DrillRuns.{DrillsEnd};
ghost use Rattle.drill_laws.specs.DrillScripts.{ScriptsAreDrills};
ghost use Rattle.drill_laws.specs.DrillSettles.{DrillsSettle};
ghost use Rattle.drill_laws.specs.DrillSlots.{SlotsLaw};
ghost use Rattle.drill_laws.specs.DrillStuck.{DrillsStayUnstuck};
ghost use Rattle.drill_laws.specs.DrillTaken.{DrillsTakeAll};
ghost use Rattle.drill_laws.specs.DrillTakings.{TakingsLaw};
ghost use Rattle.drill_laws.specs.DrillWrites.{LinesWriteBlocks};

/// Behind its first line each line of the generated script appends a READ or a WRITE of one of the first 64
/// blocks, for one of two initiators, or settles. As many lines append as were asked for, and the last
/// one settles.
#[tactic(auto, using(crate::proofs::DrillScripts::scripts_are_drills))]
pub fn generated_scripts_are_drills()
    ensures { ScriptsAreDrills }
{}

/// Each line of a drill that appends has one `append` note, or is refused, and no other line has either: so
/// these notes and those of refused lines are together as many as the lines that append.
#[tactic(auto, using(crate::proofs::DrillCounts::appended_or_refused))]
pub fn appends_are_told_or_refused()
    ensures { AppendsAreTold }
{}

/// In a drill nothing is lost, nobody injects, no packet is ignored for its generation, and the bus stays in
/// its first one.
#[tactic(auto, using(crate::proofs::DrillWire::drills_are_quiet))]
pub fn drills_are_quiet()
    ensures { DrillsAreQuiet }
{}

/// In a drill of up to 10,000 lines that append each settle is `settled`, and behind it nothing is in flight.
#[tactic(auto, using(crate::proofs::DrillSettles::drills_settle))]
pub fn drills_come_to_rest()
    ensures { DrillsSettle }
{}

/// In a drill no list is cut or dropped, no operation begins or ends, no login comes or goes, no unit is
/// cleared, and the management agent decides nothing and fails nothing: the target gets no write from an
/// initiator but of ORB_POINTER and of DOORBELL.
#[tactic(auto, using(crate::proofs::DrillCalm::drills_are_calm))]
pub fn drills_manage_nothing()
    ensures { DrillsAreCalm }
{}

/// Where nobody injected packets, as many ORBs were appended as statuses were taken and as ORBs still wait
/// for theirs. So where each ORB has its status there are as many `taken` as `append` notes.
#[tactic(auto, using(crate::proofs::DrillTakings::takings_law))]
pub fn statuses_are_those_of_appends()
    ensures { TakingsLaw }
{}

/// In a drill each ORB that was appended is rung, and is of a list that was begun since the run began and was
/// not cut. So where each such rung ORB has its status, there are as many `taken` as `append` notes.
#[tactic(auto, using(crate::proofs::DrillTaken::drills_take_all))]
pub fn drills_take_what_is_rung()
    ensures { DrillsTakeAll }
{}

/// What a lawful run over the generated script comes to. Each line that appends was told, none was refused, and
/// each ORB has its status; nothing was lost, each settle is `settled`, and at the end nothing is in flight;
/// nothing was managed, no agent died, and the commands are legal. Over a first medium that is as the commands need
/// it, where no medium call of them failed, each command ran there and well, each status is good, and each block
/// holds what the last line of the one initiator, or the last one of the other, that writes it brought, and what it
/// held at the start if none does.
#[tactic(auto, using(crate::proofs::DrillRuns::drills_end))]
pub fn drills_end_at_rest()
    ensures { DrillsEnd }
{}

/// In a drill in which no agent died, no ORB ended as a dummy, and each command that ran ran well, each ORB ends
/// good, and so there are as many good statuses as statuses: an ORB fails behind a death alone, and none is
/// aborted.
#[tactic(auto, using(crate::proofs::DrillGood::drills_are_good))]
pub fn drills_end_well()
    ensures { DrillsAreGood }
{}

/// No check holds for a command of a drill on a unit that is started, has no unit attention to tell, and whose
/// medium is present, not protected, and has 64 blocks at least; where it ends good it leaves the unit
/// so, and it moves no disc.
#[tactic(auto, using(crate::proofs::DrillDisk::commands_pass))]
pub fn commands_of_drills_pass()
    ensures { CommandsPass }
{}

/// Where the first unit's medium is present, not protected, and has 64 blocks at least, and each command of a
/// drill ran on that unit without a medium call that failed, each ran well, without a check, and the unit
/// stays so.
#[tactic(auto, using(crate::proofs::DrillRan::drills_run_well))]
pub fn drills_run_well()
    ensures { DrillsRunWell }
{}

/// Over a first unit whose medium is present, not protected, and has 64 blocks at least, where each ORB of a
/// drill has its status, nothing died, and each command ran there without a medium call that failed: each
/// block holds at the end what the last ORB of the one initiator, or the last one of the other, that writes it
/// brought, and what it held at the start if none writes it.
#[tactic(auto, using(crate::proofs::DrillBlocks::drills_write_blocks))]
pub fn drills_write_their_blocks()
    ensures { DrillsWriteBlocks }
{}

/// In a drill of which no line was refused the ORB of an initiator that writes a block last is that of its last
/// line that does, and it brings 512 times that line's byte.
#[tactic(auto, using(crate::proofs::DrillWrites::lines_write_blocks))]
pub fn lines_write_their_blocks()
    ensures { LinesWriteBlocks }
{}

/// In a drill in which no session got stuck and no status of a dead agent was taken, each of the two initiators is
/// logged in, has no operation under way, has linked what it appended, and sees no dead agent: so a line
/// that appends is refused for want of a slot or of a label alone. Where no agent died, no status tells of a dead
/// one.
#[tactic(auto, using(crate::proofs::DrillRefused::drills_refuse_little))]
pub fn drills_refuse_for_slots_and_labels()
    ensures { DrillsRefuseLittle }
{}

/// So where no line that appends lacks a slot or a label, none is refused, and there are as many `append` notes as
/// such lines.
#[tactic(auto, using(crate::proofs::DrillRoom::drills_append_all))]
pub fn drills_append_where_there_is_room()
    ensures { DrillsAppendAll }
{}

/// Each ORB that an initiator prepares takes one of its slots at most, and nothing else takes any. Where fewer
/// than 32 are taken, one is free.
#[tactic(auto, using(crate::proofs::DrillSlots::slots_law))]
pub fn slots_are_taken_one_by_one()
    ensures { SlotsLaw }
{}

/// No slot of an initiator holds an ORB that is over, and none holds one that another slot holds: so where each
/// slot is free or holds a certain ORB, one is taken at most.
#[tactic(auto, using(crate::proofs::DrillApart::slots_apart))]
pub fn slots_hold_each_orb_once()
    ensures { SlotsApart }
{}

/// In a drill at most 40 requests of the target to each initiator are under way that are nobody's, at each moment:
/// no agent is put into RESET, so one drops its read ahead at most, as it dies.
#[tactic(auto, using(crate::proofs::DrillFew::drills_leave_few))]
pub fn drills_leave_few_requests()
    ensures { DrillsLeaveFew }
{}

/// In a run over the generated script of which each rung ORB completes behind each line, each settle leaves no ORB
/// untaken, no agent dies, and each line that appends finds a slot and a label.
#[tactic(auto, using(crate::proofs::DrillDone::drills_are_done))]
pub fn drills_are_done()
    ensures { DrillsAreDone }
{}

/// In a run over the generated script, in which no status tells of a dead agent and each settle leaves nothing
/// untaken, a slot is free for each line that appends: behind a settle one is taken at most, and 16 lines at most
/// append before the next one.
#[tactic(auto, using(crate::proofs::DrillSlotsLeft::drills_have_slots))]
pub fn drills_find_slots()
    ensures { DrillsHaveSlots }
{}

/// In every run no request is under way, of any node, behind a line where nothing was lost and nothing is in flight.
#[tactic(auto, using(crate::proofs::DrillRests::runs_rest))]
pub fn runs_rest_where_still()
    ensures { RunsRest }
{}

/// In such a run of the generated script a slot and a label are free for each line that appends: each such line sends one
/// request at most, no request is under way behind a settle, and no two requests of an initiator are equal.
#[tactic(auto, using(crate::proofs::DrillLabelsLeft::drills_have_room))]
pub fn drills_find_room()
    ensures { DrillsHaveRoom }
{}

/// In a drill over up to four units no session gets stuck: the target answers complete each write of ORB_POINTER and of
/// DOORBELL, since an initiator writes ORB_POINTER once, and its agent is in RESET until then.
#[tactic(auto, using(crate::proofs::DrillStuck::drills_stay_unstuck))]
pub fn drills_get_no_session_stuck()
    ensures { DrillsStayUnstuck }
{}
