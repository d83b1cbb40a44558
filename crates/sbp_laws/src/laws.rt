ghost use Rattle.sbp_laws.specs.Adds.{AddsLawfully};
ghost use Rattle.sbp_laws.specs.InTime.{InTimeLaw};
ghost use Rattle.sbp_laws.specs.OnLists.{IsPartOnLists};
ghost use Rattle.sbp_laws.specs.OnTheBus.{IsPartOfLawful};
ghost use Rattle.sbp_laws.specs.Readings.{InTurnLaw};

/// What the order law says in the order of time, of each initiator that injected no packets: of each
/// list the ORBs that ended are, in order and each once, a front of those that were appended.
pub fn ends_in_order()
    ensures { InTurnLaw }
{}

/// A run with one more entry is lawful exactly where the run was and the entry adds lawfully.
pub fn lawful_entry_by_entry()
    ensures { AddsLawfully }
{}

/// What `LawfulOnTheBus` says of a run is a part of what `LawfulBut` says of it; and what `FormedOnTheBus` says of it,
/// where its notes are inside the types of their fields.
#[tactic(auto, using(crate::proofs::Parts::part_of_lawful))]
pub fn lawful_runs_are_so_on_the_bus()
    ensures { IsPartOfLawful }
{}

/// What `LawfulOnLists` says of a run is a part of what `LawfulBut` says of it.
#[tactic(auto, using(crate::proofs::InTime::part_on_lists))]
pub fn lawful_runs_are_so_on_lists()
    ensures { IsPartOnLists }
{}

/// What the laws of lists say in the order of time, of each initiator that injected no packets: of each list the
/// ORBs that ended are, in order and each once, a front of those that were appended; those that ran did so in that
/// order, each once; and of each ORB one status is taken at most, the one with which it ended.
pub fn lists_read_in_time()
    ensures { InTimeLaw }
{}
