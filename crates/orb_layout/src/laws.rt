ghost use Rattle.orb_layout.specs.ReadBack.{CommandReadsBack, CommandStandsInFront, PointerStandsInFront, ManagementReadsBack, LoginReadsBack, StatusReadsBack, StatusWritesBack, QueryCountsBack, QueryEntriesReadBack};

/// Reading the command ORB that was written gives it back.
#[tactic(auto, using(crate::proofs::Back::command_back))]
pub fn command_orb_reads_back()
    ensures { CommandReadsBack }
{}

/// Reading the management ORB that was written gives it back.
pub fn management_orb_reads_back()
    ensures { ManagementReadsBack }
{}

/// Reading the login response that was written gives it back.
#[tactic(auto, using(crate::proofs::Back::login_back))]
pub fn login_response_reads_back()
    ensures { LoginReadsBack }
{}

/// Reading the status block that was written gives it back, by the word whether it is of the kind
/// management.
#[tactic(auto, using(crate::proofs::StatusBack::status_back))]
pub fn status_block_reads_back()
    ensures { StatusReadsBack }
{}

/// A status block that was read is one of a row, and is written as the bytes that it was read from.
pub fn status_block_writes_back()
    ensures { StatusWritesBack }
{}

/// Of the query response that was written the number of logins is read, also where it was cut
/// short, and each login stands at its place.
#[tactic(auto, using(crate::proofs::QueryBack::entries_read_back))]
pub fn query_response_reads_back()
    ensures count { QueryCountsBack }
    ensures entries { QueryEntriesReadBack }
{}

/// A command ORB is read of its 32 bytes alone, and the pointer to the next one of the first 8.
#[tactic(auto, using(crate::proofs::Front::command_front, crate::proofs::Front::pointer_front))]
pub fn command_orb_stands_in_front()
    ensures orb { CommandStandsInFront }
    ensures next { PointerStandsInFront }
{}
