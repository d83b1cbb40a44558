//! The terms of the management and the target.
ghost use Rattle.sbp_world.specs.Agents.Management.Calls.{ManagementLaw};
ghost use Rattle.sbp_world.specs.Agents.Management.Terms.{BetweenLaw, TermsLaw};

/// Each call of a target changes the table of logins, the keys and the operation as its notes tell: the first
/// note of its turn, and then what the call tells, one after the other.
pub fn calls_change_the_management()
    ensures { ManagementLaw }
{}

/// After every line of every run of a machine with a unit, the table of logins, the keys and the management's operation
/// that the laws read off the history are the target's own; the operation waits for one request, the one that the history
/// has for it.
#[tactic(auto, using(crate::proofs::Agents::Management::Runs::terms_law))]
pub fn terms_are_the_management()
    ensures { TermsLaw }
{}

/// And behind each delivery of a line that may follow, as the packets in flight are delivered one after the other.
#[tactic(auto, using(crate::proofs::Agents::Management::Runs::between_law))]
pub fn deliveries_keep_the_terms()
    ensures { BetweenLaw }
{}
