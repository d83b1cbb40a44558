ghost use Rattle.mgmt_agent.specs.Rows.{DecisionLaw};
ghost use Rattle.mgmt_agent.specs.Laws.{OperationLaw};
ghost use Rattle.mgmt_agent.specs.Effects.{AsksLaw, CallLaw, EffectLaw, PlaceLaw, RefusalLaw, RepliesLaw, UnitLaw};

/// The law of whole operations: over every list of calls, one operation at a time, each reads its ORB
/// and, for login and reconnect, the EUI-64 of its source, is decided once on what it read, then writes
/// its response and its status block once each, and ends, unless it fails or is cleared before. It has
/// one request under way at a time.
pub fn whole_operations()
    ensures { OperationLaw }
{}

/// The law that a decision is the first row that holds of the table of its function.
pub fn decided_by_first_row()
    ensures { DecisionLaw }
{}

/// The law that a request is asked for exactly while an operation is under way, and is the one that its
/// phase waits for.
pub fn asks_one_request()
    ensures { AsksLaw }
{}

/// The law that a decision leaves the logins as the call of their table does that its function makes.
pub fn decisions_call()
    ensures { CallLaw }
{}

/// The law that a reply leaves the logins as at most one call of their table does, which enters a login
/// only on a unit that has a key. So what holds of the table after every list of calls holds of the logins
/// of a manager.
pub fn replies_call()
    ensures { RepliesLaw }
{}

/// The law of what each function does whose status is 00: its effect, its response, and the login that it
/// is on, as the table shows it.
pub fn effects_of_decisions()
    ensures { EffectLaw }
{}

/// The law that a decision with another status than 00 has no effect, no login and no response.
pub fn refusals_do_nothing()
    ensures { RefusalLaw }
{}

/// The law that the place that an effect names is below 8.
pub fn places_of_effects()
    ensures { PlaceLaw }
{}

/// The law that a manager enters logins only on units that have a key, and that the unit that an effect
/// names has one.
pub fn units_of_effects()
    ensures { UnitLaw }
{}
