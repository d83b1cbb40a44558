ghost use Rattle.sbp_session.specs.Laws.{CarriedLaw, EndsLaw, ResetLaw, ResponseLaw, StuckLaw};

/// The law that over every list of events a session that carries a response carries the one of its
/// latest login.
pub fn response_of_latest_login()
    ensures { ResponseLaw }
{}

/// The law that a session gains its response by a login that ends with status 00, and loses it by a
/// reconnect that ends with another status and by a logout that ends, and by nothing else.
pub fn response_by_moves()
    ensures { CarriedLaw }
{}

/// The law that a seen reset leaves a session that carries a response held with it, and any other out.
pub fn held_by_a_reset()
    ensures { ResetLaw }
{}

/// The law that over every list of events without a seen reset a stuck session stays as it is.
pub fn stuck_until_a_reset()
    ensures { StuckLaw }
{}

/// The law of operations that are sent and end with status 00, or are answered conflict_error.
pub fn operations_end()
    ensures { EndsLaw }
{}
