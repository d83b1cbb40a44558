ghost use Rattle.login_table.specs.Laws.{ExclusiveLaw, ExpiryLaw, HeldLaw, ListLaw, LiveLaw, NextIdLaw, NumberedLaw, OneByEuiLaw, OneByIdLaw, OneByNodeLaw, SecondsLaw, TickLaw, TurnLaw, UnitsLaw};

/// The law that after every list of calls an EUI-64 has at most one login on a unit, live or held.
pub fn one_by_eui()
    ensures { OneByEuiLaw }
{}

/// The law that after every list of calls a node has at most one live login on a unit.
pub fn one_by_node()
    ensures { OneByNodeLaw }
{}

/// The law that after every list of calls a unit that has an exclusive login, live or held, has no
/// login of another EUI-64.
pub fn exclusive_alone()
    ensures { ExclusiveLaw }
{}

/// The law that after every list of calls no ID stands in two places.
pub fn one_by_id()
    ensures { OneByIdLaw }
{}

/// The law that after every list of calls each login carries its place, one of eight, and an ID from
/// 1 to 65535.
pub fn numbered()
    ensures { NumberedLaw }
{}

/// The law that after every list of calls a new login has the next ID in counting order that is not
/// in use, after the ID entered last.
pub fn next_id_free()
    ensures { NextIdLaw }
{}

/// The law that a login that is held stays for its hold + 1 seconds, unless it comes back or is
/// replaced, and that each second is taken from it.
pub fn held_for_its_seconds()
    ensures { HeldLaw }
{}

/// The law that the second behind a held login's hold seconds removes it and tells its ID.
pub fn expires_after_its_seconds()
    ensures { ExpiryLaw }
{}

/// The law that after every list of calls a held login has from 1 to hold + 1 seconds left.
pub fn seconds_left()
    ensures { SecondsLaw }
{}

/// The law that after every list of calls a second tells the IDs of the logins that have one second left
/// and no others, each once.
pub fn ticks_tell_the_ends()
    ensures { TickLaw }
{}

/// The law that a live login stands as it is, whatever calls come, until its node logs it out or it is
/// held.
pub fn live_until_it_leaves()
    ensures { LiveLaw }
{}

/// The law of the IDs that a hold holds and of the places of a unit, after every list of calls.
pub fn lists_of_logins()
    ensures { ListLaw }
{}

/// The law that calls in their order make the table that they make with the latest first.
pub fn calls_in_turn()
    ensures { TurnLaw }
{}

/// The law that the units of the logins stay below a number as long as those of the logins that are
/// entered do.
pub fn units_stay_below()
    ensures { UnitsLaw }
{}
