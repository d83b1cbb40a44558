ghost use Rattle.agent_laws.specs.Along.Laws.{CallsKeepAlong, ListsGoInOrder, ListsMayGrow};
ghost use Rattle.agent_laws.specs.Along.Tried.{ListTried};

/// Each call keeps an agent along its list: what runs and what ends is the ORB behind those that have
/// ended, the run is its first, as it was read and with its data, its end follows from its run, its status
/// block is asked for with its address and its kind, and what is under way is what was asked for.
pub fn calls_keep_agents_along()
    ensures { CallsKeepAlong }
{}

/// An agent that is along a list is along the list with more ORBs linked.
pub fn agents_stay_along_growing_lists()
    ensures { ListsMayGrow }
{}

/// Behind the pointer to the first ORB of a list the ORBs that end are the first ones of the list, in its
/// order, each once and behind its run, over every list of calls whose reads bring what the list holds.
pub fn lists_go_in_order()
    ensures { ListsGoInOrder }
{}

/// The law of lists takes in a list of two ORBs: all that it asks for is there, and both run and end, the
/// second as it was read ahead.
pub fn a_list_was_tried()
    ensures { ListTried }
{}
