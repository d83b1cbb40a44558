ghost use Rattle.bus_memory.specs.Laws.{FifoLaw, LastSetLaw, OwnLaw, PartsLaw, SlotOfLaw, WindowLaw};

/// The law that a range of one byte or more inside an open window is found there, and no other.
#[tactic(auto, using(crate::proofs::Found::window_law))]
pub fn windows_are_found()
    ensures { WindowLaw }
{}

/// The law that the slot of an address is the one whose ORB begins there.
#[tactic(auto, using(crate::proofs::Found::slot_of_law))]
pub fn slots_are_found()
    ensures { SlotOfLaw }
{}

/// The law of what a window holds in a new memory, after bytes were set, and after a slot was armed or
/// freed.
#[tactic(auto, using(crate::proofs::Written::parts_law))]
pub fn parts_stand()
    ensures { PartsLaw }
{}

/// The law that a read of a slot's ORB gives its bytes, and that quadlets of management may be set.
#[tactic(auto, using(crate::proofs::Found::own_law))]
pub fn own_quadlets_are_set()
    ensures { OwnLaw }
{}

/// The law that the FIFOs are those of the two places of management and those of the logins.
#[tactic(auto, using(crate::proofs::Found::fifo_law))]
pub fn fifos_are_known()
    ensures { FifoLaw }
{}

/// The law that over every list of changes a window holds the bytes last set in it.
#[tactic(auto, using(crate::proofs::Written::last_set_law))]
pub fn last_bytes_stand()
    ensures { LastSetLaw }
{}
