ghost use Rattle.orb_list.specs.Buffers.{BufferLaw};
ghost use Rattle.orb_list.specs.Data.{DataLaw};
ghost use Rattle.orb_list.specs.Finds.{FindLaw};
ghost use Rattle.orb_list.specs.Frees.{FreeLaw};
ghost use Rattle.orb_list.specs.Keeps.{KeepsLaw};
ghost use Rattle.orb_list.specs.Kept.{ServedLaw};
ghost use Rattle.orb_list.specs.Laws.{SlotsLaw};
ghost use Rattle.orb_list.specs.Named.{NamedLaw};
ghost use Rattle.orb_list.specs.Stays.{StaysLaw};
ghost use Rattle.orb_list.specs.Steps.{HeldLaw};
ghost use Rattle.orb_list.specs.Tables.{TableLaw};

/// Over every list of calls an ORB that waits keeps its slot, and no slot in use or at rest is given out.
#[tactic(auto, using(crate::proofs::Tied::slots_law))]
pub fn slots_are_kept()
    ensures { SlotsLaw }
{}

/// Over every list of calls the status that is taken is that of the ORB that the block names, which waits, and
/// a block that names an ORB that waits is taken.
#[tactic(auto, using(crate::proofs::Named::named_law))]
pub fn named_statuses_are_taken()
    ensures { NamedLaw }
{}

/// Over every list of calls a slot is free exactly where no ORB was prepared there since all were freed, or
/// the last one is over by what was done, or was when its list was dropped.
#[tactic(auto, using(crate::proofs::Frees::free_law))]
pub fn slots_become_free()
    ensures { FreeLaw }
{}

/// Over every list of calls an ORB that was prepared, and is not over by what was done, is the one that was
/// prepared last in its slot.
#[tactic(auto, using(crate::proofs::Keeps::keeps_law))]
pub fn orbs_keep_their_slots()
    ensures { KeepsLaw }
{}

/// New slots are sound and held by a new image, and each call leaves them so.
#[tactic(auto, using(crate::proofs::Steps::held_law))]
pub fn steps_keep_slots()
    ensures { HeldLaw }
{}

/// Over every list of calls the ORB that is found by a number is the one that waits and has it, none is found
/// exactly where there is no such ORB, and every ORB that waits is of the present list.
#[tactic(auto, using(crate::proofs::Finds::find_law))]
pub fn numbers_are_found()
    ensures { FindLaw }
{}

/// Over every list of calls the next pointer of each ORB that was prepared last in its slot is null until
/// the high quadlet of the ORB behind it was written, and then that ORB's address; its low quadlet is 0 until
/// that of the ORB behind it was written; its other bytes and its page table stay as they were prepared, but
/// for the format of a dummy. Both quadlets are written into the slot of the ORB before the one that is
/// linked, of the same list.
#[tactic(auto, using(crate::proofs::Imaged::served_law))]
pub fn orbs_are_served()
    ensures { ServedLaw }
{}

/// The page table that is written for a request is read as its segments.
#[tactic(auto, using(crate::proofs::Tables::table_law))]
pub fn page_table_reads_back()
    ensures { TableLaw }
{}

/// The segments of a request lie in its slot's buffer and do not overlap, and its data stand in them, joined in
/// order.
#[tactic(auto, using(crate::proofs::Data::data_law))]
pub fn data_stand_in_segments()
    ensures { DataLaw }
{}

/// A write of the target, served or not, a fill of any slot, and a quadlet that is set in a place of management
/// leave an image that holds the slots as before, with the ORB and the page table of each.
#[tactic(auto, using(crate::proofs::Stays::stays_law))]
pub fn slots_stay_held()
    ensures { StaysLaw }
{}

/// Over every list of calls the bytes of a slot's buffer stay until the slot is given out again, its buffer is
/// filled or a quadlet is set there, or a write of the target is served there, which is only where the direction
/// of its ORB is 1.
#[tactic(auto, using(crate::proofs::Buffers::buffer_law))]
pub fn buffers_stay()
    ensures { BufferLaw }
{}
