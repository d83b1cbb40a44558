//! The law of the media over the lines of a world.
ghost use Rattle.media_laws.specs.Runs.{DisksLaw};

/// After each run of the machine each medium holds what the disk fold over its notes gives from what it
/// held at the start, and its count of faults rose by the runs of its unit that ended with a medium call
/// that failed.
#[tactic(auto, using(crate::proofs::Runs::disks_law))]
pub fn lines_keep_the_disks()
    ensures { DisksLaw }
{}
