//! The law of the media over a history.
ghost use Rattle.media_terms.specs.Media.{MediaFoldLaw};

/// In every history the disk fold holds what the notes of the runs leave of what the media held at the
/// start: no other note changes what a medium holds.
#[tactic(auto, using(crate::proofs::Folds::known_disks))]
pub fn notes_tell_the_media()
    ensures { MediaFoldLaw }
{}
