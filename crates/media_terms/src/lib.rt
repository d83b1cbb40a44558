//! What the media hold by the notes of a history alone, which is what the disk fold of the laws holds.
#![tactic(auto)]

mod laws;

pub use laws::notes_tell_the_media;
