//! What the laws of a run determine.
ghost use Rattle.lawful_journal.specs.Determined.{RunsAreDetermined};

/// Two runs with the same media at the start, the same numbered events and the same telling, both lawful,
/// have the same entries, note by note. A telling says what no law says: how each command ended that no
/// check decides, the bytes of each chunk of an answer that its medium does not tell, and the answers that
/// initiators which injected packets find in their buffers.
pub fn lawful_determines_the_journal()
    ensures { RunsAreDetermined }
{}
