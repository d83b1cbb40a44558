ghost use Rattle.script_runner.specs.Legal.{LegalScriptsLaw};

/// Every command that a line of a script states, and every one that a drill draws, is legal: its max_payload
/// is 9 at most, and each segment of its buffer has bytes.
#[tactic(auto, using(crate::proofs::LegalScripts::legal_scripts_law))]
pub fn commands_of_scripts_are_legal()
    ensures { LegalScriptsLaw }
{}
