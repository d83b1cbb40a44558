ghost use Rattle.std.specs.Prelude.{◌≡◌};
ghost use Rattle.script_words.specs.Verbs as tables;
ghost use Rattle.script_words.specs.Verbs.{look, plain_verbs, block_verbs};

/// The commands that a script names (RBC, and SBC where RBC takes a command from there).
#[derive(Clone, Copy)]
pub enum Verb {
    /// TEST UNIT READY
    Ready,
    Inquiry,
    Start,
    Stop,
    Eject,
    Load,
    Prevent,
    Allow,
    Capacity,
    /// SYNCHRONIZE CACHE
    Sync,
    Read,
    Read12,
    Verify,
    Write,
    Write12,
}

/// The two layouts of a command block with an address, of ten and of twelve bytes.
#[derive(Clone, Copy)]
pub enum Form {
    Ten,
    Twelve,
}

/// The command that a word names.
#[tactic(auto, using(crate::proofs::Tables::look_in_turn))]
pub fn verb_of(word: &[u8]) -> Option<Verb>
    ensures { result ≡ tables.verb_of word.now }
{
    if let Some(verb) = plain_verb(word) {
        return Some(verb);
    }
    block_verb(word)
}

#[tactic(auto, unfolding(crate::specs::Verbs::plain_verbs))]
fn plain_verb(word: &[u8]) -> Option<Verb>
    ensures { result ≡ look plain_verbs word.now }
{
    if word == b"tur".as_slice() {
        Some(Verb::Ready)
    } else if word == b"inquiry".as_slice() {
        Some(Verb::Inquiry)
    } else if word == b"start".as_slice() {
        Some(Verb::Start)
    } else if word == b"stop".as_slice() {
        Some(Verb::Stop)
    } else if word == b"eject".as_slice() {
        Some(Verb::Eject)
    } else if word == b"load".as_slice() {
        Some(Verb::Load)
    } else if word == b"prevent".as_slice() {
        Some(Verb::Prevent)
    } else if word == b"allow".as_slice() {
        Some(Verb::Allow)
    } else if word == b"capacity".as_slice() {
        Some(Verb::Capacity)
    } else if word == b"sync".as_slice() {
        Some(Verb::Sync)
    } else {
        None
    }
}

#[tactic(auto, unfolding(crate::specs::Verbs::block_verbs))]
fn block_verb(word: &[u8]) -> Option<Verb>
    ensures { result ≡ look block_verbs word.now }
{
    if word == b"read".as_slice() {
        Some(Verb::Read)
    } else if word == b"read12".as_slice() {
        Some(Verb::Read12)
    } else if word == b"verify".as_slice() {
        Some(Verb::Verify)
    } else if word == b"write".as_slice() {
        Some(Verb::Write)
    } else if word == b"write12".as_slice() {
        Some(Verb::Write12)
    } else {
        None
    }
}
