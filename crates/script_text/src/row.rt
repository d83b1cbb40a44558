ghost use Rattle.std.specs.Prelude.{◌≡◌};
ghost use Rattle.script_text.specs.Rows as tables;
ghost use Rattle.script_words.specs.Verbs.{look};
ghost use Rattle.script_text.specs.Rows.{bus_rows, packet_rows, act_rows, list_rows};

/// The rows of the script.
#[derive(Clone, Copy)]
pub enum Row {
    Begin,
    /// An initiator does something that needs no further word.
    Act(Act),
    Login,
    Query,
    /// An initiator does something with an ORB of its present list.
    OnOrb(OrbAct),
    /// An initiator prepares a command.
    Command(Placing),
    Reset,
    See,
    Key,
    /// Something happens to a packet.
    Fate(Fate),
    Step,
    Settle,
    Tick,
    Inject,
}

/// What an initiator does without further words.
#[derive(Clone, Copy)]
pub enum Act {
    Rom,
    Reconnect,
    Logout,
    AbortSet,
    UnitReset,
    TargetReset,
    AgentReset,
    State,
    Enable,
    Low,
    Link,
    Ring,
}

/// What an initiator does with an ORB of its present list.
#[derive(Clone, Copy)]
pub enum OrbAct {
    Abort,
    Dummy,
}

/// Whether an ORB is only prepared, or linked and rung as well.
#[derive(Clone, Copy)]
pub enum Placing {
    Put,
    Append,
}

/// What happens to a packet.
#[derive(Clone, Copy)]
pub enum Fate {
    Deliver,
    Repeat,
    Lose,
    Timeout,
}

/// The row of a line that begins with this word. The lines that most scripts have most of are looked up
/// first.
#[tactic(auto, using(crate::proofs::Tables::look_in_turn))]
pub(crate) fn row_of(word: &[u8]) -> Option<Row>
    ensures { result ≡ tables.row_of word.now }
{
    if let Some(row) = list_row(word) {
        return Some(row);
    }
    if let Some(row) = bus_row(word) {
        return Some(row);
    }
    if let Some(row) = packet_row(word) {
        return Some(row);
    }
    act_row(word)
}

#[tactic(auto, unfolding(crate::specs::Rows::bus_rows))]
fn bus_row(word: &[u8]) -> Option<Row>
    ensures { result ≡ look bus_rows word.now }
{
    if word == b"begin".as_slice() {
        Some(Row::Begin)
    } else if word == b"reset".as_slice() {
        Some(Row::Reset)
    } else if word == b"see".as_slice() {
        Some(Row::See)
    } else if word == b"key".as_slice() {
        Some(Row::Key)
    } else if word == b"step".as_slice() {
        Some(Row::Step)
    } else if word == b"settle".as_slice() {
        Some(Row::Settle)
    } else if word == b"tick".as_slice() {
        Some(Row::Tick)
    } else if word == b"inject".as_slice() {
        Some(Row::Inject)
    } else {
        None
    }
}

#[tactic(auto, unfolding(crate::specs::Rows::packet_rows))]
fn packet_row(word: &[u8]) -> Option<Row>
    ensures { result ≡ look packet_rows word.now }
{
    if word == b"deliver".as_slice() {
        Some(Row::Fate(Fate::Deliver))
    } else if word == b"repeat".as_slice() {
        Some(Row::Fate(Fate::Repeat))
    } else if word == b"lose".as_slice() {
        Some(Row::Fate(Fate::Lose))
    } else if word == b"timeout".as_slice() {
        Some(Row::Fate(Fate::Timeout))
    } else {
        None
    }
}

#[tactic(auto, unfolding(crate::specs::Rows::act_rows))]
fn act_row(word: &[u8]) -> Option<Row>
    ensures { result ≡ look act_rows word.now }
{
    if word == b"rom".as_slice() {
        Some(Row::Act(Act::Rom))
    } else if word == b"reconnect".as_slice() {
        Some(Row::Act(Act::Reconnect))
    } else if word == b"logout".as_slice() {
        Some(Row::Act(Act::Logout))
    } else if word == b"abortset".as_slice() {
        Some(Row::Act(Act::AbortSet))
    } else if word == b"lureset".as_slice() {
        Some(Row::Act(Act::UnitReset))
    } else if word == b"treset".as_slice() {
        Some(Row::Act(Act::TargetReset))
    } else if word == b"agentreset".as_slice() {
        Some(Row::Act(Act::AgentReset))
    } else if word == b"state".as_slice() {
        Some(Row::Act(Act::State))
    } else if word == b"enable".as_slice() {
        Some(Row::Act(Act::Enable))
    } else {
        None
    }
}

#[tactic(auto, unfolding(crate::specs::Rows::list_rows))]
fn list_row(word: &[u8]) -> Option<Row>
    ensures { result ≡ look list_rows word.now }
{
    if word == b"append".as_slice() {
        Some(Row::Command(Placing::Append))
    } else if word == b"login".as_slice() {
        Some(Row::Login)
    } else if word == b"query".as_slice() {
        Some(Row::Query)
    } else if word == b"abort".as_slice() {
        Some(Row::OnOrb(OrbAct::Abort))
    } else if word == b"dummy".as_slice() {
        Some(Row::OnOrb(OrbAct::Dummy))
    } else if word == b"put".as_slice() {
        Some(Row::Command(Placing::Put))
    } else if word == b"low".as_slice() {
        Some(Row::Act(Act::Low))
    } else if word == b"link".as_slice() {
        Some(Row::Act(Act::Link))
    } else if word == b"ring".as_slice() {
        Some(Row::Act(Act::Ring))
    } else {
        None
    }
}
