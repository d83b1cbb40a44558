ghost use Rattle.std.specs.Prelude.{◌≡◌};
ghost use Rattle.sbp_target.specs.Sending.{is_sent_as};

use async_packet::Label;
use sbp_base::NodeId;
use target_base::LoginPlace;

/// What a transaction of the target is for.
#[derive(Clone, Copy)]
pub enum Purpose {
    /// The agent of a place. Whether it is its main transaction or its read ahead the agent's desk
    /// tells, since a read ahead may become the main transaction while it is under way.
    Agent(LoginPlace),
    /// The management operation.
    Management,
    /// An unsolicited status.
    Unsolicited,
}

/// A transaction under way: the node that was asked, and the label.
#[derive(Clone, Copy)]
pub struct Sent {
    pub peer: NodeId,
    pub label: Label,
}

impl Sent {
    /// Whether it is the transaction with this peer under this label.
    pub(crate) fn is(&self, peer: NodeId, label: &Label) -> bool
        ensures { result ≡ is_sent_as self.now peer label.now }
    {
        self.peer == peer
            && self.label.number() == label.number()
            && self.label.generation() == label.generation()
            && self.label.serial() == label.serial()
    }
}
