ghost use Rattle.std.specs.Prelude.{◌≡◌};
ghost use Rattle.task_target.specs.Sending.{is_that};

use async_packet::Label;
use sbp_base::NodeId;

/// What a transaction of the target is for: a place of the agent, 0 to 7 of a task and 8 of the fetcher.
#[derive(Clone, Copy)]
pub struct TaskPurpose {
    pub place: u8,
}

/// A transaction under way: the node that was asked, and the label.
#[derive(Clone, Copy)]
pub struct Sent {
    pub peer: NodeId,
    pub label: Label,
}

/// Whether a transaction, where there is one, is the one with this peer under this label.
pub(crate) fn is_that(sent: &Option<Sent>, peer: NodeId, label: &Label) -> bool
    ensures { result ≡ is_that sent.now peer label.now }
{
    match sent {
        Some(sent) => {
            sent.peer == peer
                && sent.label.number() == label.number()
                && sent.label.generation() == label.generation()
                && sent.label.serial() == label.serial()
        }
        None => false,
    }
}
