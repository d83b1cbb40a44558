ghost use Rattle.std.specs.Prelude.{◌≡◌, ◌+◌, ◌^◌, ◌<◌, ◌≤◌, IfOk};
ghost use Rattle.sbp_initiator.specs.Commands.{IsCommand, put_lists};

use orb_list::{Lists, Request, Ticket};
use sbp_base::{NoMemory, NodeId};
use sbp_journal::Cmd;
use std::alloc::Global;

/// Prepares the ORB of a command, for a node and its login; there is none where that is refused.
#[tactic(auto, unfolding(crate::specs::Commands::put_lists, orb_list::specs::Lists::prepare_lists))]
pub(crate) fn put(
    lists: &mut Lists,
    alloc: Global,
    cmd: &Cmd,
    node: NodeId,
    login: u16,
) -> Result<Option<Ticket>, NoMemory>
    requires command { IsCommand cmd.now }
    requires calls { lists.old.slots.calls < 2 ^ 56 }
    requires acts { lists.old.slots.acts < 2 ^ 31 }
    ensures step { IfOk result (λ ticket. (ticket, lists.new) ≡ put_lists lists.old cmd.now node login) }
    ensures calls { lists.new.slots.calls ≤ lists.old.slots.calls + 1 }
    ensures acts { lists.new.slots.acts ≤ lists.old.slots.acts + 1 }
{
    let request = Request {
        cdb: cmd.cdb,
        to_initiator: cmd.to_initiator,
        length: cmd.length,
        payload: cmd.payload.as_slice(),
        segments: cmd.segments.as_slice(),
        max_payload: cmd.max_payload,
        node,
        login,
    };
    lists.prepare(alloc, &request)
}
