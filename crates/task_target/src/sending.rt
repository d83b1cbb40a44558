ghost use Rattle.std.specs.Prelude.{◌≡◌, ◌+◌, ◌^◌, ◌<◌, ◌≤◌, IfOk, OnOk};
ghost use Rattle.async_packet.specs.Packet.{view};
ghost use Rattle.label_table.specs.Bodies.{FitsBody, Gives, body_of};
ghost use Rattle.label_table.specs.Requests.{IsRequestOf};
ghost use Rattle.task_target.specs.Sending.{request_step, answer_step};

use crate::purpose::TaskPurpose;
use async_packet::{Label, PacketRef};
use label_table::{RequestBody, Transactions};
use sbp_base::{NoMemory, NodeId};
use sbp_journal::{Outbox, Outgoing};
use std::alloc::Global;

/// Sends a request of a place to a peer. There is no label exactly where the request finds none; then
/// nothing is sent and nothing changes.
#[tactic(auto, unfolding(crate::specs::Sending::request_step))]
pub(crate) fn send_request(
    layer: &mut Transactions<TaskPurpose>,
    outbox: &mut Outbox,
    alloc: Global,
    peer: NodeId,
    body: &RequestBody<'_>,
    place: u8,
) -> Result<Option<Label>, NoMemory>
    requires count { layer.old.calls < 2 ^ 56 }
    requires body { FitsBody (body_of body.now) }
    ensures step { IfOk result (λ label. (label, (layer.new, outbox.new)) ≡ request_step layer.old outbox.old peer (body_of body.now) place) }
    ensures count { layer.new.calls ≤ layer.old.calls + 1 }
{
    let Some(asked) = layer.ask(alloc, peer, body, TaskPurpose { place })? else {
        return Ok(None);
    };
    let label = asked.label;
    outbox.send(Outgoing {
        to: peer,
        label: Some(label),
        bytes: asked.bytes,
    })?;
    Ok(Some(label))
}

/// Answers a request, and remembers it with its rcode, 4 bits. Where a read is complete, `given` is
/// what was read.
#[tactic(auto, unfolding(crate::specs::Sending::answer_step, label_table::specs::Layer::answering_step))]
pub(crate) fn send_response(
    layer: &mut Transactions<TaskPurpose>,
    outbox: &mut Outbox,
    alloc: Global,
    request: &PacketRef<'_>,
    bytes: &[u8],
    rcode: u8,
    given: &[u8],
) -> Result<(), NoMemory>
    requires request { IsRequestOf bytes.now (view request.now) }
    requires rcode { rcode < 2 ^ 4 }
    requires given { Gives (view request.now) rcode given.now }
    ensures count { layer.new.calls ≡ layer.old.calls }
    ensures step { OnOk result ((layer.new, outbox.new) ≡ answer_step layer.old outbox.old (view request.now) bytes.now rcode given.now) }
{
    let response = layer.answer(alloc, request, bytes, rcode, given)?;
    outbox.send(Outgoing {
        to: request.header().source,
        label: None,
        bytes: response,
    })
}
