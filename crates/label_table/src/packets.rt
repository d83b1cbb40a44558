ghost use Rattle.std.specs.Prelude.{◌≡◌, ◌^◌, ◌<◌, IfOk};
ghost use Rattle.async_packet.specs.Canon.{FitsHeader, IsValid, canon};
ghost use Rattle.async_packet.specs.Packet.{header_in, view};
ghost use Rattle.label_table.specs.Bodies.{FitsBody, Gives, body_of, header_to, request_with, response_to, response_with};
ghost use Rattle.label_table.specs.Requests.{IsRequest, IsRequestOf};

use crate::body::RequestBody;
use async_packet::{Header, PacketRef, encode_into, encoded_len};
use sbp_base::{Bytes, NoMemory, NodeId, quad_at};
use std::alloc::Global;

/// What a packet of a node begins with.
fn header_to(source: NodeId, destination: NodeId, label: u8) -> Header
    requires { label < 64 }
    ensures value { result ≡ header_to source destination label }
    ensures fits { FitsHeader result }
{
    // Reading the IDs shows the prover that they have 16 bits.
    let _source = source.raw();
    let _destination = destination.raw();
    Header {
        destination,
        label,
        retry: 1,
        priority: 0,
        source,
    }
}

/// The canonical bytes of a packet.
#[inline(always)]
fn canonical(alloc: Global, packet: &PacketRef<'_>) -> Result<Vec<u8>, NoMemory>
    requires { IsValid (view packet.now) }
    ensures { IfOk result (λ bytes. bytes.items ≡ canon (view packet.now)) }
{
    let mut bytes = vec![in alloc; 0; encoded_len(packet)]?;
    encode_into(packet, &mut bytes);
    Ok(bytes)
}

/// The same, to be handed out.
pub(crate) fn spelled(alloc: Global, packet: &PacketRef<'_>) -> Result<Bytes, NoMemory>
    requires { IsValid (view packet.now) }
    ensures { IfOk result (λ bytes. bytes ≡ canon (view packet.now)) }
{
    Ok(Bytes::from_vec(canonical(alloc, packet)?))
}

/// The canonical bytes of a request to a peer, before it has its label.
pub(crate) fn unlabelled(
    alloc: Global,
    node: NodeId,
    peer: NodeId,
    body: &RequestBody<'_>,
) -> Result<Vec<u8>, NoMemory>
    requires { FitsBody (body_of body.now) }
    ensures spelled { IfOk result (λ bytes. bytes.items ≡ canon (request_with (header_to node peer 0) (body_of body.now))) }
    ensures request { IfOk result (λ bytes. IsRequest bytes.items) }
{
    canonical(alloc, &body.packet(header_to(node, peer, 0)))
}

/// What the response of a node to a request begins with: it goes to the source, under the label.
fn header_back(node: NodeId, request: &PacketRef<'_>) -> Header
    requires { (header_in (view request.now)).label < 64 }
    ensures value { result ≡ header_to node (header_in (view request.now)).source (header_in (view request.now)).label }
    ensures fits { FitsHeader result }
{
    let header = request.header();
    header_to(node, header.source, header.label)
}

/// The response of a node to a request, lent from what is given.
#[tactic(auto, using(crate::proofs::Requests::label_spelled))]
pub(crate) fn response_to<'a>(
    node: NodeId,
    request: &PacketRef<'_>,
    bytes: &[u8],
    rcode: u8,
    given: &'a [u8],
) -> PacketRef<'a>
    requires request { IsRequestOf bytes.now (view request.now) }
    requires rcode { rcode < 2 ^ 4 }
    requires given { Gives (view request.now) rcode given.now }
    ensures packet { view result ≡ response_to node (view request.now) rcode given.now }
    ensures valid { IsValid (view result) }
{
    let header = header_back(node, request);
    match request {
        PacketRef::ReadQuadlet { .. } => PacketRef::ReadQuadletResponse {
            header,
            rcode,
            value: if rcode == 0 { quad_at(given, 0) } else { 0 },
        },
        PacketRef::ReadBlock { .. } => PacketRef::ReadBlockResponse {
            header,
            rcode,
            payload: if rcode == 0 { given } else { &given[0..0] },
        },
        PacketRef::Lock { extended, .. } => PacketRef::LockResponse {
            header,
            rcode,
            extended: *extended,
            payload: &given[0..0],
        },
        _ => PacketRef::WriteResponse { header, rcode },
    }
}
