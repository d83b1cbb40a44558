ghost use Rattle.std.specs.Prelude.{◌≡◌, ℕ, ◌+◌, ◌^◌, ◌<◌, ◌≤◌, List, [], length, take, drop, IfOk, OnOk, Some};
ghost use Rattle.async_packet.specs.Packet.{view};
ghost use Rattle.label_table.specs.Bodies.{Gives};
ghost use Rattle.label_table.specs.Requests.{IsRequestOf};
ghost use Rattle.target_base.specs.Addresses.{IsWithin, complete, demand_of};
ghost use Rattle.target_base.specs.Logins.{is_barred};
ghost use Rattle.sbp_target.specs.Counting.{LeavesCount};
ghost use Rattle.sbp_target.specs.Giving.{Suits, SuitsAccess};
ghost use Rattle.task_target.specs.Nodes.{scene};
ghost use Rattle.sbp_journal.specs.declared.side.Side.TheVariants as sides;
ghost use Rattle.task_target.specs.Sending.{with_side};
ghost use Rattle.task_target.specs.Serving.{accessed_by, answered, fetched, first_orb, last_pointer, point, pointer_bytes, rcode_of, request_step, ring, serve, state_number};

use super::Node;
use crate::sending::send_response;
use crate::telling::LOGIN;
use async_packet::PacketRef;
use command_agent::{AgentState, PointRefusal, aligned};
use orb_layout::{Ask, OrbPointer};
use rbc_disk::Medium;
use sbp_base::{NoMemory, Offset, bytes_of_quad, put_quad};
use sbp_journal::{Cause, Judged, Outbox, Side};
use target_base::{ADDRESS, Access, COMPLETE, CONFLICT, DATA, Demand, demand_of, is_barred};

/// The number of a state, which AGENT_STATE tells.
fn state_number(state: AgentState) -> u32
    ensures { result ≡ state_number state }
{
    match state {
        AgentState::Reset => 0,
        AgentState::Active => 1,
        AgentState::Suspended => 2,
        AgentState::Dead => 3,
    }
}

/// What ORB_POINTER tells: the pointer last taken, or a null one.
fn last_pointer(pointer: &Option<Offset>) -> OrbPointer
    ensures { result ≡ last_pointer pointer.now }
{
    match pointer {
        Some(orb) => OrbPointer::At(*orb),
        None => OrbPointer::Null,
    }
}

/// Its bytes.
fn pointer_bytes(pointer: &Option<Offset>) -> [u8; 8]
    ensures bytes { result ≡ pointer_bytes (last_pointer pointer.now) }
    ensures size { length result ≡ 8 }
{
    let mut bytes = [0; 8];
    put_quad(&mut bytes, 0, last_pointer(pointer).high());
    put_quad(&mut bytes, 4, last_pointer(pointer).low());
    bytes
}

/// The address of the first ORB of a list.
fn first_orb(pointer: &OrbPointer) -> Offset
    ensures { result ≡ first_orb pointer.now }
{
    match pointer {
        OrbPointer::Null => Offset::zero(),
        OrbPointer::At(first) => aligned(*first),
    }
}

/// Why a pointer was not taken, as an rcode.
fn rcode_of(refusal: PointRefusal) -> u8
    ensures rcode { result ≡ rcode_of refusal }
{
    match refusal {
        PointRefusal::Conflict => CONFLICT,
        PointRefusal::Null => DATA,
    }
}

/// What a request that was got asks for, with a ROM of `size` bytes.
fn demand_in(size: usize, request: &PacketRef<'_>) -> Demand
    requires { size ≤ 1024 }
    ensures demand { result ≡ demand_of size (view request.now) }
    ensures within { IsWithin size result }
    ensures suits { Suits (view request.now) result }
{
    demand_of(size, request)
}

impl Node {
    /// Judges a request that is none of those that a transaction layer ignores: one for an agent
    /// register that belongs to no live login of its source is ignored; else it is served.
    #[tactic(auto, unfolding(crate::specs::Serving::request_step), using(sbp_target::proofs::Giving::refused_gives))]
    pub(super) fn request(
        &mut self,
        medium: &mut dyn Medium,
        outbox: &mut Outbox,
        request: &PacketRef<'_>,
        bytes: &[u8],
    ) -> Result<Judged, NoMemory>
        requires request { IsRequestOf bytes.now (view request.now) }
        requires count { self.old.layer.calls + 6 ≤ 2 ^ 56 }
        ensures step { IfOk result (λ judged. (judged, scene self.new outbox.new) ≡ request_step (view request.now) bytes.now (scene self.old outbox.old)) }
        ensures disk { disk medium.new ≡ disk medium.old }
        ensures faults { media_faults medium.new ≡ media_faults medium.old }
        ensures count { self.new.layer.calls ≤ self.old.layer.calls + 6 }
        ensures ignored { IfOk result (λ judged. LeavesCount judged self.old.layer.calls self.new.layer.calls) }
    {
        if is_barred(&self.logins, request) {
            self.answer(outbox, request, bytes, ADDRESS, &[])?;
            return Ok(Judged::Ignored(Cause::Login));
        }
        self.serve(medium, outbox, request, bytes)?;
        Ok(Judged::Got)
    }

    /// Answers a request.
    pub(super) fn answer(
        &mut self,
        outbox: &mut Outbox,
        request: &PacketRef<'_>,
        bytes: &[u8],
        rcode: u8,
        given: &[u8],
    ) -> Result<(), NoMemory>
        requires request { IsRequestOf bytes.now (view request.now) }
        requires rcode { rcode < 2 ^ 4 }
        requires given { Gives (view request.now) rcode given.now }
        ensures step { OnOk result (scene self.new outbox.new ≡ answered (view request.now) bytes.now rcode given.now (scene self.old outbox.old)) }
        ensures count { self.new.layer.calls ≡ self.old.layer.calls }
    {
        send_response(
            &mut self.layer,
            outbox,
            self.alloc,
            request,
            bytes,
            rcode,
            given,
        )
    }

    /// Does what a request that was got asks for, and answers it. There is no management agent, so
    /// MANAGEMENT_AGENT is answered as an address where no register is.
    #[tactic(auto, unfolding(crate::specs::Serving::serve), using(sbp_target::proofs::Giving::refused_gives))]
    fn serve(
        &mut self,
        medium: &mut dyn Medium,
        outbox: &mut Outbox,
        request: &PacketRef<'_>,
        bytes: &[u8],
    ) -> Result<(), NoMemory>
        requires request { IsRequestOf bytes.now (view request.now) }
        requires count { self.old.layer.calls + 6 ≤ 2 ^ 56 }
        ensures step { OnOk result (scene self.new outbox.new ≡ serve (view request.now) bytes.now (scene self.old outbox.old)) }
        ensures disk { disk medium.new ≡ disk medium.old }
        ensures faults { media_faults medium.new ≡ media_faults medium.old }
        ensures count { self.new.layer.calls ≤ self.old.layer.calls + 6 }
    {
        match demand_in(self.rom.len(), request) {
            Demand::Refused(rcode) => self.answer(outbox, request, bytes, rcode, &[]),
            Demand::Rom { at, length } => self.give_rom(outbox, request, bytes, at, length),
            Demand::Manage(_) => self.answer(outbox, request, bytes, ADDRESS, &[]),
            Demand::Agent(_, access) => self.access(medium, outbox, request, bytes, access),
        }
    }

    /// Answers a read inside the ROM.
    fn give_rom(
        &mut self,
        outbox: &mut Outbox,
        request: &PacketRef<'_>,
        bytes: &[u8],
        at: usize,
        size: usize,
    ) -> Result<(), NoMemory>
        requires request { IsRequestOf bytes.now (view request.now) }
        requires within { at + size ≤ length self.old.rom }
        requires suits { (given : List ℕ) → length given ≡ size → Gives (view request.now) complete given }
        ensures step { OnOk result (scene self.new outbox.new ≡ answered (view request.now) bytes.now complete (take size (drop at self.old.rom)) (scene self.old outbox.old)) }
        ensures count { self.new.layer.calls ≡ self.old.layer.calls }
    {
        let given = &self.rom[at..at + size];
        send_response(
            &mut self.layer,
            outbox,
            self.alloc,
            request,
            bytes,
            COMPLETE,
            given,
        )
    }

    /// Does what is asked of the agent, and answers it. UNSOLICITED_STATUS_ENABLE is answered, and there is
    /// nothing to announce: the one login alone changes the medium.
    fn access(
        &mut self,
        medium: &mut dyn Medium,
        outbox: &mut Outbox,
        request: &PacketRef<'_>,
        bytes: &[u8],
        access: Access,
    ) -> Result<(), NoMemory>
        requires request { IsRequestOf bytes.now (view request.now) }
        requires suits { SuitsAccess (view request.now) access }
        requires count { self.old.layer.calls + 6 ≤ 2 ^ 56 }
        ensures step { OnOk result (scene self.new outbox.new ≡ accessed_by access (view request.now) bytes.now (scene self.old outbox.old)) }
        ensures disk { disk medium.new ≡ disk medium.old }
        ensures faults { media_faults medium.new ≡ media_faults medium.old }
        ensures count { self.new.layer.calls ≤ self.old.layer.calls + 6 }
    {
        match access {
            Access::State => {
                let number = bytes_of_quad(state_number(self.agent.state()));
                self.answer(outbox, request, bytes, COMPLETE, &number)
            }
            Access::Reset => {
                self.cut(outbox)?;
                self.answer(outbox, request, bytes, COMPLETE, &[])
            }
            Access::Point(pointer) => self.point(medium, outbox, request, bytes, pointer),
            Access::Pointer => {
                let given = pointer_bytes(&self.pointer);
                self.answer(outbox, request, bytes, COMPLETE, &given)
            }
            Access::Ring => self.ring(medium, outbox, request, bytes),
            Access::Enable => self.answer(outbox, request, bytes, COMPLETE, &[]),
        }
    }

    /// A write of ORB_POINTER. A pointer that is taken is kept.
    #[tactic(auto, unfolding(crate::specs::Serving::point))]
    fn point(
        &mut self,
        medium: &mut dyn Medium,
        outbox: &mut Outbox,
        request: &PacketRef<'_>,
        bytes: &[u8],
        pointer: OrbPointer,
    ) -> Result<(), NoMemory>
        requires request { IsRequestOf bytes.now (view request.now) }
        requires suits { (rcode : ℕ) (given : List ℕ) → Gives (view request.now) rcode given }
        requires count { self.old.layer.calls + 6 ≤ 2 ^ 56 }
        ensures step { OnOk result (scene self.new outbox.new ≡ point pointer (view request.now) bytes.now (scene self.old outbox.old)) }
        ensures disk { disk medium.new ≡ disk medium.old }
        ensures faults { media_faults medium.new ≡ media_faults medium.old }
        ensures count { self.new.layer.calls ≤ self.old.layer.calls + 6 }
    {
        let orb = first_orb(&pointer);
        match self.agent.point(pointer) {
            Err(refusal) => self.answer(outbox, request, bytes, rcode_of(refusal), &[]),
            Ok(ask) => {
                self.open(outbox, orb)?;
                self.answer_and_fetch(medium, outbox, request, bytes, ask)
            }
        }
    }

    /// Keeps a pointer that was taken, and tells it.
    fn open(&mut self, outbox: &mut Outbox, orb: Offset) -> Result<(), NoMemory>
        ensures pointer { self.new ≡ record self.old { pointer = Some orb } }
        ensures told { OnOk result (outbox.new ≡ with_side outbox.old (sides.Opened 0 orb)) }
        ensures count { self.new.layer.calls ≡ self.old.layer.calls }
    {
        self.pointer = Some(orb);
        outbox.tell(Side::Opened { place: LOGIN, orb })
    }

    /// A write of DOORBELL.
    #[tactic(auto, unfolding(crate::specs::Serving::ring))]
    fn ring(
        &mut self,
        medium: &mut dyn Medium,
        outbox: &mut Outbox,
        request: &PacketRef<'_>,
        bytes: &[u8],
    ) -> Result<(), NoMemory>
        requires request { IsRequestOf bytes.now (view request.now) }
        requires suits { (rcode : ℕ) (given : List ℕ) → Gives (view request.now) rcode given }
        requires count { self.old.layer.calls + 6 ≤ 2 ^ 56 }
        ensures step { OnOk result (scene self.new outbox.new ≡ ring (view request.now) bytes.now (scene self.old outbox.old)) }
        ensures disk { disk medium.new ≡ disk medium.old }
        ensures faults { media_faults medium.new ≡ media_faults medium.old }
        ensures count { self.new.layer.calls ≤ self.old.layer.calls + 6 }
    {
        let ask = self.agent.doorbell();
        self.answer_and_fetch(medium, outbox, request, bytes, ask)
    }

    /// Answers a write of a register with complete, and sends what the fetcher then asks for.
    fn answer_and_fetch(
        &mut self,
        medium: &mut dyn Medium,
        outbox: &mut Outbox,
        request: &PacketRef<'_>,
        bytes: &[u8],
        ask: Ask,
    ) -> Result<(), NoMemory>
        requires request { IsRequestOf bytes.now (view request.now) }
        requires suits { (rcode : ℕ) (given : List ℕ) → Gives (view request.now) rcode given }
        requires count { self.old.layer.calls + 6 ≤ 2 ^ 56 }
        ensures step { OnOk result (scene self.new outbox.new ≡ fetched ask (answered (view request.now) bytes.now complete [] (scene self.old outbox.old))) }
        ensures disk { disk medium.new ≡ disk medium.old }
        ensures faults { media_faults medium.new ≡ media_faults medium.old }
        ensures count { self.new.layer.calls ≤ self.old.layer.calls + 6 }
    {
        self.answer(outbox, request, bytes, COMPLETE, &[])?;
        self.fetch(medium, outbox, ask)
    }

    /// Sends what the fetcher asks for, for the login that is served.
    fn fetch(
        &mut self,
        medium: &mut dyn Medium,
        outbox: &mut Outbox,
        ask: Ask,
    ) -> Result<(), NoMemory>
        requires count { self.old.layer.calls + 6 ≤ 2 ^ 56 }
        ensures step { OnOk result (scene self.new outbox.new ≡ fetched ask (scene self.old outbox.old)) }
        ensures disk { disk medium.new ≡ disk medium.old }
        ensures faults { media_faults medium.new ≡ media_faults medium.old }
        ensures count { self.new.layer.calls ≤ self.old.layer.calls + 6 }
    {
        let Some(login) = self.served_login() else {
            return Ok(());
        };
        self.fetch_for(medium, outbox, &login, ask)
    }
}
