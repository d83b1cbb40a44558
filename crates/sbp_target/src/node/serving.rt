ghost use Rattle.std.specs.Prelude.{◌≡◌, ℕ, ◌+◌, ◌^◌, ◌<◌, ◌≤◌, List, [], length, take, drop, IfOk, OnOk};
ghost use Rattle.async_packet.specs.Packet.{view, header_in};
ghost use Rattle.label_table.specs.Bodies.{Gives};
ghost use Rattle.label_table.specs.Requests.{IsRequestOf};
ghost use Rattle.target_base.specs.Addresses.{IsWithin, complete, demand_of};
ghost use Rattle.sbp_target.specs.Giving.{Suits, SuitsAccess};
ghost use Rattle.sbp_target.specs.Counting.{LeavesCount};
ghost use Rattle.sbp_target.specs.Management.{ask_manager};
ghost use Rattle.sbp_target.specs.Nodes.{desk_at, scene};
ghost use Rattle.sbp_journal.specs.declared.side.Side.TheVariants as sides;
ghost use Rattle.sbp_target.specs.Sending.{with_side};
ghost use Rattle.sbp_target.specs.Telling.{orb_of};
ghost use Rattle.sbp_target.specs.Serving.{accessed_by, answered, asked_at, is_barred, last_pointer, point, pointer_bytes, rcode_of, request_step, ring, serve, served_as, start, state_number};

use super::Node;
use crate::sending::send_response;
use crate::telling::orb_of;
use async_packet::PacketRef;
use command_agent::{AgentState, AgentStep, PointRefusal};
use orb_layout::{Ask, OrbPointer};
use sbp_base::{NoMemory, Offset, bytes_of_quad, put_quad};
use sbp_journal::{Cause, CutCause, Judged, Outbox, Side};
use target_base::{ADDRESS, Access, COMPLETE, CONFLICT, DATA, Demand, LoginPlace, demand_of};

/// The number of a state, which AGENT_STATE tells.
fn state_number(state: AgentState) -> u32
    ensures { result ≡ state_number state }
{
    match state {
        AgentState::Reset => 0,
        AgentState::Active => 1,
        AgentState::Suspended => 2,
        AgentState::Dead => 3,
    }
}

/// What ORB_POINTER tells: the pointer last taken, or a null one.
fn last_pointer(pointer: &Option<Offset>) -> OrbPointer
    ensures { result ≡ last_pointer pointer.now }
{
    match pointer {
        Some(orb) => OrbPointer::At(*orb),
        None => OrbPointer::Null,
    }
}

/// Its bytes.
fn pointer_bytes(pointer: &Option<Offset>) -> [u8; 8]
    ensures bytes { result ≡ pointer_bytes (last_pointer pointer.now) }
    ensures size { length result ≡ 8 }
{
    let mut bytes = [0; 8];
    put_quad(&mut bytes, 0, last_pointer(pointer).high());
    put_quad(&mut bytes, 4, last_pointer(pointer).low());
    bytes
}

/// Why a pointer was not taken, as an rcode.
fn rcode_of(refusal: PointRefusal) -> u8
    ensures { result ≡ rcode_of refusal }
{
    match refusal {
        PointRefusal::Conflict => CONFLICT,
        PointRefusal::Null => DATA,
    }
}

/// What a request that was got asks for, with a ROM of `size` bytes.
fn demand_in(size: usize, request: &PacketRef<'_>) -> Demand
    requires { size ≤ 1024 }
    ensures demand { result ≡ demand_of size (view request.now) }
    ensures within { IsWithin size result }
    ensures suits { Suits (view request.now) result }
{
    demand_of(size, request)
}

impl Node {
    /// Judges a request that is none of those that a transaction layer ignores: one for an agent
    /// register that belongs to no live login of its source is ignored; else it is served.
    #[tactic(auto, unfolding(crate::specs::Serving::request_step), using(crate::proofs::Giving::refused_gives))]
    pub(super) fn request(
        &mut self,
        outbox: &mut Outbox,
        request: &PacketRef<'_>,
        bytes: &[u8],
    ) -> Result<Judged, NoMemory>
        requires request { IsRequestOf bytes.now (view request.now) }
        requires count { self.old.layer.calls + 3 ≤ 2 ^ 56 }
        ensures step { IfOk result (λ judged. (judged, scene self.new outbox.new) ≡ request_step (view request.now) bytes.now (scene self.old outbox.old)) }
        ensures count { self.new.layer.calls ≤ self.old.layer.calls + 3 }
        ensures ignored { IfOk result (λ judged. LeavesCount judged self.old.layer.calls self.new.layer.calls) }
        ensures units { length self.new.units ≡ length self.old.units }
    {
        if self.is_barred(request) {
            self.answer(outbox, request, bytes, ADDRESS, &[])?;
            return Ok(Judged::Ignored(Cause::Login));
        }
        self.serve(outbox, request, bytes)?;
        Ok(Judged::Got)
    }

    /// Whether a request reads or writes an agent register that belongs to no live login of its source.
    #[tactic(auto, unfolding(crate::specs::Serving::is_barred))]
    fn is_barred(&self, request: &PacketRef<'_>) -> bool
        ensures { result ≡ is_barred self.now (view request.now) }
    {
        target_base::is_barred(&self.logins, request)
    }

    /// Answers a request.
    pub(super) fn answer(
        &mut self,
        outbox: &mut Outbox,
        request: &PacketRef<'_>,
        bytes: &[u8],
        rcode: u8,
        given: &[u8],
    ) -> Result<(), NoMemory>
        requires request { IsRequestOf bytes.now (view request.now) }
        requires rcode { rcode < 2 ^ 4 }
        requires given { Gives (view request.now) rcode given.now }
        ensures step { OnOk result (scene self.new outbox.new ≡ answered (view request.now) bytes.now rcode given.now (scene self.old outbox.old)) }
        ensures count { self.new.layer.calls ≡ self.old.layer.calls }
        ensures units { length self.new.units ≡ length self.old.units }
    {
        send_response(
            &mut self.layer,
            outbox,
            self.alloc,
            request,
            bytes,
            rcode,
            given,
        )
    }

    /// Does what a request that was got asks for, and answers it.
    #[tactic(auto, unfolding(crate::specs::Serving::serve), using(crate::proofs::Giving::refused_gives))]
    fn serve(
        &mut self,
        outbox: &mut Outbox,
        request: &PacketRef<'_>,
        bytes: &[u8],
    ) -> Result<(), NoMemory>
        requires request { IsRequestOf bytes.now (view request.now) }
        requires count { self.old.layer.calls + 3 ≤ 2 ^ 56 }
        ensures step { OnOk result (scene self.new outbox.new ≡ serve (view request.now) bytes.now (scene self.old outbox.old)) }
        ensures count { self.new.layer.calls ≤ self.old.layer.calls + 3 }
        ensures units { length self.new.units ≡ length self.old.units }
    {
        match demand_in(self.rom.len(), request) {
            Demand::Refused(rcode) => self.answer(outbox, request, bytes, rcode, &[]),
            Demand::Rom { at, length } => self.give_rom(outbox, request, bytes, at, length),
            Demand::Manage(orb) => self.start(outbox, request, bytes, orb),
            Demand::Agent(place, access) => self.access(outbox, request, bytes, place, access),
        }
    }

    /// Answers a read inside the ROM.
    fn give_rom(
        &mut self,
        outbox: &mut Outbox,
        request: &PacketRef<'_>,
        bytes: &[u8],
        at: usize,
        size: usize,
    ) -> Result<(), NoMemory>
        requires request { IsRequestOf bytes.now (view request.now) }
        requires within { at + size ≤ length self.old.rom }
        requires suits { (given : List ℕ) → length given ≡ size → Gives (view request.now) complete given }
        ensures step { OnOk result (scene self.new outbox.new ≡ answered (view request.now) bytes.now complete (take size (drop at self.old.rom)) (scene self.old outbox.old)) }
        ensures count { self.new.layer.calls ≡ self.old.layer.calls }
        ensures units { length self.new.units ≡ length self.old.units }
    {
        let given = &self.rom[at..at + size];
        send_response(
            &mut self.layer,
            outbox,
            self.alloc,
            request,
            bytes,
            COMPLETE,
            given,
        )
    }

    /// Does what is asked of the agent of a place, and answers it.
    fn access(
        &mut self,
        outbox: &mut Outbox,
        request: &PacketRef<'_>,
        bytes: &[u8],
        place: LoginPlace,
        access: Access,
    ) -> Result<(), NoMemory>
        requires request { IsRequestOf bytes.now (view request.now) }
        requires suits { SuitsAccess (view request.now) access }
        requires count { self.old.layer.calls + 3 ≤ 2 ^ 56 }
        ensures step { OnOk result (scene self.new outbox.new ≡ accessed_by access place (view request.now) bytes.now (scene self.old outbox.old)) }
        ensures count { self.new.layer.calls ≤ self.old.layer.calls + 3 }
        ensures units { length self.new.units ≡ length self.old.units }
    {
        let index = place.index();
        match access {
            Access::State => {
                let number = state_number(self.desks[index].agent.state());
                self.answer(outbox, request, bytes, COMPLETE, &bytes_of_quad(number))
            }
            Access::Reset => {
                self.cut(outbox, place, CutCause::AgentReset)?;
                self.answer(outbox, request, bytes, COMPLETE, &[])
            }
            Access::Point(pointer) => self.point(outbox, request, bytes, place, pointer),
            Access::Pointer => {
                let given = pointer_bytes(&self.desks[index].pointer);
                self.answer(outbox, request, bytes, COMPLETE, &given)
            }
            Access::Ring => self.ring(outbox, request, bytes, place),
            Access::Enable => self.enable(outbox, request, bytes, place),
        }
    }

    /// A write of ORB_POINTER.
    #[tactic(auto, unfolding(crate::specs::Serving::point))]
    fn point(
        &mut self,
        outbox: &mut Outbox,
        request: &PacketRef<'_>,
        bytes: &[u8],
        place: LoginPlace,
        pointer: OrbPointer,
    ) -> Result<(), NoMemory>
        requires request { IsRequestOf bytes.now (view request.now) }
        requires suits { (rcode : ℕ) (given : List ℕ) → Gives (view request.now) rcode given }
        requires count { self.old.layer.calls + 3 ≤ 2 ^ 56 }
        ensures step { OnOk result (scene self.new outbox.new ≡ point place pointer (view request.now) bytes.now (scene self.old outbox.old)) }
        ensures count { self.new.layer.calls ≤ self.old.layer.calls + 3 }
        ensures units { length self.new.units ≡ length self.old.units }
    {
        let desk = &mut self.desks[place.index()];
        match desk.point(pointer) {
            Err(refusal) => self.answer(outbox, request, bytes, rcode_of(refusal), &[]),
            Ok(ask) => {
                self.tell_opened(outbox, place)?;
                self.answer_and_ask(outbox, request, bytes, place, ask)
            }
        }
    }

    /// Tells that the agent of a place took a pointer.
    fn tell_opened(&self, outbox: &mut Outbox, place: LoginPlace) -> Result<(), NoMemory>
        ensures { OnOk result (outbox.new ≡ with_side outbox.old (sides.Opened place (orb_of (desk_at self.now place).agent))) }
    {
        let desk = &self.desks[place.index()];
        outbox.tell(Side::Opened {
            place: place.number(),
            orb: orb_of(&desk.agent),
        })
    }

    /// A write of DOORBELL.
    #[tactic(auto, unfolding(crate::specs::Serving::ring))]
    fn ring(
        &mut self,
        outbox: &mut Outbox,
        request: &PacketRef<'_>,
        bytes: &[u8],
        place: LoginPlace,
    ) -> Result<(), NoMemory>
        requires request { IsRequestOf bytes.now (view request.now) }
        requires suits { (rcode : ℕ) (given : List ℕ) → Gives (view request.now) rcode given }
        requires count { self.old.layer.calls + 3 ≤ 2 ^ 56 }
        ensures step { OnOk result (scene self.new outbox.new ≡ ring place (view request.now) bytes.now (scene self.old outbox.old)) }
        ensures count { self.new.layer.calls ≤ self.old.layer.calls + 3 }
        ensures units { length self.new.units ≡ length self.old.units }
    {
        let ask = self.desks[place.index()].agent.doorbell();
        self.answer_and_ask(outbox, request, bytes, place, ask)
    }

    /// Answers a write of a register with complete, and sends what the agent of a place then asks for.
    fn answer_and_ask(
        &mut self,
        outbox: &mut Outbox,
        request: &PacketRef<'_>,
        bytes: &[u8],
        place: LoginPlace,
        ask: Ask,
    ) -> Result<(), NoMemory>
        requires request { IsRequestOf bytes.now (view request.now) }
        requires suits { (rcode : ℕ) (given : List ℕ) → Gives (view request.now) rcode given }
        requires count { self.old.layer.calls + 3 ≤ 2 ^ 56 }
        ensures step { OnOk result (scene self.new outbox.new ≡ asked_at place ask (answered (view request.now) bytes.now complete [] (scene self.old outbox.old))) }
        ensures count { self.new.layer.calls ≤ self.old.layer.calls + 3 }
        ensures units { length self.new.units ≡ length self.old.units }
    {
        self.answer(outbox, request, bytes, COMPLETE, &[])?;
        self.ask_at(outbox, place, ask)
    }

    /// Sends what the agent of a place asks for at a write of its registers.
    fn ask_at(&mut self, outbox: &mut Outbox, place: LoginPlace, ask: Ask) -> Result<(), NoMemory>
        requires count { self.old.layer.calls + 3 ≤ 2 ^ 56 }
        ensures step { OnOk result (scene self.new outbox.new ≡ asked_at place ask (scene self.old outbox.old)) }
        ensures count { self.new.layer.calls ≤ self.old.layer.calls + 3 }
        ensures units { length self.new.units ≡ length self.old.units }
    {
        let Some(login) = self.logins.at(place.number()) else {
            return Ok(());
        };
        let step = AgentStep {
            ask,
            ahead: Ask::Nothing,
            promoted: false,
            ran: None,
            ended: None,
            dead: None,
        };
        self.follow(outbox, place, &login, step)
    }

    /// A write of MANAGEMENT_AGENT.
    #[tactic(auto, unfolding(crate::specs::Serving::start))]
    fn start(
        &mut self,
        outbox: &mut Outbox,
        request: &PacketRef<'_>,
        bytes: &[u8],
        orb: Offset,
    ) -> Result<(), NoMemory>
        requires request { IsRequestOf bytes.now (view request.now) }
        requires suits { (rcode : ℕ) (given : List ℕ) → Gives (view request.now) rcode given }
        requires count { self.old.layer.calls < 2 ^ 56 }
        ensures step { OnOk result (scene self.new outbox.new ≡ start orb (view request.now) bytes.now (scene self.old outbox.old)) }
        ensures count { self.new.layer.calls ≤ self.old.layer.calls + 1 }
        ensures units { length self.new.units ≡ length self.old.units }
    {
        let source = request.header().source;
        match self.manager.start(source, orb) {
            Err(_) => self.answer(outbox, request, bytes, CONFLICT, &[]),
            Ok(ask) => self.answer_and_manage(outbox, request, bytes, ask),
        }
    }

    /// Answers a write of MANAGEMENT_AGENT with complete, and sends what the operation of its source
    /// then asks for.
    fn answer_and_manage(
        &mut self,
        outbox: &mut Outbox,
        request: &PacketRef<'_>,
        bytes: &[u8],
        ask: Ask,
    ) -> Result<(), NoMemory>
        requires request { IsRequestOf bytes.now (view request.now) }
        requires suits { (rcode : ℕ) (given : List ℕ) → Gives (view request.now) rcode given }
        requires count { self.old.layer.calls < 2 ^ 56 }
        ensures step { OnOk result (scene self.new outbox.new ≡ ask_manager (header_in (view request.now)).source ask (answered (view request.now) bytes.now complete [] (scene self.old outbox.old))) }
        ensures count { self.new.layer.calls ≤ self.old.layer.calls + 1 }
        ensures units { length self.new.units ≡ length self.old.units }
    {
        self.answer(outbox, request, bytes, COMPLETE, &[])?;
        self.ask_manager(outbox, request.header().source, ask)
    }
}
