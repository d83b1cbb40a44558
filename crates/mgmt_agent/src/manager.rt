ghost use Rattle.std.specs.Prelude.{◌≡◌, ◌≤◌, ◌<◌, ◌+◌, ◌*◌, ◌^◌, length, Some, None, Ok, Err, IfOk, IsSome, OnErr};
ghost use Rattle.orb_layout.specs.ManagementOrbs.{management_orb};
ghost use Rattle.orb_layout.specs.Replies.{answer_of, lent};
ghost use Rattle.mgmt_agent.specs.Machine.{clear_step, decide_step, fail_step, eui_step, high_got, low_got, new_machine, orb_got, reply_in, reply_step, response_written, start_step, status_step, status_written, respond_step, source_in};

use crate::decide::{decide, reads_eui};
use crate::decision::ManagerStep;
use crate::operation::{Busy, Operation, Phase};
use crate::outgoing::Outgoing;
use crate::status::Status;
use login_table::Logins;
use orb_layout::{Ask, FailCause, ManagementOrb, Reply};
use sbp_base::{NodeId, Offset, quad_at};
use std::marker::Model;

/// The high quadlet of the EUI-64 in a node's ROM.
const HIGH_EUI: u64 = 0xffff_f000_040c;

/// The low quadlet of the EUI-64 in a node's ROM.
const LOW_EUI: u64 = 0xffff_f000_0410;

/// The management agent of a target, which has one operation under way at most.
#[derive(Drop)]
pub struct Manager {
    operation: Option<Operation>,
    outgoing: Outgoing,
}

impl Model for Manager {
    ghost use Rattle.mgmt_agent.specs.Machine.{Machine};

    ghost Value = { Machine };

    ghost view = { λ a. record { operation = a.operation; outgoing = a.outgoing } };
}

impl Manager {
    /// No operation is under way, and no write was asked for.
    pub fn new() -> Manager
        ensures { result ≡ new_machine }
    {
        Manager {
            operation: None,
            outgoing: Outgoing::new(),
        }
    }

    /// Starts an operation: the node `source` wrote the address of a management ORB. Asks for the
    /// read of its 32 bytes. `Busy` exactly while an operation is under way; nothing changes then.
    #[tactic(auto, unfolding(crate::specs::Machine::start_step))]
    pub fn start(&mut self, source: NodeId, orb: Offset) -> Result<Ask, Busy>
        ensures step { (result, self.new) ≡ start_step self.old source orb }
        ensures busy { OnErr result (self.new ≡ self.old) }
    {
        if self.operation.is_some() {
            return Err(Busy);
        }
        self.operation = Some(Operation {
            source,
            orb,
            phase: Phase::Orb,
        });
        Ok(Ask::Read {
            offset: orb,
            length: 32,
        })
    }

    /// The node whose operation is under way; there is none exactly while none is.
    pub fn source(&self) -> Option<NodeId>
        ensures { result ≡ source_in self.now.operation }
    {
        match self.operation {
            Some(operation) => Some(operation.source),
            None => None,
        }
    }

    /// The bytes of the write last asked for.
    pub fn outgoing(&self) -> &[u8]
        ensures value { result.now ≡ self.now.outgoing }
        ensures most { length result.now ≤ 100 }
    {
        self.outgoing.as_slice()
    }

    /// Ends the operation that is under way, if one is.
    pub fn clear(&mut self)
        ensures { self.new ≡ clear_step self.old }
    {
        self.operation = None;
    }

    /// Takes the reply to what was asked last, beside the logins and the key of each unit, zeros for
    /// none, and answers what is to be sent next. The step tells the decision on the ORB once, before
    /// what follows from it is sent. `failed` says why the operation ended early: `Timeout`, `Label` or
    /// `Refused` exactly at the reply `Expired`, `NoLabel` or `Refused`, and `Grammar` exactly at a
    /// payload of another length than asked for. What was decided then stays.
    #[tactic(auto, unfolding(crate::specs::Machine::reply_step))]
    pub fn reply(&mut self, logins: &mut Logins, keys: &[[u8; 8]], reply: Reply<'_>) -> ManagerStep
        requires { IsSome (source_in self.old.operation) }
        ensures { (result, (self.new, logins.new)) ≡ reply_step self.old logins.old keys.now (answer_of reply.entry) }
    {
        match self.operation {
            Some(operation) => self.answered(operation, logins, keys, reply),
            None => unreachable!(),
        }
    }

    /// Takes the reply to what the operation waits for.
    fn answered(
        &mut self,
        operation: Operation,
        logins: &mut Logins,
        keys: &[[u8; 8]],
        reply: Reply<'_>,
    ) -> ManagerStep
        ensures { (result, (self.new, logins.new)) ≡ reply_in operation.phase self.old operation logins.old keys.now (answer_of reply.entry) }
    {
        let phase = operation.phase;
        match phase {
            Phase::Orb => self.orb_got(operation, logins, keys, reply.payload(32)),
            Phase::HighEui(orb) => self.high_got(operation, orb, reply.payload(4)),
            Phase::LowEui(orb, high) => {
                self.low_got(operation, orb, high, logins, keys, reply.payload(4))
            }
            Phase::Response(fifo) => self.response_written(operation, fifo, reply.write_failure()),
            Phase::Status => self.status_written(reply.write_failure()),
        }
    }

    /// The ORB was read: the EUI-64 of the source is read next, or the ORB is decided.
    fn orb_got(
        &mut self,
        operation: Operation,
        logins: &mut Logins,
        keys: &[[u8; 8]],
        bytes: Result<&[u8], FailCause>,
    ) -> ManagerStep
        requires { IfOk bytes (λ bytes. length bytes.now ≡ 32) }
        ensures { (result, (self.new, logins.new)) ≡ orb_got (lent bytes.entry) self.old operation logins.old keys.now }
    {
        let bytes = match bytes {
            Err(cause) => return self.fail(cause),
            Ok(bytes) => bytes,
        };
        let orb = orb_at(bytes);
        if reads_eui(&orb) {
            return self.read_eui(operation, Phase::HighEui(orb), HIGH_EUI);
        }
        self.decide(operation, &orb, 0, logins, keys)
    }

    /// The high quadlet of the EUI-64 was read: the low one is read next.
    fn high_got(
        &mut self,
        operation: Operation,
        orb: ManagementOrb,
        bytes: Result<&[u8], FailCause>,
    ) -> ManagerStep
        requires { IfOk bytes (λ bytes. length bytes.now ≡ 4) }
        ensures { (result, self.new) ≡ high_got (lent bytes.entry) self.old operation orb }
    {
        let bytes = match bytes {
            Err(cause) => return self.fail(cause),
            Ok(bytes) => bytes,
        };
        self.read_eui(operation, Phase::LowEui(orb, quad_at(bytes, 0)), LOW_EUI)
    }

    /// The EUI-64 was read: the ORB is decided.
    fn low_got(
        &mut self,
        operation: Operation,
        orb: ManagementOrb,
        high: u32,
        logins: &mut Logins,
        keys: &[[u8; 8]],
        bytes: Result<&[u8], FailCause>,
    ) -> ManagerStep
        requires { IfOk bytes (λ bytes. length bytes.now ≡ 4) }
        ensures { (result, (self.new, logins.new)) ≡ low_got (lent bytes.entry) self.old operation orb high logins.old keys.now }
    {
        let bytes = match bytes {
            Err(cause) => return self.fail(cause),
            Ok(bytes) => bytes,
        };
        let eui = (u64::from(high) << 32) + u64::from(quad_at(bytes, 0));
        self.decide(operation, &orb, eui, logins, keys)
    }

    /// The response was written: the status block is next, with status 00.
    fn response_written(
        &mut self,
        operation: Operation,
        fifo: Offset,
        failure: Option<FailCause>,
    ) -> ManagerStep
        ensures { (result, self.new) ≡ response_written failure self.old operation fifo }
    {
        match failure {
            Some(cause) => self.fail(cause),
            None => self.write_status(operation, fifo, Status::NoFault),
        }
    }

    /// The status block was written, and the operation ends.
    fn status_written(&mut self, failure: Option<FailCause>) -> ManagerStep
        ensures { (result, self.new) ≡ status_written failure self.old }
    {
        if let Some(cause) = failure {
            return self.fail(cause);
        }
        self.operation = None;
        ManagerStep::quiet(Ask::Nothing)
    }

    /// Decides the ORB, and asks for what is written first: the response, or the status block.
    #[tactic(auto, unfolding(crate::specs::Machine::decide_step))]
    fn decide(
        &mut self,
        operation: Operation,
        orb: &ManagementOrb,
        eui: u64,
        logins: &mut Logins,
        keys: &[[u8; 8]],
    ) -> ManagerStep
        ensures { (result, (self.new, logins.new)) ≡ decide_step self.old operation orb.now eui logins.old keys.now }
    {
        let outcome = decide(orb, operation.source, eui, logins, keys);
        self.outgoing
            .put_response(outcome.response, logins, orb.response_length);
        self.respond(operation, orb, outcome.status)
            .telling(orb, &outcome)
    }

    /// Asks for the write of the response that was put; where it is empty, of the status block.
    fn respond(&mut self, operation: Operation, orb: &ManagementOrb, status: Status) -> ManagerStep
        ensures { (result, self.new) ≡ respond_step self.old operation orb.now status }
    {
        let length = self.outgoing.as_slice().len();
        if length == 0 {
            return self.write_status(operation, orb.fifo, status);
        }
        self.operation = Some(Operation {
            phase: Phase::Response(orb.fifo),
            ..operation
        });
        ManagerStep::quiet(Ask::Write {
            offset: orb.second,
            length: length as u16,
        })
    }

    /// Asks for the write of the status block to a FIFO.
    fn write_status(&mut self, operation: Operation, fifo: Offset, status: Status) -> ManagerStep
        ensures { (result, self.new) ≡ status_step self.old operation fifo status }
    {
        self.outgoing.put_status(operation.orb, status);
        self.operation = Some(Operation {
            phase: Phase::Status,
            ..operation
        });
        ManagerStep::quiet(Ask::Write {
            offset: fifo,
            length: 8,
        })
    }

    /// Asks for the read of a quadlet of the source's EUI-64.
    fn read_eui(&mut self, operation: Operation, phase: Phase, at: u64) -> ManagerStep
        requires { at < 2 ^ 48 }
        ensures { (result, self.new) ≡ eui_step self.old operation phase at }
    {
        self.operation = Some(Operation { phase, ..operation });
        match Offset::new(at) {
            Some(offset) => ManagerStep::quiet(Ask::Read { offset, length: 4 }),
            None => unreachable!(),
        }
    }

    /// The operation ends early.
    fn fail(&mut self, cause: FailCause) -> ManagerStep
        ensures { (result, self.new) ≡ fail_step self.old cause }
    {
        self.operation = None;
        ManagerStep::failing(cause)
    }
}

/// The ORB in its 32 bytes.
fn orb_at(bytes: &[u8]) -> ManagementOrb
    requires { length bytes.now ≡ 32 }
    ensures { result ≡ management_orb bytes.now }
{
    match ManagementOrb::read(bytes) {
        Ok(orb) => orb,
        Err(_) => unreachable!(),
    }
}
