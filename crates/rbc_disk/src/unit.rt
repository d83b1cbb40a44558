ghost use Rattle.std.specs.Prelude.{◌≡◌, ℕ, ◌*◌, ◌≤◌, ◌<◌, ◌^◌, length, take, None, Some, IfSome, IfNone, IfOk, IfErr, true, false, Ok};
ghost use Rattle.rbc_disk.specs.Units.{new_unit, cleared, changed_for, plain_disk, has_place, without_place};
ghost use Rattle.rbc_disk.specs.Requests.{is_inquiry, data_length, is_unfit};
ghost use Rattle.rbc_disk.specs.Runs.{need_at, NeedFits};

mod listed;

use crate::command::{BufferPlan, Need, Outcome};
use crate::medium::Medium;
use crate::perform::perform;
use crate::request::Request;
use rbc_command::{Command, Operation, Sense};
use std::marker::Model;

/// A unit (SBP-2 logical unit) apart from its medium: whether it is started, whether the removal of
/// its medium is prevented, and which places of the login table are marked for a unit attention.
#[derive(Drop)]
pub struct Unit {
    is_started: bool,
    is_prevented: bool,
    reset: u8,
    changed: u8,
}

impl Model for Unit {
    ghost use Rattle.rbc_disk.specs.Units.{UnitState};

    ghost Value = { UnitState };

    ghost view = { λ unit. record {
      is_started = unit.is_started;
      is_prevented = unit.is_prevented;
      reset = unit.reset;
      changed = unit.changed;
    } };
}

impl Unit {
    ghost use Rattle.rbc_disk.specs.Requests.{request_of, is_inquiry, is_load, Passes, data_length, answer_length};
    ghost use Rattle.rbc_disk.specs.Checks.{check_of, tray_check, mark_check, told_marks, request_check};
    ghost use Rattle.rbc_disk.specs.Runs.{need_of, NeedFits, Feeds, HasRun, check_in, is_failure, answered_length, unit_ended, unit_after_check, is_attention};

    /// A unit that is started, not prevented and has no mark.
    pub fn new() -> Unit
        ensures { result ≡ new_unit }
    {
        Unit {
            is_started: true,
            is_prevented: false,
            reset: 0,
            changed: 0,
        }
    }

    /// What a command of a login needs before it runs: its data exactly where it is a WRITE of one
    /// block or more that passes every check. `login` is the place of the login.
    pub fn needs(&self, medium: &dyn Medium, login: u8, cdb: &[u8; 12], buffer: BufferPlan) -> Need
        requires { login < 8 }
        ensures need { result ≡ need_of cdb.now buffer (plain_disk self.now (disk medium.now)) login }
        ensures fits { NeedFits result buffer }
    {
        match self.admit(medium, login, cdb, buffer) {
            Ok(request) => data_need(request, buffer),
            Err(_) => Need::RunNow,
        }
    }

    /// Runs a command of a login on a medium: the first check that holds is its outcome; where none
    /// does, it is good, with its answer at the front of `answer`, or has the check of the medium
    /// call that failed. `payload` is the data that [`Unit::needs`] asks for.
    #[tactic(auto, using(crate::proofs::CheckLemmas::answer_fits))]
    pub fn run(
        &mut self,
        medium: &mut dyn Medium,
        login: u8,
        cdb: &[u8; 12],
        buffer: BufferPlan,
        payload: &[u8],
        answer: &mut [u8],
    ) -> Outcome
        requires place { login < 8 }
        requires fed { Feeds (need_of cdb.now buffer (plain_disk self.old (disk medium.old)) login) payload.now }
        requires room { length answer.old ≡ 16384 }
        ensures { HasRun cdb.now buffer login payload.now (plain_disk self.old (disk medium.old)) (plain_disk self.new (disk medium.new)) (media_faults medium.old) (media_faults medium.new) result (take (answered_length result) answer.new) }
    {
        match self.admit(medium, login, cdb, buffer) {
            Ok(request) => {
                let outcome = perform(medium, request, payload, answer);
                self.settle(request, outcome);
                outcome
            }
            Err(sense) => {
                self.tell(sense, login);
                Outcome::Check(sense)
            }
        }
    }

    /// A unit reset: the places of the mask are marked, and the unit is started and not prevented.
    /// Bit p of the mask stands for place p of the login table.
    pub fn clear(&mut self, logins: u8)
        ensures { self.new ≡ cleared self.old logins }
    {
        self.is_started = true;
        self.is_prevented = false;
        self.reset |= logins;
    }

    /// The medium changed: the places of the mask are marked.
    pub fn changed(&mut self, logins: u8)
        ensures { self.new ≡ changed_for self.old logins }
    {
        self.changed |= logins;
    }

    /// The request of a command block, where no check holds but maybe that of a load; else the first
    /// check that holds.
    #[tactic(auto, unfolding(crate::specs::Checks::check_of), using(crate::proofs::CheckLemmas::load_steps))]
    fn admit(
        &self,
        medium: &dyn Medium,
        login: u8,
        cdb: &[u8; 12],
        buffer: BufferPlan,
    ) -> Result<Request, Sense>
        requires { login < 8 }
        ensures refused { IfErr result (λ check. check_of cdb.now buffer (plain_disk self.now (disk medium.now)) login ≡ Some check) }
        ensures no_fault { IfErr result (λ check. is_failure (Some check) ≡ false) }
        ensures admitted { IfOk result (λ request. check_of cdb.now buffer (plain_disk self.now (disk medium.now)) login ≡ tray_check request (disk medium.now)) }
        ensures request { IfOk result (λ request. request_of (disk medium.now).is_bay cdb.now ≡ Ok request) }
        ensures passes { IfOk result (λ request. Passes request (disk medium.now)) }
        ensures fit { IfOk result (λ request. is_unfit request buffer ≡ false) }
    {
        let Some(operation) = Operation::of(cdb[0]) else {
            return Err(Sense::NO_COMMAND);
        };
        if let Some(sense) = self.told_marks(operation, login) {
            return Err(sense);
        }
        let request = match Request::read(cdb, medium.is_bay()) {
            Ok(request) => request,
            Err(sense) => return Err(sense),
        };
        if request.is_load() {
            return Ok(request);
        }
        match self.request_check(medium, request, buffer) {
            Some(sense) => Err(sense),
            None => Ok(request),
        }
    }

    /// The unit attention that a login is told; INQUIRY is told none.
    fn told_marks(&self, operation: Operation, login: u8) -> Option<Sense>
        requires { login < 8 }
        ensures told { result ≡ told_marks (is_inquiry (Some operation)) (mark_check (has_place self.now.reset login) (has_place self.now.changed login)) }
        ensures no_fault { IfSome result (λ check. is_failure (Some check) ≡ false) }
    {
        if is_inquiry(operation) {
            None
        } else if has_place(self.reset, login) {
            Some(Sense::WAS_RESET)
        } else if has_place(self.changed, login) {
            Some(Sense::MEDIUM_CHANGED)
        } else {
            None
        }
    }

    /// The first check of a request that holds; a load is checked as it runs.
    fn request_check(
        &self,
        medium: &dyn Medium,
        request: Request,
        buffer: BufferPlan,
    ) -> Option<Sense>
        requires few_data { data_length request ≤ 16384 }
        requires few_answered { answer_length request ≤ 16384 }
        requires no_load { is_load request ≡ false }
        ensures first { result ≡ request_check request buffer (plain_disk self.now (disk medium.now)) }
        ensures no_fault { IfSome result (λ check. is_failure (Some check) ≡ false) }
        ensures passes { IfNone result (Passes request (disk medium.now)) }
        ensures fit { IfNone result (is_unfit request buffer ≡ false) }
    {
        if request.is_eject() && self.is_prevented {
            return Some(Sense::REMOVAL_PREVENTED);
        }
        if request.needs_medium() && !medium.is_present() {
            return Some(Sense::NO_MEDIUM);
        }
        if request.needs_medium() && !self.is_started {
            return Some(Sense::NOT_STARTED);
        }
        if request.is_outside(medium.blocks()) {
            return Some(Sense::OUTSIDE);
        }
        if request.is_write() && medium.is_protected() {
            return Some(Sense::PROTECTED);
        }
        if request.is_unfit(buffer) {
            return Some(Sense::BAD_FIELD);
        }
        None
    }

    /// A unit attention that was told is told no more.
    fn tell(&mut self, check: Sense, login: u8)
        requires { login < 8 }
        ensures { self.new ≡ unit_after_check check login self.old }
    {
        if check.key == 6 && check.code == 0x29 {
            self.reset = without_place(self.reset, login);
        } else if check.key == 6 && check.code == 0x28 {
            self.changed = without_place(self.changed, login);
        }
    }

    /// What a good request leaves of the unit.
    fn settle(&mut self, request: Request, outcome: Outcome)
        requires { is_attention (check_in outcome) ≡ false }
        ensures { (place : ℕ) → self.new ≡ unit_ended (Ok request) (check_in outcome) place self.old }
    {
        if let Outcome::Check(_) = outcome {
            return;
        }
        match request {
            Request::Plain(Command::StartStop { start }) => self.is_started = start,
            Request::Plain(Command::Prevent { on }) => self.is_prevented = on,
            Request::Load => self.is_started = true,
            Request::Eject => self.is_started = false,
            Request::Plain(_) => {}
        }
    }
}

/// Whether it is INQUIRY.
fn is_inquiry(operation: Operation) -> bool
    ensures { result ≡ is_inquiry (Some operation) }
{
    matches!(operation, Operation::Inquiry)
}

/// The data that an admitted request needs.
#[tactic(auto, using(crate::proofs::CheckLemmas::sent_data))]
fn data_need(request: Request, buffer: BufferPlan) -> Need
    requires few { data_length request ≤ 16384 }
    requires fit { is_unfit request buffer ≡ false }
    ensures need { result ≡ need_at None (data_length request) }
    ensures fits { NeedFits result buffer }
{
    match request.data_length() {
        0 => Need::RunNow,
        len => Need::Payload(len as u16),
    }
}

/// Whether a place is in a set of places.
fn has_place(places: u8, place: u8) -> bool
    requires { place < 8 }
    ensures { result ≡ has_place places place }
{
    places >> place & 1 == 1
}

/// The set of places without one of them.
fn without_place(places: u8, place: u8) -> u8
    requires { place < 8 }
    ensures { result ≡ without_place places place }
{
    places & !(1 << place)
}
