ghost use Rattle.std.specs.Prelude.{◌≡◌, ◌<◌, length};
ghost use Rattle.rbc_disk.specs.Units.{plain_disk};
ghost use Rattle.rbc_disk.specs.Runs.{told_in, left_by};

use super::{Agent, ORB_SIZE, orb_in};
use crate::phase::Phase;
use crate::step::AgentStep;
use orb_layout::{OrbPointer, Reply, StatusKind};
use rbc_disk::{Medium, Unit};
use sbp_base::Offset;

/// An agent with one ORB alone: the unordered unit works each ORB by such an agent. Another reads the
/// ORB and, later, its next pointer; nothing is read ahead, and no ORB follows.
impl Agent {
    ghost use Rattle.orb_layout.specs.Replies.{answer_of};
    ghost use Rattle.command_agent.specs.Machine.{is_sent};
    ghost use Rattle.command_agent.specs.Runs.{MayTell, count_after};
    ghost use Rattle.command_agent.specs.Tasks.{begin_step, relinked, writes_status};

    /// Begins the ORB at an address, by what came of its read: its bytes are checked and its first
    /// request is made, or it ends as failed. `login` is the place of the login.
    #[tactic(auto, unfolding(crate::specs::Tasks::begin_step))]
    pub fn begin_orb(
        &mut self,
        unit: &mut Unit,
        medium: &mut dyn Medium,
        login: u8,
        orb: Offset,
        reply: Reply<'_>,
    ) -> AgentStep
        requires place { login < 8 }
        ensures step { (result, self.new) ≡ begin_step self.old login (plain_disk unit.old (disk medium.old)) (told_in result.ran self.new.answer) orb (answer_of reply.entry) }
        ensures plain { plain_disk unit.new (disk medium.new) ≡ left_by result.ran self.new.orb.cdb self.new.payload login (plain_disk unit.old (disk medium.old)) }
        ensures may { MayTell result.ran self.new login (plain_disk unit.old (disk medium.old)) }
        ensures cause { media_faults medium.new ≡ count_after result.ran (media_faults medium.old) }
    {
        self.turn_to(orb);
        match reply.payload(usize::from(ORB_SIZE)) {
            Ok(bytes) => {
                self.orb = orb_in(bytes);
                self.check(unit, medium, login)
            }
            Err(cause) => self.end(StatusKind::Failed, Some(cause)),
        }
    }

    /// The next pointer of its ORB, as it was last read.
    pub fn next(&self) -> OrbPointer
        ensures { result ≡ self.now.orb.next }
    {
        self.orb.next
    }

    /// Another read the next pointer of its ORB again.
    pub fn relink(&mut self, next: OrbPointer)
        ensures { self.new ≡ relinked self.old next }
    {
        self.orb.next = next;
    }

    /// Whether the status block of its ORB is being written.
    pub fn writes_status(&self) -> bool
        ensures { result ≡ writes_status self.now.phase }
    {
        matches!(self.phase, Phase::WritingStatus | Phase::WritingLastStatus)
    }
}
