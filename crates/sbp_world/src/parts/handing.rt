ghost use Rattle.std.specs.Prelude.{◌≡◌, ◌<◌, length, OnOk};
ghost use Rattle.sbp_world.specs.Handing.{handed_out};
ghost use Rattle.sbp_world.specs.Telling.{told_all};

use super::Parts;
use sbp_base::NoMemory;
use sbp_journal::Outbox;

impl Parts {
    /// Makes the notes of all that a node tells, in its order. An ORB that it prepares counts so much.
    #[inline(always)]
    pub(super) fn tell_all(&mut self, weight: u64, outbox: &mut Outbox) -> Result<(), NoMemory>
        ensures told { OnOk result (self.new ≡ told_all weight outbox.old.sides self.old) }
        ensures packets { outbox.new.packets ≡ outbox.old.packets }
        ensures bus { self.new.generations ≡ self.old.generations }
        ensures target { self.new.target ≡ self.old.target }
    {
        while let Some(side) = outbox.take_side() {
            self.tell(weight, side)?;
        }
        Ok(())
    }

    /// What a node hands out in a call: it tells, then its packets leave.
    #[inline(always)]
    pub(super) fn hand_out(
        &mut self,
        node: u8,
        weight: u64,
        outbox: &mut Outbox,
    ) -> Result<(), NoMemory>
        requires { node < length self.old.generations.seen }
        ensures step { OnOk result (self.new ≡ handed_out node weight outbox.old self.old) }
        ensures bus { self.new.generations ≡ self.old.generations }
        ensures target { self.new.target ≡ self.old.target }
    {
        self.tell_all(weight, outbox)?;
        self.bus.send_all(node, outbox)
    }
}
