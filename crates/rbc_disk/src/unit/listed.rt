ghost use Rattle.std.specs.Prelude.{◌≡◌, ◌<◌, length, take, map, slice_set, slice_index};
ghost use Rattle.rbc_disk.specs.Disk.{disk_at};
ghost use Rattle.rbc_disk.specs.Units.{plain_disk};
ghost use Rattle.rbc_disk.specs.Runs.{need_of, NeedFits, Feeds, HasRun, answered_length};

use crate::command::{BufferPlan, Need, Outcome};
use crate::medium::Medium;
use crate::unit::Unit;

/// [`Unit::needs`] over a boxed medium.
fn needs_boxed(
    unit: &Unit,
    medium: &Box<dyn Medium>,
    login: u8,
    cdb: &[u8; 12],
    buffer: BufferPlan,
) -> Need
    requires { login < 8 }
    ensures need { result ≡ need_of cdb.now buffer (plain_disk unit.now (disk medium.now)) login }
    ensures fits { NeedFits result buffer }
{
    unit.needs(&**medium, login, cdb, buffer)
}

/// [`Unit::run`] over a boxed medium.
fn run_boxed(
    unit: &mut Unit,
    medium: &mut Box<dyn Medium>,
    login: u8,
    cdb: &[u8; 12],
    buffer: BufferPlan,
    payload: &[u8],
    answer: &mut [u8],
) -> Outcome
    requires place { login < 8 }
    requires fed { Feeds (need_of cdb.now buffer (plain_disk unit.old (disk medium.old)) login) payload.now }
    requires room { length answer.old ≡ 16384 }
    ensures { HasRun cdb.now buffer login payload.now (plain_disk unit.old (disk medium.old)) (plain_disk unit.new (disk medium.new)) (media_faults medium.old) (media_faults medium.new) result (take (answered_length result) answer.new) }
{
    unit.run(&mut **medium, login, cdb, buffer, payload, answer)
}

impl Unit {
    /// [`Unit::needs`] over the medium at a place of a list.
    #[tactic(auto, using(crate::proofs::MediaLists::media_steps))]
    pub fn needs_at(
        &self,
        media: &Vec<Box<dyn Medium>>,
        index: usize,
        login: u8,
        cdb: &[u8; 12],
        buffer: BufferPlan,
    ) -> Need
        requires index { index < length media.now.items }
        requires place { login < 8 }
        ensures need { result ≡ need_of cdb.now buffer (plain_disk self.now (disk_at (map disk media.now.items) index)) login }
        ensures fits { NeedFits result buffer }
    {
        needs_boxed(self, &media[index], login, cdb, buffer)
    }

    /// [`Unit::run`] over the medium at a place of a list; the other media stay as they are.
    #[tactic(auto, using(crate::proofs::MediaLists::media_steps))]
    pub fn run_at(
        &mut self,
        media: &mut Vec<Box<dyn Medium>>,
        index: usize,
        login: u8,
        cdb: &[u8; 12],
        buffer: BufferPlan,
        payload: &[u8],
        answer: &mut [u8],
    ) -> Outcome
        requires index { index < length media.old.items }
        requires place { login < 8 }
        requires fed { Feeds (need_of cdb.now buffer (plain_disk self.old (disk_at (map disk media.old.items) index)) login) payload.now }
        requires room { length answer.old ≡ 16384 }
        ensures count { length media.new.items ≡ length media.old.items }
        ensures ran { HasRun cdb.now buffer login payload.now (plain_disk self.old (disk_at (map disk media.old.items) index)) (plain_disk self.new (disk_at (map disk media.new.items) index)) (slice_index (map media_faults media.old.items) index) (slice_index (map media_faults media.new.items) index) result (take (answered_length result) answer.new) }
        ensures media { map disk media.new.items ≡ slice_set (map disk media.old.items) index (disk_at (map disk media.new.items) index) }
        ensures counts { map media_faults media.new.items ≡ slice_set (map media_faults media.old.items) index (slice_index (map media_faults media.new.items) index) }
    {
        run_boxed(self, &mut media[index], login, cdb, buffer, payload, answer)
    }
}
