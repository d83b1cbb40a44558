ghost use Rattle.std.specs.Prelude.{◌≡◌, ◌≤◌, IfOk};
ghost use Rattle.sbp_world.specs.Making.{new_world};

use sbp_base::NoMemory;
use sbp_world::World;
use std::alloc::Global;

/// A run begins. Its world is large, so it stands on the heap.
pub(crate) fn begin_world(
    alloc: Global,
    initiators: u8,
    ready: bool,
    units: u8,
) -> Result<Box<World>, NoMemory>
    requires some { 1 ≤ initiators }
    requires few { initiators ≤ 4 }
    requires one { 1 ≤ units }
    requires units { units ≤ 4 }
    ensures { IfOk result (λ world. world.value ≡ new_world initiators ready units) }
{
    Ok(Box::new(alloc, World::begin(alloc, initiators, ready, units)?)?)
}
