ghost use Rattle.std.specs.Prelude.{◌≡◌, ◌≤◌, length, replicate, IfOk};
ghost use Rattle.sbp_target.specs.Desks.{new_desk};
ghost use Rattle.sbp_target.specs.Receiving.{new_node};

use super::Node;
use crate::desk::Desk;
use label_table::Transactions;
use mgmt_agent::Manager;
use sbp_base::{NoMemory, NodeId};
use std::alloc::Global;
use target_base::{Beginning, ready_logins};

/// A desk for each place.
fn new_desks(alloc: Global) -> Result<Vec<Desk>, NoMemory>
    ensures desks { IfOk result (λ desks. desks.items ≡ replicate 8 new_desk) }
    ensures size { IfOk result (λ desks. length desks.items ≡ 8) }
{
    let mut desks = Vec::new(alloc);
    for _ in 0..8_usize {
        desks.push(Desk::new(alloc)?)?;
    }
    Ok(desks)
}

impl Node {
    /// A target of 1 to 4 units, with physical ID 0 in generation 0. `ready` initiators, 4 at most,
    /// have a login.
    pub(crate) fn new(alloc: Global, units: u8, ready: u8) -> Result<Node, NoMemory>
        requires units { units ≤ 4 }
        requires ready { ready ≤ 4 }
        ensures { IfOk result (λ node. node ≡ new_node units ready) }
    {
        let Beginning { keys, units, rom } = Beginning::new(alloc, units)?;
        Ok(Node {
            alloc,
            layer: Transactions::new(alloc, NodeId::from_raw(0xffc0))?,
            manager: Manager::new(),
            logins: ready_logins(ready),
            keys,
            desks: new_desks(alloc)?,
            units,
            pending: Vec::with_capacity(alloc, 5)?,
            rom,
        })
    }
}
