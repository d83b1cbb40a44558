ghost use Rattle.std.specs.Prelude.{◌≡◌, IfOk};
ghost use Rattle.task_target.specs.Nodes.{new_node};

use super::{Node, PLACES};
use label_table::Transactions;
use rbc_disk::Unit;
use sbp_base::{NoMemory, NodeId};
use std::alloc::Global;
use target_base::{Beginning, ready_logins};
use unordered_agent::TaskAgent;

impl Node {
    /// A target of one unit, with physical ID 0 in generation 0. Initiator 0 has the login.
    pub(crate) fn new(alloc: Global) -> Result<Node, NoMemory>
        ensures { IfOk result (λ node. node ≡ new_node) }
    {
        let Beginning { rom, .. } = Beginning::new(alloc, 1)?;
        Ok(Node {
            alloc,
            layer: Transactions::new(alloc, NodeId::from_raw(0xffc0))?,
            logins: ready_logins(1),
            agent: TaskAgent::new(alloc)?,
            pointer: None,
            sents: [None; PLACES],
            unit: Unit::new(),
            rom,
        })
    }
}
