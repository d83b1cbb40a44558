ghost use Rattle.std.specs.Prelude.{◌≡◌, ◌<◌};

use crate::desk::Desk;
use crate::purpose::Purpose;
use label_table::Transactions;
use login_table::Logins;
use mgmt_agent::Manager;
use rbc_disk::Unit;
use sbp_base::NodeId;
use std::alloc::Global;
use std::marker::Model;

mod agents;
mod making;
mod management;
mod receiving;
mod replies;
mod serving;
mod timing;
mod units;

/// All that a target holds, apart from the count of its calls.
#[derive(Drop)]
pub struct Node {
    alloc: Global,
    layer: Transactions<Purpose>,
    manager: Manager,
    logins: Logins,
    keys: Vec<[u8; 8]>,
    desks: Vec<Desk>,
    units: Vec<Unit>,
    pending: Vec<NodeId>,
    rom: Vec<u8>,
}

impl Model for Node {
    ghost use Rattle.sbp_target.specs.Nodes.{NodeState, IsSound};

    ghost Value = { NodeState };

    ghost view = { λ a. record {
      layer = a.layer;
      manager = a.manager;
      logins = a.logins;
      keys = a.keys.items;
      desks = a.desks.items;
      units = a.units.items;
      pending = a.pending.items;
      rom = a.rom.items;
    } };

    ghost invariant = { λ a. IsSound (record {
      layer = a.layer;
      manager = a.manager;
      logins = a.logins;
      keys = a.keys.items;
      desks = a.desks.items;
      units = a.units.items;
      pending = a.pending.items;
      rom = a.rom.items;
    }) };
}
