ghost use Rattle.std.specs.Prelude.{◌≡◌, ◌<◌};

use crate::purpose::{Sent, TaskPurpose};
use label_table::Transactions;
use login_table::Logins;
use rbc_disk::Unit;
use sbp_base::Offset;
use std::alloc::Global;
use std::marker::Model;
use unordered_agent::TaskAgent;

mod following;
mod making;
mod receiving;
mod replies;
mod serving;
mod timing;

/// The places of the agent: those of the tasks, 0 to 7, and the fetcher's.
const PLACES: usize = 9;

/// All that a target of the unordered unit holds, apart from the count of its calls.
#[derive(Drop)]
pub struct Node {
    alloc: Global,
    layer: Transactions<TaskPurpose>,
    logins: Logins,
    agent: TaskAgent,
    pointer: Option<Offset>,
    sents: [Option<Sent>; PLACES],
    unit: Unit,
    rom: Vec<u8>,
}

impl Model for Node {
    ghost use Rattle.task_target.specs.Nodes.{TaskNode, IsSound};

    ghost Value = { TaskNode };

    ghost view = { λ a. record {
      layer = a.layer;
      logins = a.logins;
      agent = a.agent;
      pointer = a.pointer;
      sents = a.sents;
      unit = a.unit;
      rom = a.rom.items;
    } };

    ghost invariant = { λ a. IsSound (record {
      layer = a.layer;
      logins = a.logins;
      agent = a.agent;
      pointer = a.pointer;
      sents = a.sents;
      unit = a.unit;
      rom = a.rom.items;
    }) };
}
