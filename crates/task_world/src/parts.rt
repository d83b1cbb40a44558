use sbp_bus::Bus;
use sbp_initiator::Initiator;
use std::marker::Model;
use task_target::TaskTarget;

mod delivering;
mod handing;
mod lines;
mod making;
mod packets;
mod settling;
mod telling;

/// All that a task world holds: the bus with the packets and the notes of the line, and its two nodes.
#[derive(Drop)]
pub struct Parts {
    bus: Bus,
    target: TaskTarget,
    initiator: Initiator,
}

impl Model for Parts {
    ghost use Rattle.std.specs.Prelude.{◌∷◌, []};
    ghost use Rattle.sbp_world.specs.Worlds.{IsSound};
    ghost use Rattle.task_world.specs.Seats.{seat};
    ghost use Rattle.task_world.specs.Worlds.{TaskWorldState};

    ghost Value = { TaskWorldState };

    ghost view = { λ a. record {
      world = record {
        generations = a.bus.generations;
        target = seat a.target.node;
        initiators = a.initiator ∷ [];
        store = a.bus.store;
        requests = a.bus.requests;
        places = a.bus.places;
        loads = a.bus.loads;
        fresh = a.bus.fresh;
      };
      node = a.target.node;
    } };

    ghost invariant = { λ a. IsSound a.bus.generations (a.initiator ∷ []) };
}
