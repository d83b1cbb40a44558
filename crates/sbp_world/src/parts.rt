ghost use Rattle.std.specs.Prelude.{◌≡◌, ◌+◌, ◌≤◌, length};

use sbp_bus::Bus;
use sbp_initiator::Initiator;
use sbp_target::Target;
use std::marker::Model;

mod delivering;
mod handing;
mod lines;
mod making;
mod nodes;
mod packets;
mod settling;
mod telling;

pub use delivering::Arrival;

/// All that a world holds: the bus with the packets and the notes of the line, and its nodes.
#[derive(Drop)]
pub struct Parts {
    bus: Bus,
    target: Target,
    initiators: Vec<Initiator>,
}

impl Model for Parts {
    ghost use Rattle.sbp_world.specs.Worlds.{WorldState, IsSound};

    ghost Value = { WorldState };

    ghost view = { λ a. record {
      generations = a.bus.generations;
      target = a.target.node;
      initiators = a.initiators.items;
      store = a.bus.store;
      requests = a.bus.requests;
      places = a.bus.places;
      loads = a.bus.loads;
      fresh = a.bus.fresh;
    } };

    ghost invariant = { λ a. IsSound a.bus.generations a.initiators.items };
}
