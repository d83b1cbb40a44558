use crate::calls::program_media;
use rbc_disk::Medium;
use sbp_journal::{Action, Event};
use sbp_world::World;
use std::alloc::Global;
use std::marker::Model;
use std::test::Fail;

/// A world over its media, as many as its units.
#[derive(Drop)]
struct Bus {
    world: World,
    media: Vec<Box<dyn Medium>>,
}

impl Model for Bus {
    ghost use Rattle.std.specs.Prelude.{◌≡◌, length};
    ghost use Rattle.sbp_world.specs.Worlds.{WorldState};

    ghost Value = { WorldState };

    ghost view = { λ bus. bus.world };

    ghost invariant = { λ bus. length bus.media.items ≡ length bus.world.target.units };
}

impl Bus {
    /// One initiator, over the media of the program.
    #[tactic(auto, using(script_runner::proofs::Kept::world_units))]
    fn new(alloc: Global) -> Result<Bus, Fail> {
        let media = program_media(alloc)?;
        if media.len() != 3 {
            return Err("media".into());
        }
        let world = World::begin(alloc, 1, true, 3)?;
        Ok(Bus { world, media })
    }

    /// An initiator reads the state of its agent, and all packets are delivered.
    fn read_state(&mut self) -> Result<(), Fail> {
        if self.world.initiators() == 0 {
            return Err("initiators".into());
        }
        let state = Event::Act {
            initiator: 0,
            action: Action::State,
        };
        self.world.step(&mut self.media, 2, &state)?;
        self.world.settle(&mut self.media, 3)?;
        Ok(())
    }

    /// Whether 1,024 packets at most are kept behind each of many such readings.
    fn keeps_few(&mut self) -> Result<bool, Fail> {
        for _ in 0..2000 {
            self.read_state()?;
            if self.world.kept() > 1024 {
                return Ok(false);
            }
        }
        Ok(true)
    }
}

/// The same of a new world.
fn few_are_kept(alloc: Global) -> Result<bool, Fail> {
    let mut bus = Bus::new(alloc)?;
    bus.keeps_few()
}

/// A world keeps 1,024 packets at most where none is in flight.
#[test]
fn old_packets_go(rt: HostRuntime) -> Result<(), Fail> {
    assert!(rt; few_are_kept(rt.alloc())?);
    Ok(())
}
