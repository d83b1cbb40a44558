ghost use Rattle.std.specs.Prelude.{◌≡◌, ◌<◌, ◌≤◌, length, replicate, IfOk};
ghost use Rattle.config_rom.specs.Make.{made};
ghost use Rattle.login_table.specs.Table.{enter_step, new_table};
ghost use Rattle.orb_layout.specs.Pointers.{quad_bytes};
ghost use Rattle.rbc_disk.specs.Units.{new_unit};
ghost use Rattle.target_base.specs.Beginning.{ready_from, ready_login, target_eui};

use config_rom::{RomPlan, make};
use login_table::Logins;
use rbc_disk::Unit;
use sbp_base::{NoMemory, NodeId, Offset, bytes_of_quad};
use std::alloc::Global;

/// The EUI-64 of the target.
const EUI: u64 = 0x0200_0000_0000_0010;

/// The EUI-64 of initiator 0.
const FIRST_EUI: u64 = 0x0200_0000_0000_0001;

/// The FIFO of login number 0 of each initiator.
const FIFO: u64 = 0x0000_1300_0000;

/// The reconnect hold of the logins that stand from the start.
const HOLD: u16 = 3;

/// What a target of some units begins with.
#[derive(Drop)]
pub struct Beginning {
    /// The key of each unit: none.
    pub keys: Vec<[u8; 8]>,
    pub units: Vec<Unit>,
    /// The bytes of the ROM.
    pub rom: Vec<u8>,
}

impl Beginning {
    /// That of a target of 4 units at most.
    pub fn new(alloc: Global, units: u8) -> Result<Beginning, NoMemory>
        requires { units ≤ 4 }
        ensures keys { IfOk result (λ beginning. beginning.keys.items ≡ replicate units (replicate 8 0)) }
        ensures units { IfOk result (λ beginning. beginning.units.items ≡ replicate units new_unit) }
        ensures rom { IfOk result (λ beginning. beginning.rom.items ≡ quad_bytes (made target_eui units)) }
        ensures few { IfOk result (λ beginning. length beginning.keys.items ≡ units) }
        ensures size { IfOk result (λ beginning. length beginning.units.items ≡ units) }
        ensures most { IfOk result (λ beginning. length beginning.rom.items ≤ 1024) }
    {
        Ok(Beginning {
            keys: new_keys(alloc, units)?,
            units: new_units(alloc, units)?,
            rom: new_rom(alloc, units)?,
        })
    }
}

/// Units at the beginning.
fn new_units(alloc: Global, units: u8) -> Result<Vec<Unit>, NoMemory>
    ensures units { IfOk result (λ list. list.items ≡ replicate units new_unit) }
    ensures size { IfOk result (λ list. length list.items ≡ units) }
{
    let mut list = Vec::new(alloc);
    for _ in 0..usize::from(units) {
        list.push(Unit::new())?;
    }
    Ok(list)
}

/// The bytes of quadlets.
fn quad_bytes(alloc: Global, quads: &[u32]) -> Result<Vec<u8>, NoMemory>
    ensures { IfOk result (λ bytes. bytes.items ≡ quad_bytes quads.now) }
{
    let mut bytes = Vec::new(alloc);
    for quad in quads {
        bytes.extend_from_slice(&bytes_of_quad(*quad))?;
    }
    Ok(bytes)
}

/// The bytes of the ROM of a target.
#[tactic(auto, using(crate::proofs::Making::rom_size))]
fn new_rom(alloc: Global, units: u8) -> Result<Vec<u8>, NoMemory>
    requires { units ≤ 4 }
    ensures bytes { IfOk result (λ rom. rom.items ≡ quad_bytes (made target_eui units)) }
    ensures size { IfOk result (λ rom. length rom.items ≤ 1024) }
{
    let words = make(alloc, &RomPlan { eui: EUI, units })?;
    quad_bytes(alloc, words.as_slice())
}

/// No keys.
fn new_keys(alloc: Global, units: u8) -> Result<Vec<[u8; 8]>, NoMemory>
    ensures keys { IfOk result (λ keys. keys.items ≡ replicate units (replicate 8 0)) }
    ensures size { IfOk result (λ keys. length keys.items ≡ units) }
{
    Ok(vec![in alloc; [0; 8]; usize::from(units)]?)
}

/// The logins that stand from the start: one of each initiator on unit 0.
#[tactic(auto, using(crate::proofs::Turns::readying, crate::proofs::Turns::readied))]
pub fn ready_logins(ready: u8) -> Logins
    requires { ready ≤ 4 }
    ensures { result ≡ ready_from ready 0 new_table }
{
    let mut logins = Logins::new();
    for initiator in 0..usize::from(ready) {
        enter_ready(&mut logins, initiator as u8);
    }
    logins
}

/// Enters the login of an initiator, 0 to 3.
fn enter_ready(logins: &mut Logins, initiator: u8)
    requires { initiator < 4 }
    ensures { logins.new ≡ (enter_step logins.old (ready_login initiator)).1 }
{
    let node = NodeId::from_raw(0xffc1 + u16::from(initiator));
    let eui = FIRST_EUI + u64::from(initiator);
    let Some(fifo) = Offset::new(FIFO) else {
        unreachable!()
    };
    let _entered = logins.enter(0, node, eui, fifo, HOLD, false);
}
