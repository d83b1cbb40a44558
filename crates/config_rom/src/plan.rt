ghost use Rattle.std.specs.Prelude.{◌≡◌, ℕ, List, ◌≤◌, ◌<◌, ◌+◌, ◌/◌, ◌^◌, ◌++◌, length, vec_len, IfOk, OnOk};
ghost use Rattle.config_rom.specs.Make.{made, headed, bus_quads, unit_quads};

use crate::sum::sum16;
use sbp_base::NoMemory;
use std::alloc::Global;
use std::marker::Model;

/// The node's capabilities (IEEE 1212, "Node_Capabilities entry").
const CAPABILITIES: u32 = 0x0c00_83c0;

/// The unit directory stands right behind the root directory.
const UNIT_BEHIND: u32 = 0xd100_0001;

/// The entries of the unit directory before those of its logical units: specifier, version, command
/// set specifier, command set, management agent at quadlet 4000h, ORB size of 8 quadlets and
/// time-out of 2 seconds.
const UNIT: [u32; 6] = [
    0x1200_609e,
    0x1301_0483,
    0x3800_609e,
    0x3901_04d8,
    0x5400_4000,
    0x3a00_0408,
];

/// What a configuration ROM is made of.
#[derive(Clone, Copy, Debug, PartialEq, Eq)]
pub struct RomPlan {
    /// The EUI-64 of the node.
    pub eui: u64,
    /// The number of its logical units, 4 at most.
    pub units: u8,
}

/// The quadlets of a configuration ROM.
#[derive(Drop)]
pub struct RomWords {
    items: Vec<u32>,
}

impl Model for RomWords {
    ghost Value = { List ℕ };

    ghost view = { λ words. words.items.items };
}

impl RomWords {
    /// The quadlets, lent.
    pub fn as_slice(&self) -> &[u32]
        ensures { result.now ≡ self.now }
    {
        self.items.as_slice()
    }
}

/// Makes the configuration ROM of an SBP-2 node (IEEE 1212): the bus information block, the root
/// directory, and, where there are units, a unit directory with one entry for each.
#[tactic(auto, unfolding(crate::specs::Make::made))]
pub fn make(alloc: Global, plan: &RomPlan) -> Result<RomWords, NoMemory>
    requires { plan.now.units ≤ 4 }
    ensures { IfOk result (λ words. words ≡ made plan.now.eui plan.now.units) }
{
    let bus = bus_quads(plan.eui);
    let mut items = Vec::new(alloc);
    items.push(0x0404_0000 + u32::from(sum16(&bus)))?;
    items.extend_from_slice(&bus)?;
    if plan.units == 0 {
        push_headed(&mut items, &[vendor(plan.eui), CAPABILITIES])?;
    } else {
        push_headed(&mut items, &[vendor(plan.eui), CAPABILITIES, UNIT_BEHIND])?;
        let unit = unit_quads(alloc, plan.units)?;
        push_headed(&mut items, &unit)?;
    }
    Ok(RomWords { items })
}

/// The bus information block behind its header: name, capabilities and EUI-64.
fn bus_quads(eui: u64) -> [u32; 4]
    ensures { result ≡ bus_quads eui }
{
    [
        0x3133_3934,
        0,
        (eui >> 32) as u32,
        (eui & 0xffff_ffff) as u32,
    ]
}

/// The vendor's entry: the top 24 bits of the EUI-64.
fn vendor(eui: u64) -> u32
    ensures { result ≡ 0x03000000 + eui / 2 ^ 40 }
{
    0x0300_0000 + (eui >> 40) as u32
}

/// The entries of a unit directory.
fn unit_quads(alloc: Global, units: u8) -> Result<Vec<u32>, NoMemory>
    requires { units ≤ 4 }
    ensures quads { IfOk result (λ quads. quads.items ≡ unit_quads units) }
    ensures length { IfOk result (λ quads. vec_len quads ≡ 6 + units) }
{
    let mut quads = Vec::from_slice(alloc, &UNIT)?;
    for number in 0..units {
        quads.push(0x144e_0000 + u32::from(number))?;
    }
    Ok(quads)
}

/// Adds quadlets behind their header, which has their number and their sum.
fn push_headed(items: &mut Vec<u32>, quads: &[u32]) -> Result<(), NoMemory>
    requires { length quads.now < 2 ^ 16 }
    ensures { OnOk result (items.new.items ≡ items.old.items ++ headed quads.now) }
{
    items.push(((quads.len() as u32) << 16) + u32::from(sum16(quads)))?;
    items.extend_from_slice(quads)?;
    Ok(())
}
