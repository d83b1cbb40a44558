ghost use Rattle.std.specs.Prelude.{◌≡◌, ◌+◌, ◌≤◌, ◌∷◌, ◌++◌, [], length, IfOk, OnOk};
ghost use Rattle.hex.specs.Hex.{encode_upper};

use line_text::{Room, push_digits};
use sbp_base::{Bytes, NoMemory};
use std::marker::Model;

/// The most bytes of a packet whose digits are put together in the room of a line.
const FEW: usize = 64;

/// Bytes that lines are added to. The last ones wait in room of their own, so that words are put
/// together there, and memory is asked for once for many words.
#[derive(Drop)]
pub struct LineWriter {
    pub(crate) bytes: Bytes,
    pub(crate) room: Room,
}

impl Model for LineWriter {
    ghost use Rattle.std.specs.Prelude.{ℕ, List, ◌++◌};

    ghost Value = { List ℕ };

    ghost view = { λ writer. writer.bytes ++ writer.room };
}

impl LineWriter {
    /// What is added comes behind these bytes.
    pub fn behind(bytes: Bytes) -> LineWriter
        ensures { result ≡ bytes }
    {
        LineWriter {
            bytes,
            room: Room::new(),
        }
    }

    /// Removes all bytes and keeps their room.
    pub fn clear(&mut self)
        ensures { self.new ≡ [] }
    {
        self.bytes.clear();
        self.room.clear();
    }

    /// All bytes, lent.
    pub fn gather(&mut self) -> Result<&[u8], NoMemory>
        ensures { IfOk result (λ bytes. bytes.now ≡ self.old) }
    {
        if self.bytes.as_slice().is_empty() {
            return Ok(self.room.as_slice());
        }
        hand_over(&mut self.bytes, &mut self.room)?;
        Ok(self.bytes.as_slice())
    }
}

/// Has the room take so many more bytes: those that wait there are added where they must.
#[inline(always)]
pub fn make_room(bytes: &mut Bytes, room: &mut Room, more: usize) -> Result<(), NoMemory>
    requires { more ≤ 1024 }
    ensures text { OnOk result (bytes.new ++ room.new ≡ bytes.old ++ room.old) }
    ensures room { OnOk result (length room.new + more ≤ 1024) }
{
    if room.takes(more) {
        return Ok(());
    }
    hand_over(bytes, room)
}

/// Adds the bytes that wait in the room.
#[cold]
#[inline(never)]
fn hand_over(bytes: &mut Bytes, room: &mut Room) -> Result<(), NoMemory>
    ensures bytes { OnOk result (bytes.new ≡ bytes.old ++ room.old) }
    ensures room { OnOk result (room.new ≡ []) }
{
    bytes.extend_from_slice(room.as_slice())?;
    room.clear();
    Ok(())
}

/// Adds a blank and the digits of a packet, which have room where they are few.
#[inline(always)]
pub(crate) fn push_packet(bytes: &mut Bytes, room: &mut Room, packet: &[u8]) -> Result<(), NoMemory>
    requires { length room.old + 129 ≤ 1024 }
    ensures { OnOk result (bytes.new ++ room.new ≡ bytes.old ++ (room.old ++ 32 ∷ encode_upper packet.now)) }
{
    if packet.len() <= FEW {
        room.push_digits(packet);
        return Ok(());
    }
    push_long_packet(bytes, room, packet)
}

/// The same of a packet of any length.
#[inline(never)]
fn push_long_packet(bytes: &mut Bytes, room: &mut Room, packet: &[u8]) -> Result<(), NoMemory>
    ensures { OnOk result (bytes.new ++ room.new ≡ bytes.old ++ (room.old ++ 32 ∷ encode_upper packet.now)) }
{
    hand_over(bytes, room)?;
    push_digits(bytes, packet)
}

/// Adds a blank and a text of any length.
pub(crate) fn push_text(bytes: &mut Bytes, room: &mut Room, text: &[u8]) -> Result<(), NoMemory>
    ensures { OnOk result (bytes.new ++ room.new ≡ bytes.old ++ (room.old ++ 32 ∷ text.now)) }
{
    if text.len() < 1024 && room.takes(text.len() + 1) {
        room.push_byte(b' ');
        room.push(text);
        return Ok(());
    }
    hand_over(bytes, room)?;
    bytes.push(b' ')?;
    bytes.extend_from_slice(text)
}
