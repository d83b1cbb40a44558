ghost use Rattle.std.specs.Prelude.{◌≡◌, ◌<◌, IfSome};
ghost use Rattle.bus_memory.specs.Windows.{IfShare, is_fifo, slot_of, start, window_at};

use sbp_base::Offset;

/// A window of an initiator's memory. Slots are counted from 0 to 31, places of management are 0
/// and 1.
#[derive(Clone, Copy, Debug, PartialEq, Eq)]
pub enum Window {
    Rom,
    /// The ORB of a slot, 32 bytes.
    Orb(u8),
    /// The page table of a slot, 512 bytes.
    Table(u8),
    /// The buffer of a slot, 32,768 bytes.
    Buffer(u8),
    /// The management ORB of a place, 32 bytes.
    Management(u8),
    /// The response buffer of a place, 256 bytes.
    Response(u8),
}

impl Window {
    /// Where the window begins.
    pub fn start(self) -> Offset
        ensures { result ≡ start self }
    {
        let value = match self {
            Window::Rom => 0xffff_f000_0400,
            Window::Orb(slot) => 0x1000_0000 + 0x40 * u64::from(slot),
            Window::Table(slot) => 0x1010_0000 + 0x200 * u64::from(slot),
            Window::Buffer(slot) => 0x1100_0000 + 0x8000 * u64::from(slot),
            Window::Management(place) => 0x1200_0000 + 0x20 * u64::from(place),
            Window::Response(place) => 0x1200_1000 + 0x100 * u64::from(place),
        };
        let Some(offset) = Offset::new(value) else {
            unreachable!()
        };
        offset
    }

    /// The window in whose share of the addresses an offset stands.
    #[tactic(auto, unfolding(crate::specs::Windows::window_at))]
    pub fn at(offset: Offset) -> Option<Window>
        ensures window { result ≡ window_at offset }
        ensures share { IfShare offset result }
    {
        let value = offset.value();
        match value {
            0x1000_0000..=0x1000_07ff => Some(Window::Orb(((value - 0x1000_0000) / 0x40) as u8)),
            0x1010_0000..=0x1010_3fff => Some(Window::Table(((value - 0x1010_0000) / 0x200) as u8)),
            0x1100_0000..=0x110f_ffff => {
                Some(Window::Buffer(((value - 0x1100_0000) / 0x8000) as u8))
            }
            0x1200_0000..=0x1200_003f => {
                Some(Window::Management(((value - 0x1200_0000) / 0x20) as u8))
            }
            0x1200_1000..=0x1200_11ff => {
                Some(Window::Response(((value - 0x1200_1000) / 0x100) as u8))
            }
            0xffff_f000_0400..=0xffff_ffff_ffff => Some(Window::Rom),
            _ => None,
        }
    }

    /// The slot whose ORB begins at an offset.
    #[tactic(auto, unfolding(crate::specs::Windows::slot_of))]
    pub fn slot_of(offset: Offset) -> Option<u8>
        ensures slot { result ≡ slot_of offset }
        ensures below { IfSome result (λ slot. slot < 32) }
    {
        match Window::at(offset) {
            Some(window @ Window::Orb(slot)) if offset.value() == window.start().value() => {
                Some(slot)
            }
            _ => None,
        }
    }
}

/// Whether this is the address of a FIFO: of one of the two places of management, or of a login of
/// any number.
#[tactic(auto, unfolding(crate::specs::Windows::is_fifo))]
pub(crate) fn is_fifo(offset: Offset) -> bool
    ensures { result ≡ is_fifo offset }
{
    match offset.value() {
        0x1200_2000 | 0x1200_2020 => true,
        value @ 0x1300_0000..=0x20_12ff_ffff => value % 0x20 == 0,
        _ => false,
    }
}
