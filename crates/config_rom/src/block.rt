ghost use Rattle.std.specs.Prelude.{◌≡◌, ◌<◌, ◌+◌, length};
ghost use Rattle.config_rom.specs.Unit.{type_bits, has_key};
ghost use Rattle.config_rom.specs.Tree.{entry_at, kind_of, names, names_kind, is_link, is_void};

/// A directory or a leaf (IEEE 1212, "Directories" and "Leaves").
#[derive(Clone, Copy, Debug, PartialEq, Eq)]
pub struct Block {
    /// The position of its header, in quadlets.
    pub at: u16,
    /// Its length in quadlets, the header not counted.
    pub length: u16,
    pub is_directory: bool,
    /// Whether the sum of its header is that of its quadlets.
    pub sum_is_right: bool,
}

/// The type of a directory entry.
#[derive(Clone, Copy, Debug, PartialEq, Eq)]
pub enum EntryKind {
    /// The value itself.
    Immediate,
    /// An offset in the node's registers.
    Csr,
    /// The distance to a leaf, in quadlets.
    Leaf,
    /// The distance to a directory, in quadlets.
    Directory,
}

/// A directory entry.
#[derive(Clone, Copy, Debug, PartialEq, Eq)]
pub struct Entry {
    /// Its position, in quadlets.
    pub at: u16,
    pub kind: EntryKind,
    /// The key value, of 6 bits.
    pub key: u8,
    /// The value, of 24 bits.
    pub value: u32,
}

impl EntryKind {
    /// The type of an entry with these two bits.
    fn of_bits(bits: u32) -> EntryKind
        ensures { result ≡ kind_of bits }
    {
        match bits {
            0 => EntryKind::Immediate,
            1 => EntryKind::Csr,
            2 => EntryKind::Leaf,
            _ => EntryKind::Directory,
        }
    }

    /// Whether an entry of this type names a directory, or else a leaf.
    fn names(self, is_directory: bool) -> bool
        ensures { result ≡ names_kind self is_directory }
    {
        match self {
            EntryKind::Immediate | EntryKind::Csr => false,
            EntryKind::Leaf => !is_directory,
            EntryKind::Directory => is_directory,
        }
    }

    /// Its two bits.
    fn bits(self) -> u16
        ensures bits { result ≡ type_bits self }
        ensures few { result < 4 }
    {
        match self {
            EntryKind::Immediate => 0,
            EntryKind::Csr => 1,
            EntryKind::Leaf => 2,
            EntryKind::Directory => 3,
        }
    }
}

impl Entry {
    /// The entry at a position among the quadlets.
    #[tactic(auto, unfolding(crate::specs::Tree::entry_at))]
    pub(crate) fn read(quads: &[u32], at: u16) -> Entry
        requires { at < length quads.now }
        ensures { result ≡ entry_at quads.now at }
    {
        let quad = quads[usize::from(at)];
        Entry {
            at,
            kind: EntryKind::of_bits(quad >> 30),
            key: (quad >> 24 & 0x3f) as u8,
            value: quad & 0xff_ffff,
        }
    }

    /// Whether it names a directory or a leaf.
    pub(crate) fn is_link(&self) -> bool
        ensures { result ≡ is_link self.now }
    {
        self.kind.names(true) || self.kind.names(false)
    }

    /// Whether it names a directory or a leaf at the distance 0.
    pub(crate) fn is_void(&self) -> bool
        ensures { result ≡ is_void self.now }
    {
        self.is_link() && self.value == 0
    }

    /// The position of the header that it names, in quadlets.
    pub(crate) fn target(&self) -> u64
        ensures { result ≡ self.now.at + self.now.value }
    {
        u64::from(self.at) + u64::from(self.value)
    }

    /// Whether it names the directory, or else the leaf, whose header stands at the position.
    #[tactic(auto, unfolding(crate::specs::Tree::names))]
    pub(crate) fn names(&self, at: u16, is_directory: bool) -> bool
        ensures { result ≡ names at is_directory self.now }
    {
        self.kind.names(is_directory) && self.target() == u64::from(at)
    }

    /// Whether type and key value together are this key byte.
    pub(crate) fn has_key(&self, key: u8) -> bool
        ensures { result ≡ has_key key self.now }
    {
        let value = self.key;
        self.kind.bits() * 64 + u16::from(value) == u16::from(key)
    }
}
