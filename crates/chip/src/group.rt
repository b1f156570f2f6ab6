// The groups of registers that are sent whole, and their holds: document 01, "The chip machine".
ghost use Rattle.std.specs.Prelude.{◌+◌, ◌<◌, ◌≤◌};

use map::Map;

/// A group: the bit of its hold in the register of the holds, its first register, and how many they are.
#[derive(Clone, Copy, Debug, PartialEq, Eq)]
pub struct Group {
    pub hold: u8,
    pub first: u8,
    pub count: u8,
    pub ghost in_a_byte: { hold < 8 },
    pub ghost in_the_map: { first + count ≤ 256 },
}

impl Group {
    ghost use Rattle.std.specs.Prelude.{◌≡◌, ◌++◌, cond, not, ◌&&◌, ℕ, length, take, drop};
    ghost use Rattle.chip.specs.Machine.{up, registers_of};
    ghost use Rattle.chip.specs.Groups.{group_of, covers};

    /// The AVI InfoFrame, from its version on.
    pub const AVI: Group = Group {
        hold: u8::trailing_zeros(Map::AVI_PACKET_UPDATE_MASK) as u8,
        first: Map::AVI_INFOFRAME_VERSION,
        count: Map::AVI_INFOFRAME_COUNT,
    };

    /// The audio InfoFrame, from its version on.
    pub const AUDIO: Group = Group {
        hold: u8::trailing_zeros(Map::AUDIO_INFOFRAME_PACKET_UPDATE_MASK) as u8,
        first: Map::AUDIO_INFOFRAME_VERSION,
        count: Map::AUDIO_INFOFRAME_COUNT,
    };

    /// The GC byte, 0x4B alone.
    pub const GC: Group = Group {
        hold: u8::trailing_zeros(Map::GC_PACKET_UPDATE_MASK) as u8,
        first: Map::AV_MUTE,
        count: 1,
    };

    /// The colour matrix.
    pub const MATRIX: Group = Group {
        hold: u8::trailing_zeros(Map::COEFFICIENT_UPDATE_MASK) as u8,
        first: Map::CSC,
        count: Map::CSC_COUNT,
    };

    /// Whether its hold is up in a byte of the register of the holds.
    pub fn is_up(self, holds: u8) -> bool
        ensures { result ≡ up (group_of self) holds }
    {
        (holds >> self.hold) % 2 == 1
    }

    /// Whether its hold rises from one byte to another.
    pub fn rises(self, old: u8, new: u8) -> bool
        ensures { result ≡ (up (group_of self) new && not (up (group_of self) old)) }
    {
        self.is_up(new) && !self.is_up(old)
    }

    /// Its registers.
    pub fn registers(self, image: &[u8; 256]) -> &[u8]
        ensures { result.now ≡ registers_of (group_of self) image.now }
    {
        let start = usize::from(self.first);
        let end = start + usize::from(self.count);
        &image[start..end]
    }

    /// Whether an address is one of its registers.
    pub fn covers(self, address: u8) -> bool
        ensures { result ≡ covers (group_of self) address }
    {
        let start = usize::from(self.first);
        (start..start + usize::from(self.count)).contains(&usize::from(address))
    }

    /// What the chip goes by: the front of its buffer where that is in use, else its registers.
    pub fn in_use<'a>(self, image: &'a [u8; 256], buffer: &'a [u8], is_buffered: bool) -> &'a [u8]
        ensures { result.now ≡ cond is_buffered (take self.count buffer.now) (registers_of (group_of self) image.now) }
    {
        if is_buffered {
            let end = usize::from(self.count).min(buffer.len());
            &buffer[..end]
        } else {
            self.registers(image)
        }
    }

    // Its registers to the front of a buffer, and the rest stays.
    pub(crate) fn fill(self, image: &[u8; 256], buffer: &mut [u8])
        requires { self.count ≤ length buffer.old }
        ensures { buffer.new ≡ registers_of (group_of self) image.now ++ drop self.count buffer.old }
    {
        lists::copy(self.registers(image), buffer);
    }
}

/// The packets, of which each has its hold in 0x4A.
pub const PACKETS: [Group; 3] = [Group::AVI, Group::AUDIO, Group::GC];
