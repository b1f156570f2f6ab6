// The chip machine: document 01, "The chip machine", and document 02, request 04.
#![tactic(auto)]

ghost use Rattle.std.specs.Prelude.{◌≡◌, cond, ◌&&◌, ◌||◌, ℕ, ◌+◌, ◌≤◌, eqb, length};
ghost use Rattle.map.specs.Map.{infoframe_update};
ghost use Rattle.chip.specs.declared.Chip.{Chip};
ghost use Rattle.chip.specs.Groups.{group_of};
ghost use Rattle.chip.specs.Machine.{matrix, packets, converter, up, holds_of, held, in_use};
ghost use Rattle.chip.specs.Write.{filled, two, buffer_after, mark_after, Stores, Hands};
ghost use Rattle.chip.specs.Step.{AnyStep};
ghost use Rattle.chip.specs.Turn.{Turned, Turn, AtOnce};
ghost use Rattle.chip.specs.Cases.{MachineCases};
ghost use Rattle.chip.specs.Numbered.{wrote_told, applied_told};

mod group;

pub use group::{Group, PACKETS};
use map::Map;
use refusals::Refusal;

/// The state: the register image, the packet buffer, the coefficient buffer, and the mark of a lowered coefficient hold that waits for its
/// Vsync.
#[derive(Clone, Copy, Debug, PartialEq, Eq)]
pub struct Chip {
    pub image: [u8; 256],
    pub packet: [u8; 32],
    pub coefficients: [u8; 24],
    pub waiting: bool,
}

/// Whether two packet holds are up in a byte of 0x4A. The three stand side by side, GC the lowest: two are up in 3, 5, 6 and 7.
pub fn two_up(holds: u8) -> bool
    ensures { result ≡ two holds }
{
    let up = holds / Map::GC_PACKET_UPDATE_MASK % 8;
    matches!(up, 3 | 5..=7)
}

// Whether two packet holds are up, or would be after a byte is stored at an address.
fn leaves_two(held: u8, address: u8, byte: u8) -> bool
    ensures { result ≡ (two held || two (cond (eqb address infoframe_update) byte held)) }
{
    two_up(held) || (address == Map::INFOFRAME_UPDATE && two_up(byte))
}

/// Whether the coefficient hold is up in a byte of 0x1A.
// Kept, no plainer: the byte that is yet to be stored, and an image that is lent alone, are no state, so that the method cannot ask them.
pub fn is_held(byte: u8) -> bool
    ensures { result ≡ up matrix byte }
{
    Group::MATRIX.is_up(byte)
}

/// Whether a mark still waits after a Vsync, by the byte of 0x1A: beside a raised hold it stays.
// Kept, no plainer: `views::vsync_into` asks it of lent slices, which are no state.
pub fn still_waits(byte: u8, waiting: bool) -> bool
    ensures { result ≡ (up matrix byte && waiting) }
{
    is_held(byte) && waiting
}

// The packet buffer as the holds in 0x4A go from one byte to another: the first group whose hold rises fills it.
fn fill_packet(image: &[u8; 256], packet: &mut [u8; 32], old: u8, new: u8)
    ensures { packet.new ≡ filled packets.groups old new image.now packet.old }
{
    if let Some(group) = PACKETS.iter().find(|group| group.rises(old, new)) {
        group.fill(image, packet);
    }
}

impl Chip {
    /// The byte of the packet holds.
    pub fn packet_holds(&self) -> u8
        ensures { result ≡ holds_of packets self.now.image }
    {
        self.image[Map::INFOFRAME_UPDATE as usize]
    }

    /// Whether the coefficient hold is up.
    pub fn is_matrix_held(&self) -> bool
        ensures { result ≡ held self.now }
    {
        is_held(self.image[Map::COEFFICIENT_UPDATE as usize])
    }

    /// Whether the coefficient buffer is in use: its hold is up, or a lowered one waits.
    pub fn is_buffered(&self) -> bool
        ensures { result ≡ (self.now.waiting || held self.now) }
    {
        self.waiting || self.is_matrix_held()
    }

    /// Whether its mark still waits after a Vsync.
    pub fn waits_on(&self) -> bool
        ensures { result ≡ (held self.now && self.now.waiting) }
    {
        still_waits(self.image[Map::COEFFICIENT_UPDATE as usize], self.waiting)
    }

    /// The bytes of a packet that are in use.
    pub fn packet_in_use(&self, packet: Group) -> &[u8]
        ensures in_use { result.now ≡ in_use packets (group_of packet) self.now }
        ensures long { packet.count ≤ 32 → length result.now ≡ packet.count }
    {
        packet.in_use(&self.image, &self.packet, packet.is_up(self.packet_holds()))
    }

    /// The bytes of the matrix that are in use.
    pub fn matrix_in_use(&self) -> &[u8]
        ensures in_use { result.now ≡ in_use converter matrix self.now }
        ensures long { length result.now ≡ 24 }
    {
        Group::MATRIX.in_use(&self.image, &self.coefficients, self.is_buffered())
    }

    // The packet buffer after a byte is stored at an address.
    fn hold_packet(&mut self, address: u8, byte: u8)
        ensures { self.new ≡ record self.old { packet = buffer_after packets address byte self.old } }
    {
        if address == Map::INFOFRAME_UPDATE {
            let held = self.packet_holds();
            fill_packet(&self.image, &mut self.packet, held, byte);
        }
    }

    // The coefficient buffer and the mark after a byte is stored at an address: a rise copies, but in a wait, and drops the mark; a fall sets it.
    fn hold_coefficients(&mut self, address: u8, byte: u8)
        ensures { self.new ≡ record self.old {
          coefficients = buffer_after converter address byte self.old;
          waiting = mark_after address byte self.old;
        } }
    {
        if address == Map::COEFFICIENT_UPDATE {
            let before = self.is_matrix_held();
            match (before, is_held(byte)) {
                (false, true) => {
                    if !self.waiting {
                        Group::MATRIX.fill(&self.image, &mut self.coefficients);
                    }
                    self.waiting = false;
                }
                (true, false) => self.waiting = true,
                _ => {}
            }
        }
    }

    /// A byte stored as it is, and whether it is: not where two packet holds are up or would be.
    // Kept, no plainer: there is one refusal, and `apply` names it.
    pub fn store(&mut self, address: u8, byte: u8) -> bool
        ensures { Stores self.old address byte result self.new }
    {
        if leaves_two(self.packet_holds(), address, byte) {
            return false;
        }
        self.hold_packet(address, byte);
        self.hold_coefficients(address, byte);
        self.image[usize::from(address)] = byte;
        true
    }

    /// One write to the state as it is lent: refusal 13 leaves it as it was.
    pub fn apply(&mut self, address: u8, value: u8) -> Result<(), Refusal>
        ensures { Hands self.old address value (applied_told self.new result) }
    {
        let keep = registers::read_only(address);
        let byte = bits::merge(keep, self.image[usize::from(address)], value);
        if self.store(address, byte) {
            Ok(())
        } else {
            Err(Refusal::TwoHolds)
        }
    }

    /// One write: the new state, or refusal 13.
    pub fn write(mut self, address: u8, value: u8) -> Result<Chip, Refusal>
        ensures { Hands self address value (wrote_told self result) }
    {
        self.apply(address, value)?;
        Ok(self)
    }

    /// One Vsync: where the coefficient hold is down, a wait is over, and the registers are in use.
    pub fn vsync(self) -> Chip
        ensures { Turned self result }
    {
        Chip {
            waiting: self.waits_on(),
            ..self
        }
    }
}

/// What each write does and leaves alone.
#[tactic(auto, using(crate::proofs::Writes::step))]
pub fn step()
    ensures { AnyStep }
{}

/// What a Vsync does, and what is in use by the mark.
pub fn turn()
    ensures { (s : Chip) → Turn s }
{}

/// Enable and mode wait for nothing.
#[tactic(auto, using(crate::proofs::Writes::at_once_lem))]
pub fn at_once()
    ensures { (s : Chip) → AtOnce s }
{}

/// Writes and Vsyncs in bare numbers.
#[tactic(auto, using(crate::proofs::Cases::cases))]
pub fn machine_cases()
    ensures { MachineCases }
{}
