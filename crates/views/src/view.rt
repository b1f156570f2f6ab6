// What the chip sends, over lent slices: document 01, "The chip machine".
ghost use Rattle.std.specs.Prelude.{◌≡◌, Ok};
ghost use Rattle.refusals.specs.Numbered.{given_by};
ghost use Rattle.chip.specs.Machine.{up, mute};
ghost use Rattle.chip.specs.Groups.{group_of};
ghost use Rattle.views.specs.View.{lent_refusal, viewed_of, packet_at, placed, Sends, Places, Refuses, Mutes};
ghost use Rattle.views.specs.Numbered.{part_told, mute_told};

use chip::{Group, two_up};
use map::Map;
use refusals::Refusal;

/// A part of a slice: of the packet buffer where its packet is held, else of the image.
// Kept, no plainer: both callers would open an enum of the two slices into these three again.
#[derive(Clone, Copy, Debug, PartialEq, Eq)]
pub struct Place {
    pub held: bool,
    pub start: u32,
    pub len: u32,
}

// The refusals of every view: 7 and 13.
fn lent_refusal(image: &[u8], packet: &[u8]) -> Result<(), Refusal>
    ensures { given_by result ≡ lent_refusal image.now packet.now }
{
    if image.len() != 256 || packet.len() != 32 {
        Err(Refusal::ImageLength)
    } else if two_up(image[Map::INFOFRAME_UPDATE as usize]) {
        Err(Refusal::TwoHolds)
    } else {
        Ok(())
    }
}

/// The refusals of a packet that is asked for: 5, 7 and 13.
// Kept, for the C interface: a packet is asked for by number, and another number than 0 and 1 is refused.
pub fn sent_refusal(image: &[u8], packet: &[u8], which: u32) -> Result<(), Refusal>
    ensures { Refuses image.now packet.now which (given_by result) }
{
    if 1 < which {
        return Err(Refusal::FieldOutOfRange);
    }
    lent_refusal(image, packet)
}

// The packet that is asked for by number: 0 AVI, 1 audio.
fn packet_at(which: u32) -> Group
    ensures { group_of result ≡ packet_at which }
{
    if which == 0 { Group::AVI } else { Group::AUDIO }
}

impl Place {
    // Where a group that is sent stands, by the byte of the packet holds: at the buffer's front where its hold is up, else at its registers.
    fn of(group: Group, holds: u8) -> Place
        ensures { part_told (Ok result) ≡ placed (up (group_of group) holds) group.first group.count }
    {
        let held = group.is_up(holds);
        Place {
            held,
            start: if held { 0 } else { u32::from(group.first) },
            len: u32::from(group.count),
        }
    }
}

/// Where the packet that is sent stands, in numbers: 0 AVI, 1 audio.
pub fn sent_part(image: &[u8], packet: &[u8], which: u32) -> Result<Place, Refusal>
    ensures { Places image.now packet.now which (part_told result) }
{
    sent_refusal(image, packet, which)?;
    Ok(Place::of(packet_at(which), image[Map::INFOFRAME_UPDATE as usize]))
}

/// The packet that is sent, as a part of the image or of the packet buffer: its bytes, and where it starts.
pub fn sent<'a>(image: &'a [u8], packet: &'a [u8], which: u32) -> &'a [u8]
    ensures { Sends image.now packet.now which image.entry.ref_ptr packet.entry.ref_ptr result.now result.ref_ptr }
{
    match sent_part(image, packet, which) {
        Ok(Place { held, start, len }) => {
            let from = start as usize;
            let end = from + len as usize;
            if held {
                &packet[from..end]
            } else {
                &image[from..end]
            }
        }
        Err(_) => &image[..0],
    }
}

/// The mute bits of the GC byte in use, 1 muted, 2 open, 0 and 3 neither; what lies past the end of a slice is 0.
// Kept, for the C interface: `struct station_state` has the bits as they stand, and 0 and 3 both occur.
pub fn mute_bits(image: &[u8], packet: &[u8]) -> u8
    ensures { result ≡ mute (viewed_of image.now packet.now) }
{
    let holds = lists::byte_at(image, Map::INFOFRAME_UPDATE as usize);
    let byte = if Group::GC.is_up(holds) {
        lists::byte_at(packet, 0)
    } else {
        lists::byte_at(image, Map::AV_MUTE as usize)
    };
    byte / Map::SET_AV_MUTE_MASK % 4
}

/// The same, with refusals 7 and 13.
pub fn mute_of(image: &[u8], packet: &[u8]) -> Result<u8, Refusal>
    ensures { Mutes image.now packet.now (mute_told result) }
{
    lent_refusal(image, packet)?;
    Ok(mute_bits(image, packet))
}
