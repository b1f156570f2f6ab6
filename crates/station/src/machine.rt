// The C face of the chip machine, of a vendor's list on it and of the class table: each call is a call of the library, taken apart.
// Kept, for the C interface: `refusal` stands beside the values, as in each struct of include/station.h.
ghost use Rattle.std.specs.Prelude.{◌≡◌};
ghost use Rattle.refusals.specs.Numbered.{given_by};
ghost use Rattle.views.specs.Entry.{lent};
ghost use Rattle.views.specs.Numbered.{part_told, mute_told};
ghost use Rattle.vendor.specs.Numbered.{verdict_told};
ghost use Rattle.station.specs.Machine.{part_out, mute_out, class_out, StationWrite, StationVsync, StationSent, StationMute, StationMatrix, StationClass};
ghost use Rattle.station.specs.Vet.{verdict_out, StationVet};

use crate::CountOut;
use refusals::Refusal;
use registers::Class;
use vendor::Fault;
use views::Place;

/// `struct station_part`.
#[repr(C)]
#[derive(Clone, Copy, Default)]
pub struct PartOut {
    pub refusal: u32,
    pub held: u32,
    pub start: u32,
    pub len: u32,
}

impl From<Result<Place, Refusal>> for PartOut {
    ghost from_gives = { λ answer out. out ≡ part_out (part_told answer) };

    fn from(answer: Result<Place, Refusal>) -> PartOut {
        match answer {
            Ok(Place { held, start, len }) => PartOut {
                refusal: 0,
                held: held.into(),
                start,
                len,
            },
            Err(refusal) => PartOut {
                refusal: refusal.into(),
                ..PartOut::default()
            },
        }
    }
}

/// `struct station_state`.
#[repr(C)]
#[derive(Clone, Copy, Default)]
pub struct StateOut {
    pub refusal: u32,
    pub mute: u32,
}

impl From<Result<u8, Refusal>> for StateOut {
    ghost from_gives = { λ answer out. out ≡ mute_out (mute_told answer) };

    fn from(answer: Result<u8, Refusal>) -> StateOut {
        match answer {
            Ok(mute) => StateOut {
                refusal: 0,
                mute: mute.into(),
            },
            Err(refusal) => StateOut {
                refusal: refusal.into(),
                ..StateOut::default()
            },
        }
    }
}

/// `struct station_verdict`.
#[repr(C)]
#[derive(Clone, Copy, Default)]
pub struct VerdictOut {
    pub refusal: u32,
    pub place: u32,
}

impl From<Result<(), Fault>> for VerdictOut {
    ghost from_gives = { λ answer out. out ≡ verdict_out (verdict_told answer) };

    fn from(answer: Result<(), Fault>) -> VerdictOut {
        match answer {
            Ok(()) => VerdictOut::default(),
            Err(Fault::Refused(refusal)) => VerdictOut {
                refusal: refusal.into(),
                place: 0,
            },
            Err(Fault::Pair { place }) => VerdictOut {
                refusal: Refusal::BadPair.into(),
                place,
            },
        }
    }
}

/// `struct station_masks`.
#[repr(C)]
#[derive(Clone, Copy)]
pub struct ClassOut {
    pub read_only: u32,
    pub mandated: u32,
    pub named: u32,
    pub free: u32,
    pub bits: u32,
}

impl From<Class> for ClassOut {
    ghost from_gives = { λ class out. out ≡ class_out class };

    fn from(class: Class) -> ClassOut {
        ClassOut {
            read_only: class.read_only.into(),
            mandated: class.mandated.into(),
            named: class.named.into(),
            free: class.free.into(),
            bits: class.bits.into(),
        }
    }
}

// 0, or the number of the refusal.
fn refused(answer: Result<(), Refusal>) -> u32
    ensures { result ≡ given_by answer }
{
    answer.err().map_or(0, u32::from)
}

/// One write of the chip machine: refusals 7 and 13.
pub fn station_write(
    image: &mut [u8],
    packet: &mut [u8],
    coefficients: &mut [u8],
    mark: &mut [u8],
    address: u8,
    value: u8,
) -> u32
    ensures { StationWrite (lent image.old packet.old coefficients.old mark.old) address value result
        (lent image.new packet.new coefficients.new mark.new) }
{
    refused(views::write_into(image, packet, coefficients, mark, address, value))
}

/// One Vsync of the chip machine: refusal 7.
pub fn station_vsync(
    image: &mut [u8],
    packet: &mut [u8],
    coefficients: &mut [u8],
    mark: &mut [u8],
) -> u32
    ensures { StationVsync (lent image.old packet.old coefficients.old mark.old) result
        (lent image.new packet.new coefficients.new mark.new) }
{
    refused(views::vsync_into(image, packet, coefficients, mark))
}

/// Where the packet that is sent stands: refusals 5, 7 and 13.
pub fn station_sent(image: &[u8], packet: &[u8], which: u32) -> PartOut
    ensures { StationSent image.now packet.now which result }
{
    views::sent_part(image, packet, which).into()
}

/// The mute bits: refusals 7 and 13.
pub fn station_mute(image: &[u8], packet: &[u8]) -> StateOut
    ensures { StationMute image.now packet.now result }
{
    views::mute_of(image, packet).into()
}

/// The mode and the twelve coefficients in use, as a request has them: refusals 7 and 10.
pub fn station_matrix(image: &[u8], coefficients: &[u8], mark: u8, matrix: &mut [u8]) -> CountOut
    ensures { StationMatrix image.now coefficients.now mark matrix.old result matrix.new }
{
    views::matrix_in_use(image, coefficients, mark, matrix).into()
}

/// Whether a vendor's list may be run on the chip: refusals 7, 8, 14, 15 and 16; with 15 the place of the first bad pair.
pub fn station_vet(
    image: &[u8],
    packet: &[u8],
    coefficients: &[u8],
    mark: u8,
    list: &[u8],
) -> VerdictOut
    ensures { StationVet image.now packet.now coefficients.now mark list.now result }
{
    vendor::vet(image, packet, coefficients, mark, list).into()
}

/// The class of a register's bits: four masks, and the mandated bits.
pub fn station_class(address: u8) -> ClassOut
    ensures { StationClass address result }
{
    Class::at(address).into()
}
