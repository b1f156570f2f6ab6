// The exports of the chip machine, of a vendor's list on it and of the class table, as in lib.rt.
ghost use Rattle.views.specs.Entry.{lent};
ghost use Rattle.station.specs.Machine.{StationWrite, StationVsync, StationSent, StationMute, StationMatrix, StationClass};
ghost use Rattle.station.specs.Vet.{StationVet};

use station::CountOut;
use station::machine::{ClassOut, PartOut, StateOut, VerdictOut};

/// One write of the chip machine: refusals 7 and 13.
#[unsafe(no_mangle)]
pub extern "C" fn station_write(
    image: &mut [u8],
    packet: &mut [u8],
    coefficients: &mut [u8],
    mark: &mut [u8],
    address: u8,
    value: u8,
) -> u32
    ensures { StationWrite (lent image.old packet.old coefficients.old mark.old) address value result
        (lent image.new packet.new coefficients.new mark.new) }
{
    station::machine::station_write(image, packet, coefficients, mark, address, value)
}

/// One Vsync of the chip machine: refusal 7.
#[unsafe(no_mangle)]
pub extern "C" fn station_vsync(
    image: &mut [u8],
    packet: &mut [u8],
    coefficients: &mut [u8],
    mark: &mut [u8],
) -> u32
    ensures { StationVsync (lent image.old packet.old coefficients.old mark.old) result
        (lent image.new packet.new coefficients.new mark.new) }
{
    station::machine::station_vsync(image, packet, coefficients, mark)
}

/// Where the packet that is sent stands: refusals 5, 7 and 13.
#[unsafe(no_mangle)]
pub extern "C" fn station_sent(image: &[u8], packet: &[u8], which: u32) -> PartOut
    ensures { StationSent image.now packet.now which result }
{
    station::machine::station_sent(image, packet, which)
}

/// The mute bits: refusals 7 and 13.
#[unsafe(no_mangle)]
pub extern "C" fn station_mute(image: &[u8], packet: &[u8]) -> StateOut
    ensures { StationMute image.now packet.now result }
{
    station::machine::station_mute(image, packet)
}

/// The mode and the twelve coefficients in use, as a request has them: refusals 7 and 10.
#[unsafe(no_mangle)]
pub extern "C" fn station_matrix(
    image: &[u8],
    coefficients: &[u8],
    mark: u8,
    matrix: &mut [u8],
) -> CountOut
    ensures { StationMatrix image.now coefficients.now mark matrix.old result matrix.new }
{
    station::machine::station_matrix(image, coefficients, mark, matrix)
}

/// Whether a vendor's list may be run on the chip: refusals 7, 8, 14, 15 and 16; with 15 the place of the first bad pair.
#[unsafe(no_mangle)]
pub extern "C" fn station_vet(
    image: &[u8],
    packet: &[u8],
    coefficients: &[u8],
    mark: u8,
    list: &[u8],
) -> VerdictOut
    ensures { StationVet image.now packet.now coefficients.now mark list.now result }
{
    station::machine::station_vet(image, packet, coefficients, mark, list)
}

/// The class of a register's bits: four masks, and the mandated bits.
#[unsafe(no_mangle)]
pub extern "C" fn station_class(address: u8) -> ClassOut
    ensures { StationClass address result }
{
    station::machine::station_class(address)
}
