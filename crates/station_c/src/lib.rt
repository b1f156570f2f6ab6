// The exports of the static library: each call is the call of `station` of the same name, with its clauses. No logic. The C declarations are in
// include/station.h.
// Kept, for the C interface: the exports repeat the calls of `station`, for a crate is a library or a static library (docs/DECISIONS.md, K4).
#![tactic(auto)]

ghost use Rattle.station.specs.Face.{StationPlan, StationDecode, StationNcts};
ghost use Rattle.station.specs.Matrices.{StationPreview, StationMeter};
ghost use Rattle.station.specs.Pipe.{StationPipeTake, StationPipeEnd};
ghost use Rattle.station.specs.Screen.{StationEdid, StationChoose};

mod machine;

use station::{ChoiceOut, CountOut, MonitorOut, PairOut, PipedOut, PixelOut};

/// The write list of a request on an image, as pairs of address and value: refusals 1 to 6, 17, 20 and 7 to 10.
#[unsafe(no_mangle)]
pub extern "C" fn station_plan(request: &[u8], image: &[u8], writes: &mut [u8]) -> CountOut
    ensures { StationPlan request.now image.now writes.old result writes.new }
{
    station::station_plan(request, image, writes)
}

/// The request that ends in an image, family 0: refusals 7, 10 and 11. The count is that of its bytes.
#[unsafe(no_mangle)]
pub extern "C" fn station_decode(image: &[u8], request: &mut [u8]) -> CountOut
    ensures { StationDecode image.now request.old result request.new }
{
    station::station_decode(image, request)
}

/// N and CTS over a request: refusals 1 to 6, 17, 20 and 9.
#[unsafe(no_mangle)]
pub extern "C" fn station_ncts(request: &[u8]) -> PairOut
    ensures { StationNcts request.now result }
{
    station::station_ncts(request)
}

/// Three codes through a matrix, 25 bytes as the request has them: refusals 5 and 12.
#[unsafe(no_mangle)]
pub extern "C" fn station_preview(matrix: &[u8], a: u32, b: u32, c: u32) -> PixelOut
    ensures { StationPreview matrix.now a b c result }
{
    station::station_preview(matrix, a, b, c)
}

/// A colour meter's twelve numbers as a matrix, 25 bytes as the request has them: refusals 5, 10, 18 and 19.
#[unsafe(no_mangle)]
pub extern "C" fn station_meter(numbers: &[f32], matrix: &mut [u8]) -> CountOut
    ensures { StationMeter numbers.now matrix.old result matrix.new }
{
    station::station_meter(numbers, matrix)
}

/// A part of a request, into a pipe: refusals 2 and 3 at once, and 7 of bytes that are no pipe.
#[unsafe(no_mangle)]
pub extern "C" fn station_pipe_take(pipe: &mut [u8], part: &[u8]) -> PipedOut
    ensures { StationPipeTake pipe.old part.now result pipe.new }
{
    station::station_pipe_take(pipe, part)
}

/// The end of the input: refusals 1 to 6, 17, 20 and 9, and 7 of bytes that are no pipe.
#[unsafe(no_mangle)]
pub extern "C" fn station_pipe_end(pipe: &mut [u8]) -> PipedOut
    ensures { StationPipeEnd pipe.old result pipe.new }
{
    station::station_pipe_end(pipe)
}

/// What a screen says of itself: refusals 21 to 23.
#[unsafe(no_mangle)]
pub extern "C" fn station_edid(edid: &[u8]) -> MonitorOut
    ensures { StationEdid edid.now result }
{
    station::station_edid(edid)
}

/// The first wish that fits a request and a screen: refusals 21 to 24.
#[unsafe(no_mangle)]
pub extern "C" fn station_choose(edid: &[u8], request: &[u8], wishes: &[u8]) -> ChoiceOut
    ensures { StationChoose edid.now request.now wishes.now result }
{
    station::station_choose(edid, request, wishes)
}
