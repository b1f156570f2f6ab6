// The C face: each call is a call of the library, taken apart. No logic. The C declarations are in include/station.h; `station_c` exports the
// calls.
// Kept, for the C interface: `refusal` stands beside the values, as in each struct of include/station.h.
#![tactic(auto)]

ghost use Rattle.std.specs.Prelude.{◌≡◌};
ghost use Rattle.refusals.specs.Numbered.{given_by, told};
ghost use Rattle.clock.specs.Numbered.{pair_told};
ghost use Rattle.matrix.specs.Numbered.{pixel_told};
ghost use Rattle.pipe.specs.Numbered.{piped_told};
ghost use Rattle.edid.specs.Found.{monitor_told, choice_told};
ghost use Rattle.station.specs.Face.{pair_out, StationPlan, StationDecode, StationNcts};
ghost use Rattle.station.specs.Matrices.{pixel_out, StationPreview, StationMeter};
ghost use Rattle.station.specs.Pipe.{piped_out, StationPipeTake, StationPipeEnd};
ghost use Rattle.station.specs.Screen.{monitor_out, choice_out, StationEdid, StationChoose};

pub mod machine;

use clock::NCts;
use edid::{Chosen, Screen};
use matrix::Codes;
use pipe::Said;
use refusals::Refusal;

/// `struct station_count`.
#[repr(C)]
#[derive(Clone, Copy, Default)]
pub struct CountOut {
    pub refusal: u32,
    pub count: u32,
}

impl From<Result<u32, Refusal>> for CountOut {
    ghost from_gives = { λ answer out. out ≡ told (λ count. record { refusal = 0; count = count }) (λ n. record { refusal = n; count = 0 }) answer };

    fn from(answer: Result<u32, Refusal>) -> CountOut {
        match answer {
            Ok(count) => CountOut { refusal: 0, count },
            Err(refusal) => CountOut {
                refusal: refusal.into(),
                ..CountOut::default()
            },
        }
    }
}

/// `struct station_pair`.
#[repr(C)]
#[derive(Clone, Copy, Default)]
pub struct PairOut {
    pub refusal: u32,
    pub n: u32,
    pub cts: u32,
}

impl From<Result<NCts, Refusal>> for PairOut {
    ghost from_gives = { λ answer out. out ≡ pair_out (pair_told answer) };

    fn from(answer: Result<NCts, Refusal>) -> PairOut {
        match answer {
            Ok(NCts { n, cts }) => PairOut { refusal: 0, n, cts },
            Err(refusal) => PairOut {
                refusal: refusal.into(),
                ..PairOut::default()
            },
        }
    }
}

/// `struct station_pixel`.
#[repr(C)]
#[derive(Clone, Copy, Default)]
pub struct PixelOut {
    pub refusal: u32,
    pub a: u32,
    pub b: u32,
    pub c: u32,
}

impl From<Result<Codes, Refusal>> for PixelOut {
    ghost from_gives = { λ answer out. out ≡ pixel_out (pixel_told answer) };

    fn from(answer: Result<Codes, Refusal>) -> PixelOut {
        match answer {
            Ok(Codes { a, b, c }) => PixelOut {
                refusal: 0,
                a: a.into(),
                b: b.into(),
                c: c.into(),
            },
            Err(refusal) => PixelOut {
                refusal: refusal.into(),
                ..PixelOut::default()
            },
        }
    }
}

/// `struct station_piped`.
#[repr(C)]
#[derive(Clone, Copy, Default)]
pub struct PipedOut {
    pub refusal: u32,
    pub answered: u32,
    pub count: u32,
}

impl From<Said> for PipedOut {
    ghost from_gives = { λ said out. out ≡ piped_out (piped_told said) };

    fn from(said: Said) -> PipedOut {
        match said {
            Said::NoPipe => PipedOut {
                refusal: Refusal::ImageLength.into(),
                ..PipedOut::default()
            },
            Said::Open => PipedOut::default(),
            Said::Accepted { count } => PipedOut {
                refusal: 0,
                answered: 1,
                count: count.into(),
            },
            Said::Refused { number } => PipedOut {
                refusal: number.byte.into(),
                answered: 1,
                count: 0,
            },
        }
    }
}

/// `struct station_monitor`.
#[repr(C)]
#[derive(Clone, Copy, Default)]
pub struct MonitorOut {
    pub refusal: u32,
    pub vics_low: u32,
    pub vics_high: u32,
    pub rates_2: u32,
    pub rates_8: u32,
}

impl From<Result<Screen, Refusal>> for MonitorOut {
    ghost from_gives = { λ answer out. out ≡ monitor_out (monitor_told answer) };

    fn from(answer: Result<Screen, Refusal>) -> MonitorOut {
        match answer {
            Ok(screen) => MonitorOut {
                refusal: 0,
                vics_low: screen.vics_low,
                vics_high: screen.vics_high,
                rates_2: screen.rates_2,
                rates_8: screen.rates_8,
            },
            Err(refusal) => MonitorOut {
                refusal: refusal.into(),
                ..MonitorOut::default()
            },
        }
    }
}

/// `struct station_choice`.
#[repr(C)]
#[derive(Clone, Copy, Default)]
pub struct ChoiceOut {
    pub refusal: u32,
    pub place: u32,
    pub at: u32,
}

impl From<Result<Chosen, Refusal>> for ChoiceOut {
    ghost from_gives = { λ answer out. out ≡ choice_out (choice_told answer) };

    fn from(answer: Result<Chosen, Refusal>) -> ChoiceOut {
        match answer {
            Ok(Chosen { place, at }) => ChoiceOut {
                refusal: 0,
                place,
                at,
            },
            Err(refusal) => ChoiceOut {
                refusal: refusal.into(),
                ..ChoiceOut::default()
            },
        }
    }
}

/// The write list of a request on an image, as pairs of address and value: refusals 1 to 6, 17, 20 and 7 to 10.
pub fn station_plan(request: &[u8], image: &[u8], writes: &mut [u8]) -> CountOut
    ensures { StationPlan request.now image.now writes.old result writes.new }
{
    plan::plan(request, image, writes).into()
}

/// The request that ends in an image, family 0: refusals 7, 10 and 11. The count is that of its bytes.
pub fn station_decode(image: &[u8], request: &mut [u8]) -> CountOut
    ensures { StationDecode image.now request.old result request.new }
{
    decode::decode(image, request).into()
}

/// N and CTS over a request: refusals 1 to 6, 17, 20 and 9.
pub fn station_ncts(request: &[u8]) -> PairOut
    ensures { StationNcts request.now result }
{
    request::ncts(request).into()
}

/// Three codes through a matrix, 25 bytes as the request has them: refusals 5 and 12.
pub fn station_preview(matrix: &[u8], a: u32, b: u32, c: u32) -> PixelOut
    ensures { StationPreview matrix.now a b c result }
{
    matrix::preview(matrix, a, b, c).into()
}

/// A colour meter's twelve numbers as a matrix, 25 bytes as the request has them: refusals 5, 10, 18 and 19.
pub fn station_meter(numbers: &[f32], matrix: &mut [u8]) -> CountOut
    ensures { StationMeter numbers.now matrix.old result matrix.new }
{
    meter::take_matrix(numbers, matrix).into()
}

/// A part of a request, into a pipe: refusals 2 and 3 at once, and 7 of bytes that are no pipe.
pub fn station_pipe_take(pipe: &mut [u8], part: &[u8]) -> PipedOut
    ensures { StationPipeTake pipe.old part.now result pipe.new }
{
    pipe::take(pipe, part).into()
}

/// The end of the input: refusals 1 to 6, 17, 20 and 9, and 7 of bytes that are no pipe.
pub fn station_pipe_end(pipe: &mut [u8]) -> PipedOut
    ensures { StationPipeEnd pipe.old result pipe.new }
{
    pipe::end(pipe).into()
}

/// What a screen says of itself: refusals 21 to 23.
pub fn station_edid(edid: &[u8]) -> MonitorOut
    ensures { StationEdid edid.now result }
{
    edid::overview(edid).into()
}

/// The first wish that fits a request and a screen: refusals 21 to 24.
pub fn station_choose(edid: &[u8], request: &[u8], wishes: &[u8]) -> ChoiceOut
    ensures { StationChoose edid.now request.now wishes.now result }
{
    edid::choose(edid, request, wishes).into()
}
