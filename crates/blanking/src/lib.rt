// Sound that fits into the blanking: document 02, request 10.
#![tactic(auto)]

ghost use Rattle.std.specs.Prelude.{◌≡◌};
ghost use Rattle.video.specs.Video.{repetition};
ghost use Rattle.blanking.specs.Found.{highest_of, most_of, is_beyond, too_much};
ghost use Rattle.blanking.specs.Theorems.{Timed, Standard, RoomRule};

use sound::Sound;
use video::Video;

/// The highest rate of eight channels, each pixel sent once and twice.
#[derive(Clone, Copy, Debug, PartialEq, Eq)]
pub struct Highest {
    pub once: u8,
    pub twice: u8,
}

impl Highest {
    // The row of a VIC: in a mode that is not named all fit.
    #[tactic(auto, unfolding(crate::specs::Found::highest_of))]
    fn of(vic: u8) -> Highest
        ensures { result ≡ highest_of vic }
    {
        match vic {
            1 => Highest { once: 2, twice: 6 },
            2 | 3 | 17 | 18 => Highest { once: 2, twice: 5 },
            _ => Highest { once: 6, twice: 6 },
        }
    }
}

// The highest rate of eight channels in a mode, by the repetition.
fn most_of(video: Video) -> u8
    ensures { result ≡ most_of video.vic (repetition video) }
{
    let row = Highest::of(video.vic);
    match video.repetition() {
        0 => row.once,
        1 => row.twice,
        _ => 6,
    }
}

// Row 20 of a rate and channels: the table is looked at for eight channels alone.
fn is_beyond(video: Video, rate: u8, channels: u8) -> bool
    ensures { result ≡ is_beyond video.vic (repetition video) rate channels }
{
    channels == 8 && most_of(video) < rate
}

/// Row 20: more sound than fits into the blanking of the mode.
#[tactic(auto, unfolding(crate::specs::Found::beyond))]
pub fn too_much(video: Video, sound: Sound) -> bool
    ensures { result ≡ too_much video sound }
{
    match sound {
        Sound::Off => false,
        Sound::On { rate, channels, .. } => is_beyond(video, rate, channels),
    }
}

/// The timings and the table have the listed modes, and each timing makes its clock and its aspect.
#[tactic(auto, using(crate::proofs::Timed::timed))]
pub fn timing_table()
    ensures { Timed }
{}

/// The rule gives the rows that the standard prints; these leave some overheads, and each of them gives the whole table.
#[tactic(auto, using(crate::proofs::Standard::standard))]
pub fn standard_rows()
    ensures { Standard }
{}

/// What is too much stays too much.
#[tactic(auto, using(crate::proofs::Rule::rule))]
pub fn room_rule()
    ensures { RoomRule }
{}
