// The audio section of a request and the seven rates: document 01, "The request"; the rates' codes are the register map's.
#![tactic(auto)]

ghost use Rattle.std.specs.Prelude.{◌≡◌, ◌≤◌};
ghost use Rattle.sound.specs.Rates.{hertz_of, code_for};
ghost use Rattle.sound.specs.Coded.{rate_of};
ghost use Rattle.sound.specs.Sound.{sound_of};
ghost use Rattle.sound.specs.Tests.{is_on, sound_outside};
ghost use Rattle.sound.specs.Theorems.{SoundBody, SoundRange, RateTable};

/// The count of the audio section where it is not empty.
pub const AUDIO_COUNT: u8 = 3;

/// What the audio section asks for.
// Kept, what may not change: the fields of `On` are bytes and no enums, for any byte may stand in a request, row 5 judges it, and `SoundBody` and
// `SoundRange` speak of all of them.
#[derive(Clone, Copy, Debug, PartialEq, Eq)]
pub enum Sound {
    Off,
    On {
        rate: u8,
        channels: u8,
        coherent: u8,
    },
}

// A row of the table of the rates: Hz, and the code.
struct Rate {
    hertz: u32,
    code: u8,
}

// The rates 0 to 6.
#[rattlefmt::skip]
static RATES: [Rate; 7] = [
    Rate { hertz: 32000, code: 0b0011 },
    Rate { hertz: 44100, code: 0b0000 },
    Rate { hertz: 48000, code: 0b0010 },
    Rate { hertz: 88200, code: 0b1000 },
    Rate { hertz: 96000, code: 0b1010 },
    Rate { hertz: 176400, code: 0b1100 },
    Rate { hertz: 192000, code: 0b1110 },
];

/// A rate in Hz; 0 for a number that is none.
// Kept, what may not change: this, `code_of` and `rate_of` could not fail, and still can't. The definitions `hertz_of`, `code_for` and `rate_of` say
// 0, 0 and 7 for none.
// Kept, no plainer: a function that finds the row for both would have a contract that says what both of theirs say.
pub fn hertz(rate: u8) -> u32
    ensures { result ≡ hertz_of rate }
{
    RATES.get(usize::from(rate)).map_or(0, |row| row.hertz)
}

/// The code of a rate; 0 for a number that is none.
pub fn code_of(rate: u8) -> u8
    ensures { (result ≡ code_for rate) × (result ≤ 15) }
{
    RATES.get(usize::from(rate)).map_or(0, |row| row.code)
}

/// The rate of a code; 7 for a code that is none.
pub fn rate_of(code: u8) -> u8
    ensures { result ≡ rate_of code }
{
    let place = RATES.iter().position(|row| row.code == code);
    place.unwrap_or(RATES.len()) as u8
}

impl Sound {
    /// What a body asks for. A byte that it does not have is 0.
    pub fn from_body(body: &[u8]) -> Sound
        ensures { result ≡ sound_of body.now }
    {
        if body.is_empty() {
            return Sound::Off;
        }
        Sound::On {
            rate: lists::byte_at(body, 0),
            channels: lists::byte_at(body, 1),
            coherent: lists::byte_at(body, 2),
        }
    }

    /// Whether there is sound.
    pub fn is_on(self) -> bool
        ensures { result ≡ is_on self }
    {
        matches!(self, Sound::On { .. })
    }

    /// Row 5, of this section.
    pub fn outside(self) -> bool
        ensures { result ≡ sound_outside self }
    {
        match self {
            Sound::Off => false,
            Sound::On {
                rate,
                channels,
                coherent,
            } => 6 < rate || !matches!(channels, 2 | 8) || 1 < coherent,
        }
    }
}

/// The code of a rate, read back, is that rate.
pub fn rate_table()
    ensures { RateTable }
{}

/// A body and what it asks for say the same.
pub fn body_rule()
    ensures { SoundBody }
{}

/// A sound to which row 5 does not apply is in range, and no other.
pub fn in_range()
    ensures { SoundRange }
{}
