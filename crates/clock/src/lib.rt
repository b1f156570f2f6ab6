// The exact clock fraction, and N and CTS: document 01, "Modes and clocks" and "N and CTS"; document 02, request 06.
#![tactic(auto)]

ghost use Rattle.std.specs.Prelude.{◌≡◌, ◌<◌, ◌≤◌, ◌+◌, ◌*◌, ◌^◌, cond, eqb, unwrap_or, IfOk, find, option_map};
ghost use Rattle.clock.specs.Rows.{is_of};
ghost use Rattle.clock.specs.Clocks.{quarters, times};
ghost use Rattle.refusals.specs.Rows.{number, clock_above};
ghost use Rattle.clock.specs.Numbered.{clock_known, clock_told, pair_told};
ghost use Rattle.clock.specs.Answers.{no_clock, clock_asked, above_limit, clock_of, GivesClock, the_pair, audio_off};
ghost use Rattle.clock.specs.Bounds.{WithinBounds, num_most, reference_most, parts_most};
ghost use Rattle.clock.specs.Tables.{pair};
ghost use Rattle.clock.specs.Pairs.{reference, recommended_of};
ghost use Rattle.clock.specs.Found.{
  quarter,
  slow_quarter,
  quarter_of,
  nearest_k,
  least_k,
  most_k,
  nearest_in,
  nearest_of,
  exactly,
  coherent_of,
  GivesPair,
};
ghost use Rattle.clock.specs.Theorems.{ClockRule, PairRule, ClockRefusals};

use ratio::Ratio;
use refusals::Refusal;
use video::{Mode, Video};

/// A clock in Hz, kept exact: num / den.
#[derive(Clone, Copy, Debug, PartialEq, Eq)]
pub struct Hertz {
    pub num: u64,
    pub den: u64,
}

/// A quarter of a pixel clock in Hz, kept exact.
// Kept, no plainer: a struct of its own beside `Hertz` and `ratio::Ratio`. One generic fraction would say neither what is counted nor that a
// quarter fits 32 bits, and `clock_known`, `quarter` and `Reduces` name their three.
#[derive(Clone, Copy, Debug, PartialEq, Eq)]
pub struct Quarter {
    pub num: u32,
    pub den: u32,
}

/// N and CTS, side by side.
#[derive(Clone, Copy, Debug, PartialEq, Eq)]
pub struct NCts {
    pub n: u32,
    pub cts: u32,
}

// A row of the recommended pairs: the clock in lowest terms, and N and CTS at the rates 0 to 6.
// Kept, the proof did not close: two arrays. With one of `NCts` the borrow checker does not cover `recommended_pair`: a static is borrowed that
// holds a struct which holds an array of structs.
struct Row {
    clock: Hertz,
    n: [u32; 7],
    cts: [u32; 7],
}

// Tables 80 to 82 of source document 000, in the rows of the definition.
#[rattlefmt::skip]
static ROWS: [Row; 10] = [
    // 25.2/1.001 MHz
    Row {
        clock: Hertz { num: 3600000000, den: 143 },
        n: [4576, 7007, 6864, 14014, 13728, 28028, 27456],
        cts: [28125, 31250, 28125, 31250, 28125, 31250, 28125],
    },
    // 25.2 MHz
    Row {
        clock: Hertz { num: 25200000, den: 1 },
        n: [4096, 6272, 6144, 12544, 12288, 25088, 24576],
        cts: [25200, 28000, 25200, 28000, 25200, 28000, 25200],
    },
    // 27 MHz
    Row {
        clock: Hertz { num: 27000000, den: 1 },
        n: [4096, 6272, 6144, 12544, 12288, 25088, 24576],
        cts: [27000, 30000, 27000, 30000, 27000, 30000, 27000],
    },
    // 27·1.001 MHz
    Row {
        clock: Hertz { num: 27027000, den: 1 },
        n: [4096, 6272, 6144, 12544, 12288, 25088, 24576],
        cts: [27027, 30030, 27027, 30030, 27027, 30030, 27027],
    },
    // 54 MHz
    Row {
        clock: Hertz { num: 54000000, den: 1 },
        n: [4096, 6272, 6144, 12544, 12288, 25088, 24576],
        cts: [54000, 60000, 54000, 60000, 54000, 60000, 54000],
    },
    // 54·1.001 MHz
    Row {
        clock: Hertz { num: 54054000, den: 1 },
        n: [4096, 6272, 6144, 12544, 12288, 25088, 24576],
        cts: [54054, 60060, 54054, 60060, 54054, 60060, 54054],
    },
    // 74.25/1.001 MHz
    Row {
        clock: Hertz { num: 6750000000, den: 91 },
        n: [11648, 17836, 11648, 35672, 23296, 71344, 46592],
        cts: [210937, 234375, 140625, 234375, 140625, 234375, 140625],
    },
    // 74.25 MHz
    Row {
        clock: Hertz { num: 74250000, den: 1 },
        n: [4096, 6272, 6144, 12544, 12288, 25088, 24576],
        cts: [74250, 82500, 74250, 82500, 74250, 82500, 74250],
    },
    // 148.5/1.001 MHz
    Row {
        clock: Hertz { num: 13500000000, den: 91 },
        n: [11648, 8918, 5824, 17836, 11648, 35672, 23296],
        cts: [421875, 234375, 140625, 234375, 140625, 234375, 140625],
    },
    // 148.5 MHz
    Row {
        clock: Hertz { num: 148500000, den: 1 },
        n: [4096, 6272, 6144, 12544, 12288, 25088, 24576],
        cts: [148500, 165000, 148500, 165000, 148500, 165000, 148500],
    },
];

// The row of a clock, if it has one.
fn row_of(rows: &[Row], clock: Hertz) -> Option<&Row>
    ensures { option_map (λ row. row.now) result ≡ find (is_of clock) rows.now }
{
    rows.iter().find(|row| row.clock == clock)
}

// N of the "Other" row.
static OTHERS: [u32; 7] = [4096, 6272, 6144, 12544, 12288, 25088, 24576];

// "Our limit is 225,000,000 Hz."
const LIMIT: u64 = 225000000;

impl Quarter {
    fn new(num: u32, den: u32) -> Quarter
        ensures { result ≡ quarter num den }
    {
        Quarter { num, den }
    }

    // A quarter of a mode's clock in family 1, in lowest terms, by its clock in family 0. A mode with another clock wants a row here; without it
    // the proof fails.
    fn slow(hertz: u32) -> Quarter
        ensures { result ≡ slow_quarter hertz }
    {
        match hertz {
            25200000 => Quarter::new(900000000, 143),
            27027000 => Quarter::new(6750000, 1),
            59400000 => Quarter::new(1350000000, 91),
            74250000 => Quarter::new(1687500000, 91),
            148500000 => Quarter::new(3375000000, 91),
            _ => Quarter::new(0, 1),
        }
    }

    // The same in either family.
    #[tactic(auto, unfolding(crate::specs::Found::quarter_of))]
    fn of(hertz: u32, family: u8) -> Quarter
        ensures { result ≡ quarter_of hertz family }
    {
        match family {
            0 => Quarter::new(hertz / 4, 1),
            _ => Quarter::slow(hertz),
        }
    }

    // So many of them, as a clock.
    fn times(self, many: u64) -> Hertz
        requires { many ≤ 24 }
        ensures { (result.num ≡ self.num * many) × (result.den ≡ self.den) }
    {
        Hertz {
            num: u64::from(self.num) * many,
            den: u64::from(self.den),
        }
    }
}

// How many quarters a depth and a repetition make of it.
fn parts(depth: u8, repetition: u8) -> u64
    requires { (depth ≤ 2) × (repetition ≤ 2) }
    ensures { (result ≡ quarters depth * times repetition) × (result ≤ 24) }
{
    let quarters = 4 + u64::from(depth);
    match repetition {
        0 => quarters,
        1 => 2 * quarters,
        _ => 4 * quarters,
    }
}

// The clock of a video, however fast: refusals 4 and 5.
#[tactic(auto, using(crate::proofs::Offered::found_clock_lem), unfolding(crate::specs::Answers::clock_asked))]
fn asked(video: Video) -> Result<Hertz, Refusal>
    ensures told { clock_told result ≡ clock_asked video }
    ensures small { IfOk result (λ clock. clock.den < 2 ^ 32) }
{
    let row = Mode::of(video.vic);
    if row.families <= video.family {
        return Err(Refusal::ModeNotOffered);
    }
    if video.pixel_outside() {
        return Err(Refusal::FieldOutOfRange);
    }
    let many = parts(video.depth(), video.repetition());
    Ok(Quarter::of(row.hertz, video.family).times(many))
}

impl Hertz {
    // The clock, where it is at most the limit: refusal 17.
    fn within_limit(self) -> Result<Hertz, Refusal>
        requires { self.den < 2 ^ 32 }
        ensures { clock_told result ≡ cond (above_limit (clock_known self)) (no_clock (number clock_above)) (clock_known self) }
    {
        if LIMIT * self.den < self.num {
            Err(Refusal::ClockAbove)
        } else {
            Ok(self)
        }
    }
}

/// The clock of a video: refusals 4, 5 and 17.
#[tactic(auto, unfolding(crate::specs::Answers::clock_of, crate::specs::Answers::clock_asked))]
pub fn clock_of(video: Video) -> Result<Hertz, Refusal>
    ensures { GivesClock video (clock_told result) }
{
    asked(video)?.within_limit()
}

/// Row 17 of a video alone: where each pixel is sent once no clock is above the limit, and none need be made.
#[tactic(auto, using(crate::proofs::Offered::once_within))]
pub fn is_above(video: Video) -> bool
    ensures { result ≡ eqb (clock_of video).refusal (number clock_above) }
{
    16 <= video.pixel && matches!(clock_of(video), Err(Refusal::ClockAbove))
}

// The exact pairs of a clock and a rate are N = k·v and CTS = k·u: `reference` is 128·fs, and u/v is clock / (128·fs) in lowest terms.
#[derive(Clone, Copy)]
struct Multiples {
    reference: u64,
    u: u64,
    v: u64,
    ghost reference_bound: { reference ≤ reference_most },
    ghost u_nonzero: { (0 < u) × (u ≤ num_most) },
    ghost v_nonzero: { (0 < v) × (v ≤ parts_most) },
}

impl Multiples {
    // The first k whose N is in range.
    fn least_k(self) -> u64
        ensures { result ≡ least_k self.reference self.v }
    {
        ratio::quotient(self.reference + (1500 * self.v - 1), 1500 * self.v)
    }

    // The last k whose N is in range and whose CTS is at most 1,048,575.
    fn most_k(self) -> u64
        ensures { result ≡ most_k self.reference self.u self.v }
    {
        let range = ratio::quotient(self.reference, 300 * self.v);
        range.min(ratio::quotient(1048575, self.u))
    }

    // k of the nearest pair, where `below` is the last k with k·v at most f/1000.
    #[tactic(auto, unfolding(crate::specs::Found::nearest_k))]
    fn nearest_k(self, least: u64, most: u64, below: u64) -> u64
        requires { (1000 * (below * self.v) ≤ self.reference) × (self.reference ≤ 1000 * ((below + 1) * self.v)) }
        ensures { result ≡ nearest_k self.reference self.v least most below }
    {
        if most <= below {
            most
        } else if below < least {
            least
        } else {
            let after = 1000 * ((below + 1) * self.v) - self.reference;
            let before = self.reference - 1000 * (below * self.v);
            if after < before { below + 1 } else { below }
        }
    }

    // The nearest of the pairs, or refusal 9.
    #[tactic(auto, using(crate::proofs::Range::small_n, crate::proofs::Range::small_cts), unfolding(crate::specs::Found::nearest_in))]
    fn nearest(self) -> Result<NCts, Refusal>
        ensures { pair_told result ≡ nearest_in self.reference self.u self.v }
    {
        let least = self.least_k();
        let most = self.most_k();
        if most < least {
            return Err(Refusal::NoExactPair);
        }
        let below = ratio::quotient(self.reference, 1000 * self.v);
        let k = self.nearest_k(least, most, below);
        Ok(NCts {
            n: (k * self.v) as u32,
            cts: (k * self.u) as u32,
        })
    }
}

// A clock that is answered, and a rate of audio.
#[derive(Clone, Copy)]
struct Sampled {
    clock: Hertz,
    rate: u8,
    ghost rate_bound: { rate < 7 },
    ghost within_bounds: { WithinBounds (clock_known clock) },
}

impl Sampled {
    // 128·fs
    #[tactic(auto, unfolding(crate::specs::Pairs::reference))]
    fn reference(self) -> u64
        ensures value { result ≡ reference self.rate }
        ensures bounds { (0 < result) × (result ≤ reference_most) }
    {
        128 * u64::from(sound::hertz(self.rate))
    }

    // The recommended pair, where there is one.
    fn recommended_pair(self) -> Option<NCts>
        ensures { unwrap_or result (pair 0 0) ≡ recommended_of (clock_known self.clock) self.rate }
    {
        let row = row_of(&ROWS, self.clock)?;
        let rate = usize::from(self.rate);
        Some(NCts {
            n: row.n[rate],
            cts: row.cts[rate],
        })
    }

    // The test of an exact pair.
    #[tactic(auto, unfolding(crate::specs::Found::exactly))]
    fn exactly(self, pair: NCts) -> bool
        ensures { result ≡ exactly (clock_known self.clock) self.rate pair.n pair.cts }
    {
        let f = self.reference();
        let n = u64::from(pair.n);
        let in_range = f <= 1500 * n && 300 * n <= f && pair.cts <= 1048575;
        in_range && f * u64::from(pair.cts) * self.clock.den == self.clock.num * n
    }

    // The exact pair whose N is nearest to 128·fs/1000, or refusal 9.
    #[tactic(auto, unfolding(crate::specs::Found::nearest_of))]
    fn nearest(self) -> Result<NCts, Refusal>
        ensures { pair_told result ≡ nearest_of (clock_known self.clock) self.rate }
    {
        let reference = self.reference();
        let ratio = Ratio::reduced(self.clock.num, self.clock.den * reference);
        Multiples {
            reference,
            u: ratio.u,
            v: ratio.v,
        }
        .nearest()
    }

    // N and CTS for coherent audio, or refusal 9.
    #[tactic(auto, using(crate::proofs::Exactness::none_of_zero), unfolding(crate::specs::Found::coherent_of))]
    fn coherent_pair(self) -> Result<NCts, Refusal>
        ensures { pair_told result ≡ coherent_of (clock_known self.clock) self.rate }
    {
        match self.recommended_pair() {
            Some(pair) if self.exactly(pair) => Ok(pair),
            _ => self.nearest(),
        }
    }
}

/// N and CTS on single fields: refusals 4, 5, 17 and 9.
#[tactic(auto, using(crate::proofs::Told::early), unfolding(crate::specs::Found::pair_of, crate::specs::Answers::clock_asked))]
pub fn pair_of(video: Video, rate: u8, coherent: u8) -> Result<NCts, Refusal>
    ensures { GivesPair video rate coherent (pair_told result) }
{
    let clock = asked(video)?;
    if rate > 6 || coherent > 1 {
        return Err(Refusal::FieldOutOfRange);
    }
    let clock = clock.within_limit()?;
    if coherent == 1 {
        Sampled { clock, rate }.coherent_pair()
    } else {
        Ok(NCts {
            n: OTHERS[usize::from(rate)],
            cts: 0,
        })
    }
}

/// N and CTS where audio is off.
pub fn audio_off() -> NCts
    ensures { the_pair result.n result.cts ≡ audio_off }
{
    NCts { n: 6144, cts: 0 }
}

/// The clock that is answered: exact, in lowest terms, at most the limit.
#[tactic(auto, using(crate::proofs::Offered::rule))]
pub fn clock_rule()
    ensures { ClockRule }
{}

/// What is proved of the answers: which pair is given.
#[tactic(auto, using(crate::proofs::Coherence::rule))]
pub fn pair_rule()
    ensures { PairRule }
{}

/// And the refusals of the two calls on single fields.
#[tactic(auto, using(crate::proofs::Rows::refusals))]
pub fn clock_refusals()
    ensures { ClockRefusals }
{}
