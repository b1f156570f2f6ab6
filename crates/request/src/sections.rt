// The sections, walked in order: count present, count allowed, body present.
ghost use Rattle.std.specs.Prelude.{◌≡◌, [], get_or};
ghost use Rattle.lists.specs.Among.{among};
ghost use Rattle.request.specs.Sections.{sections, walked};
ghost use Rattle.request.specs.Numbered.{places_told};
ghost use Rattle.request.specs.Places.{places_of};

use refusals::Refusal;
use sound::AUDIO_COUNT;
use video::VIDEO_COUNT;
use wiring::{FOUR_COUNT, TWELVE_COUNT};

/// How many sections there are.
pub const SECTIONS: usize = 4;

/// The place of the wiring section in their order.
// Kept, no plainer: the four places are numbers and no enum, for they are the indices of the ends that `walk` finds, and `allows` takes any number.
pub const WIRING: usize = 0;

/// The place of the video section.
pub const VIDEO: usize = 1;

/// The place of the audio section.
pub const AUDIO: usize = 2;

/// The place of the matrix section.
pub const MATRIX: usize = 3;

/// The place of the last section.
pub const LAST: usize = SECTIONS - 1;

/// The count of the matrix section where it is not empty; the others' are their own crates'.
pub const MATRIX_COUNT: u8 = 25;

/// "the longest request": of each section its count, and a body of its largest count.
pub const LONGEST: usize = SECTIONS
    + TWELVE_COUNT as usize
    + VIDEO_COUNT as usize
    + AUDIO_COUNT as usize
    + MATRIX_COUNT as usize;

/// Whether section k allows a count: a line for each section.
pub fn allows(k: usize, count: u8) -> bool
    ensures { result ≡ among count (get_or sections k []) }
{
    match k {
        WIRING => matches!(count, 0 | FOUR_COUNT | TWELVE_COUNT),
        VIDEO => count == VIDEO_COUNT,
        AUDIO => matches!(count, 0 | AUDIO_COUNT),
        MATRIX => matches!(count, 0 | MATRIX_COUNT),
        _ => false,
    }
}

/// The sections of an input: where the body of each ends, or rows 1 and 2. A body starts after its count, which stands where the body before
/// it ends.
pub fn walk(s: &[u8]) -> Result<[usize; SECTIONS], Refusal>
    ensures { places_told result ≡ places_of (walked s.now) }
{
    let mut ends = [0usize; SECTIONS];
    let mut place: usize = 0;
    for (k, end) in ends.iter_mut().enumerate() {
        let count = *s.get(place).ok_or(Refusal::InputEnds)?;
        if !allows(k, count) {
            return Err(Refusal::CountNotAllowed);
        }
        let start = place + 1;
        let n = usize::from(count);
        if s.len() - start < n {
            return Err(Refusal::InputEnds);
        }
        place = start + n;
        *end = place;
    }
    Ok(ends)
}
