// Document 01, "Refusal numbers", and document 02.
#![tactic(auto)]

ghost use Rattle.std.specs.Prelude.{◌≡◌, ◌∷◌, map};
ghost use Rattle.refusals.specs.Rows.{number, order};
ghost use Rattle.refusals.specs.Numbered.{refusal_number, ToldApart};

/// Why a call is refused: a row of the list, named after its "When", with its number.
#[derive(Clone, Copy, Debug, PartialEq, Eq)]
pub enum Refusal {
    InputEnds = 1,
    CountNotAllowed = 2,
    BytesAfter = 3,
    ModeNotOffered = 4,
    FieldOutOfRange = 5,
    Combination = 6,
    ImageLength = 7,
    HoldsUp = 8,
    NoExactPair = 9,
    BufferShort = 10,
    NoRequest = 11,
    InputAbove = 12,
    TwoHolds = 13,
    ListLength = 14,
    BadPair = 15,
    BadEnd = 16,
    ClockAbove = 17,
    NotFinite = 18,
    NoModeFits = 19,
    SoundTooMuch = 20,
    EdidLength = 21,
    EdidSum = 22,
    EdidBlock = 23,
    NoWishFits = 24,
}

/// Its number in the list.
impl From<Refusal> for u8 {
    ghost from_gives = { λ refusal byte. byte ≡ refusal_number refusal };

    fn from(refusal: Refusal) -> u8 {
        refusal as u8
    }
}

/// The same number as C is told it.
impl From<Refusal> for u32 {
    ghost from_gives = { λ refusal number. number ≡ refusal_number refusal };

    fn from(refusal: Refusal) -> u32 {
        refusal as u32
    }
}

/// No two refusals have one number, and none has 0.
pub fn told_apart()
    ensures { ToldApart }
{}

/// 0, which is no refusal, and then the numbers of the list's twenty rows in its order; 21 to 24 are not in that list.
pub fn numbers() -> [u8; 21]
    ensures { result ≡ 0 ∷ map number order }
{
    [
        0,
        Refusal::InputEnds.into(),
        Refusal::CountNotAllowed.into(),
        Refusal::BytesAfter.into(),
        Refusal::ModeNotOffered.into(),
        Refusal::FieldOutOfRange.into(),
        Refusal::Combination.into(),
        Refusal::ClockAbove.into(),
        Refusal::SoundTooMuch.into(),
        Refusal::ImageLength.into(),
        Refusal::HoldsUp.into(),
        Refusal::NoExactPair.into(),
        Refusal::BufferShort.into(),
        Refusal::NoRequest.into(),
        Refusal::InputAbove.into(),
        Refusal::TwoHolds.into(),
        Refusal::ListLength.into(),
        Refusal::BadPair.into(),
        Refusal::BadEnd.into(),
        Refusal::NotFinite.into(),
        Refusal::NoModeFits.into(),
    ]
}
