// The video section of a request and the listed modes: document 01, "The request" and "Modes and clocks"; document 02, requests 01,
// 06 and 11.
#![tactic(auto)]

ghost use Rattle.std.specs.Prelude.{◌≡◌};
ghost use Rattle.video.specs.Modes.{mode_of, ModeTable};
ghost use Rattle.video.specs.Video.{
  video_in,
  video_body,
  depth,
  repetition,
  ycc_quantisation,
  content_type,
  no_video,
  in_family,
  answered_edition,
};
ghost use Rattle.video.specs.Body.{Body};
ghost use Rattle.video.specs.Tests.{
  edition_outside,
  shown_outside,
  video_outside,
  pixel_outside,
  full_ycbcr,
  deep_apart,
  asked_under_d,
  shown_combined,
  video_combined,
};
ghost use Rattle.video.specs.Exception.{Exception};

/// The count of the video section.
pub const VIDEO_COUNT: u8 = 7;

/// What the video section asks for. `pixel` is the depth byte, with the repetition in its upper half; `edition` is the edition byte, with
/// the quantisation and the content type.
// Kept, what may not change: the fields are bytes and no enums, for any byte may stand in a request, rows 4 to 6 judge it, and `Body` holds
// for every value of each.
#[derive(Clone, Copy, Default, Debug, PartialEq, Eq)]
pub struct Video {
    pub vic: u8,
    pub family: u8,
    pub encoding: u8,
    pub link: u8,
    pub range: u8,
    pub pixel: u8,
    pub edition: u8,
}

/// A listed mode. A VIC that is not listed offers no family.
// Kept, what may not change: `families`, `aspect` and `colorimetry` are numbers and no enums, for the definition `mode` has them so: how many
// families, from 0 on, and M and C as the AVI InfoFrame has them.
#[derive(Clone, Copy, Debug, PartialEq, Eq)]
pub struct Mode {
    pub vic: u8,
    pub hertz: u32,
    pub families: u8,
    pub aspect: u8,
    pub colorimetry: u8,
}

impl Mode {
    /// The mode of a VIC: "Modes and clocks", row by row as the definition has them. A `match` finds the row at once; a search would look at
    /// fifteen.
    // Kept, what may not change: a VIC that is not listed has the mode 0, and no `Option`, for `mode_of` and `ModeTable.none` say so.
    #[rattlefmt::skip]
    #[tactic(auto, unfolding(crate::specs::Modes::mode_of))]
    pub fn of(vic: u8) -> Mode
        ensures { result ≡ mode_of vic }
    {
        match vic {
            1 => Mode { vic: 1, hertz: 25200000, families: 2, aspect: 1, colorimetry: 1 },
            2 => Mode { vic: 2, hertz: 27027000, families: 2, aspect: 1, colorimetry: 1 },
            3 => Mode { vic: 3, hertz: 27027000, families: 2, aspect: 2, colorimetry: 1 },
            4 => Mode { vic: 4, hertz: 74250000, families: 2, aspect: 2, colorimetry: 2 },
            5 => Mode { vic: 5, hertz: 74250000, families: 2, aspect: 2, colorimetry: 2 },
            16 => Mode { vic: 16, hertz: 148500000, families: 2, aspect: 2, colorimetry: 2 },
            17 => Mode { vic: 17, hertz: 27000000, families: 1, aspect: 1, colorimetry: 1 },
            18 => Mode { vic: 18, hertz: 27000000, families: 1, aspect: 2, colorimetry: 1 },
            19 => Mode { vic: 19, hertz: 74250000, families: 1, aspect: 2, colorimetry: 2 },
            20 => Mode { vic: 20, hertz: 74250000, families: 1, aspect: 2, colorimetry: 2 },
            31 => Mode { vic: 31, hertz: 148500000, families: 1, aspect: 2, colorimetry: 2 },
            32 => Mode { vic: 32, hertz: 74250000, families: 2, aspect: 2, colorimetry: 2 },
            34 => Mode { vic: 34, hertz: 74250000, families: 2, aspect: 2, colorimetry: 2 },
            60 => Mode { vic: 60, hertz: 59400000, families: 2, aspect: 2, colorimetry: 2 },
            62 => Mode { vic: 62, hertz: 74250000, families: 2, aspect: 2, colorimetry: 2 },
            _ => Mode { vic: 0, hertz: 0, families: 0, aspect: 0, colorimetry: 0 },
        }
    }
}

impl Video {
    /// What a body asks for. A byte that it does not have is 0.
    pub fn from_body(body: &[u8]) -> Video
        ensures { result ≡ video_in body.now }
    {
        Video {
            vic: lists::byte_at(body, 0),
            family: lists::byte_at(body, 1),
            encoding: lists::byte_at(body, 2),
            link: lists::byte_at(body, 3),
            range: lists::byte_at(body, 4),
            pixel: lists::byte_at(body, 5),
            edition: lists::byte_at(body, 6),
        }
    }

    /// The body that asks for it.
    pub fn to_body(self) -> [u8; VIDEO_COUNT as usize]
        ensures { result ≡ video_body self }
    {
        [
            self.vic,
            self.family,
            self.encoding,
            self.link,
            self.range,
            self.pixel,
            self.edition,
        ]
    }

    /// All fields 0: the video that the definition `emptied` has beside a refusal. No code calls it; the edits `every_field` and `type_under_d`
    /// spoil it.
    pub fn none() -> Video
        ensures { result ≡ no_video }
    {
        Video::default()
    }

    /// The depth, the lower half of its byte.
    pub fn depth(self) -> u8
        ensures { result ≡ depth self }
    {
        self.pixel % 16
    }

    /// The repetition, the upper half.
    pub fn repetition(self) -> u8
        ensures { result ≡ repetition self }
    {
        self.pixel / 16
    }

    /// The quantisation of E.
    pub fn ycc_quantisation(self) -> u8
        ensures { result ≡ ycc_quantisation self }
    {
        self.edition / 4 % 4
    }

    /// The content type of E.
    pub fn content_type(self) -> u8
        ensures { result ≡ content_type self }
    {
        self.edition / 16 % 4
    }

    /// The same in another family.
    pub fn in_family(self, family: u8) -> Video
        ensures { result ≡ in_family family self }
    {
        Video { family, ..self }
    }

    /// Row 5, of the edition byte.
    // Kept, what may not change: the rows below take the halves of a byte apart themselves, for an edit refuses each function by its own facts
    // (docs/DECISIONS.md, E1). Beside `deep_apart` and the first half of `pixel_outside` the edit `byte_forgotten` spoils `depth`; beside
    // `asked_under_d` the edit `bit_6_taken` spoils `ycc_quantisation` and `content_type`. The others are written alike.
    pub fn edition_outside(self) -> bool
        ensures { result ≡ edition_outside self }
    {
        1 < self.edition % 4 || 1 < self.edition / 4 % 4 || 0 < self.edition / 64
    }

    /// Row 5, of the fields that the AVI InfoFrame shows.
    #[tactic(auto, unfolding(crate::specs::Tests::shown_outside))]
    pub fn shown_outside(self) -> bool
        ensures { result ≡ shown_outside self }
    {
        2 < self.encoding || 1 < self.range || 2 < self.pixel / 16 || self.edition_outside()
    }

    /// Row 5, of this section.
    #[tactic(auto, unfolding(crate::specs::Tests::video_outside))]
    pub fn outside(self) -> bool
        ensures { result ≡ video_outside self }
    {
        1 < self.link || 2 < self.pixel % 16 || self.shown_outside()
    }

    /// Row 5, of the fields from which the clock is made.
    pub fn pixel_outside(self) -> bool
        ensures { result ≡ pixel_outside self }
    {
        2 < self.pixel % 16 || 2 < self.pixel / 16
    }

    /// Row 6: range 1 with YCbCr.
    pub fn full_ycbcr(self) -> bool
        ensures { result ≡ full_ycbcr self }
    {
        self.range == 1 && self.encoding != 0
    }

    /// Row 6: more than 24 bits with 4:2:2 or DVI.
    pub fn deep_apart(self) -> bool
        ensures { result ≡ deep_apart self }
    {
        (self.pixel % 16 != 0) && (self.encoding == 1 || self.link == 0)
    }

    /// Row 6: E's bits under D.
    pub fn asked_under_d(self) -> bool
        ensures { result ≡ asked_under_d self }
    {
        self.edition % 4 == 0 && (self.edition / 4 % 4 != 0 || self.edition / 16 % 4 != 0)
    }

    /// Row 6, of the fields that the AVI InfoFrame shows.
    #[tactic(auto, unfolding(crate::specs::Tests::shown_combined))]
    pub fn shown_combined(self) -> bool
        ensures { result ≡ shown_combined self }
    {
        self.full_ycbcr() || self.asked_under_d()
    }

    /// Row 6, of this section alone.
    #[tactic(auto, unfolding(crate::specs::Tests::video_combined))]
    pub fn combined(self) -> bool
        ensures { result ≡ video_combined self }
    {
        self.link == 0 && self.encoding != 0 || self.deep_apart() || self.shown_combined()
    }
}

/// The edition byte as it is answered: D's for an E that asks for nothing.
pub fn answered_edition(byte: u8) -> u8
    ensures { result ≡ answered_edition byte }
{
    if byte == 1 { 0 } else { byte }
}

/// The mode of each VIC is the table's.
pub fn mode_table()
    ensures { ModeTable }
{}

/// What is answered of a video leaves out the family, and an E that asks for nothing.
pub fn exception()
    ensures { Exception }
{}

/// A body and what it asks for say the same.
pub fn body_rule()
    ensures { Body }
{}
