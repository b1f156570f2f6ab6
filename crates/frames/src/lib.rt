// The checksum, and the AVI and audio InfoFrames: document 01, "InfoFrames"; document 02, requests 01, 06 and 11.
#![tactic(auto)]

ghost use Rattle.std.specs.Prelude.{◌≡◌, ◌%◌, ◌<◌, false, get_or, take, drop};
ghost use Rattle.video.specs.Modes.{mode_of};
ghost use Rattle.video.specs.Tests.{shown_outside};
ghost use Rattle.frames.specs.Frames.{total, checksum_of, frame, colorimetry, quantisation, repeats, avi_frame};
ghost use Rattle.frames.specs.Audio.{audio_header, audio_payload, audio_off_frame};
ghost use Rattle.frames.specs.Named.{edition_named, video_named};
ghost use Rattle.frames.specs.Answers.{avi_told, audio_told, GivesAvi, GivesAudio};
ghost use Rattle.frames.specs.Theorems.{Checksum, FrameRefusals, NamedBack};
ghost use Rattle.frames.specs.Editions.{BothEditions};

use refusals::Refusal;
use video::{Mode, Video};

/// The data bytes of an AVI InfoFrame.
pub const AVI_COUNT: u8 = 13;

/// All its bytes: a header of three and the checksum stand before the data bytes.
pub const AVI_FRAME: usize = 4 + AVI_COUNT as usize;

/// The data bytes of an audio InfoFrame.
pub const AUDIO_COUNT: u8 = 10;

/// All its bytes, likewise.
pub const AUDIO_FRAME: usize = 4 + AUDIO_COUNT as usize;

/// The sum of the bytes, modulo 256.
pub fn sum(s: &[u8]) -> u8
    ensures { result ≡ total s.now % 256 }
{
    s.iter().fold(0u8, |t, x| t.wrapping_add(*x))
}

/// The byte that makes the sum of all zero modulo 256.
pub fn checksum(s: &[u8]) -> u8
    ensures { result ≡ checksum_of s.now }
{
    0u8.wrapping_sub(sum(s))
}

// A frame: a header of three bytes and a payload, with the checksum where a 0 stands between them.
fn with_checksum<const N: usize>(mut bytes: [u8; N]) -> [u8; N]
    requires { (3 < N) × (get_or bytes 3 0 ≡ 0) }
    ensures { result ≡ frame (take 3 bytes.entry) (drop 4 bytes.entry) }
{
    bytes[3] = checksum(&bytes);
    bytes
}

// C of the AVI InfoFrame.
fn colour(mode: Mode, encoding: u8) -> u8
    ensures { result ≡ colorimetry mode encoding }
{
    match encoding {
        0 => 0,
        _ => mode.colorimetry,
    }
}

// Q of the AVI InfoFrame.
fn quantised(video: Video) -> u8
    ensures { result ≡ quantisation video }
{
    match (video.encoding, video.range) {
        (0, 0) => 1,
        (0, _) => 2,
        _ => 0,
    }
}

// PR of the AVI InfoFrame.
fn repeated(video: Video) -> u8
    ensures { result ≡ repeats video }
{
    match video.repetition() {
        1 => 1,
        2 => 3,
        _ => 0,
    }
}

// The AVI InfoFrame of a video, whose mode is given.
// Kept, no plainer: the mode stands beside the video that names it, for `avi_of` has looked it up already. A struct of the two would be made and
// opened once.
#[tactic(auto, using(crate::proofs::Small::encoding_small, crate::proofs::Small::second_small))]
fn avi_frame(video: Video, mode: Mode) -> [u8; AVI_FRAME]
    requires { (mode ≡ mode_of video.vic) × (shown_outside video ≡ false) }
    ensures { result ≡ avi_frame video }
{
    let first = video.encoding * 32 + 16;
    let second = colour(mode, video.encoding) * 64 + mode.aspect * 16 + 8;
    let third = quantised(video) * 4;
    let ycc = video.ycc_quantisation();
    let content = video.content_type();
    let repeats = repeated(video);
    let fifth = ycc * 64 + content * 16 + repeats;
    with_checksum([
        0x82, 0x02, AVI_COUNT, 0, first, second, third, video.vic, fifth, 0, 0, 0, 0, 0, 0, 0, 0,
    ])
}

/// The AVI InfoFrame of a video: refusals 4, 5 and 6.
#[tactic(auto, unfolding(crate::specs::Answers::avi_of))]
pub fn avi_of(video: Video) -> Result<[u8; AVI_FRAME], Refusal>
    ensures { GivesAvi video (avi_told result) }
{
    let mode = Mode::of(video.vic);
    if mode.families == 0 {
        return Err(Refusal::ModeNotOffered);
    }
    if video.shown_outside() {
        return Err(Refusal::FieldOutOfRange);
    }
    if video.shown_combined() {
        return Err(Refusal::Combination);
    }
    Ok(avi_frame(video, mode))
}

// The edition byte, by data byte 5.
fn edition_named(fifth: u8) -> u8
    ensures { result ≡ edition_named fifth }
{
    let ycc = fifth / 64 % 4 * 4;
    let content = fifth / 16 % 4 * 16;
    video::answered_edition(1 + ycc + content)
}

/// What the data bytes of an AVI InfoFrame name, over a link and at a depth, in family 0.
pub fn video_named(link: u8, depth: u8, bytes: &[u8]) -> Video
    ensures { result ≡ video_named link depth bytes.now }
{
    let fifth = lists::byte_at(bytes, 4);
    Video {
        vic: lists::byte_at(bytes, 3),
        family: 0,
        encoding: lists::byte_at(bytes, 0) / 32 % 4,
        link,
        range: lists::byte_at(bytes, 2) / 8 % 2,
        pixel: (fifth % 16 + 1) / 2 * 16 + depth % 16,
        edition: edition_named(fifth),
    }
}

// An audio InfoFrame whose data bytes 1 and 4 are these, and the others 0.
fn audio_frame(count: u8, allocation: u8) -> [u8; AUDIO_FRAME]
    ensures { result ≡ frame audio_header (audio_payload count allocation) }
{
    with_checksum([
        0x84,
        0x01,
        AUDIO_COUNT,
        0,
        count,
        0,
        0,
        allocation,
        0,
        0,
        0,
        0,
        0,
        0,
    ])
}

/// The audio InfoFrame of 2 or 8 channels: refusal 5.
#[tactic(auto, unfolding(crate::specs::Answers::audio_of, crate::specs::Audio::audio_frame))]
pub fn audio_of(channels: u8) -> Result<[u8; AUDIO_FRAME], Refusal>
    ensures { GivesAudio channels (audio_told result) }
{
    match channels {
        2 => Ok(audio_frame(1, 0x00)),
        8 => Ok(audio_frame(7, 0x13)),
        _ => Err(Refusal::FieldOutOfRange),
    }
}

/// The audio InfoFrame where sound is off.
#[tactic(auto, unfolding(crate::specs::Audio::audio_off_frame))]
pub fn audio_off() -> [u8; AUDIO_FRAME]
    ensures { result ≡ audio_off_frame }
{
    audio_frame(0, 0)
}

/// The checksum's promise.
#[tactic(auto, using(crate::proofs::Sealed::holds))]
pub fn checksum_rule()
    ensures { Checksum }
{}

/// The refusals of the two calls, in document 01's order.
#[tactic(auto, using(crate::proofs::Refused::refusals))]
pub fn frame_refusals()
    ensures { FrameRefusals }
{}

/// A packet of E, shown to a reader that knows only D, and to one that knows E.
pub fn both_editions()
    ensures { BothEditions }
{}

/// An AVI InfoFrame names the video that it was made for, but for the family and for an E that asks for nothing.
#[tactic(auto, using(crate::proofs::Named::named))]
pub fn named_back()
    ensures { NamedBack }
{}
