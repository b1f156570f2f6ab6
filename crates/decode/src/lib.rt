// Decoding: from a finished image back to the request. Document 01, "Register classes", last paragraph.
#![tactic(auto)]

ghost use Rattle.std.specs.Prelude.{◌≡◌, ◌||◌, List, ℕ, ◌+◌, ◌*◌, ◌<◌, ◌≤◌, get_or, length};
ghost use Rattle.wiring.specs.Kinds.{twelve_count};
ghost use Rattle.wiring.specs.Wiring.{wiring_body};
ghost use Rattle.sound.specs.Sound.{audio_count, audio_body};
ghost use Rattle.request.specs.declared.Request.{Request};
ghost use Rattle.request.specs.Sections.{matrix_count, longest};
ghost use Rattle.request.specs.Bytes.{matrix_body, as_bytes, request_in_family};
ghost use Rattle.plan.specs.Plan.{stands_in};
ghost use Rattle.decode.specs.Extract.{wires_in, sound_in, matrix_in, depth_of, extract};
ghost use Rattle.decode.specs.Numbered.{decoded_told};
ghost use Rattle.decode.specs.Writer.{HasRoomFor, WroteSection};
ghost use Rattle.decode.specs.Decode.{in_front, is_coherent, Decodes};
ghost use Rattle.decode.specs.Theorems.{ExactlyWhen, BitByBit, AtMostOne, Refusals};
ghost use Rattle.decode.specs.ReadBack.{ReadBack};

use frames::AVI_COUNT;
use map::Map;
use matrix::Matrix;
use refusals::Refusal;
use request::Request;
use request::sections::LONGEST;
use sound::Sound;
use std::array;
use wiring::{Wires, Wiring};

// The depth of a code; 3 for a code that is none.
// Kept, what may not change: 3 and no `None`, for `depth_of` (Extract) has it, and the request that is made of it is refused by row 5.
fn depth_of(code: u8) -> u8
    ensures { result ≡ depth_of code }
{
    match code {
        0 => 0,
        5 => 1,
        6 => 2,
        _ => 3,
    }
}

// A number of which one register has the high bits and another the low ones.
fn joined(high: u8, width: u16, low: u8) -> u16
    requires { width ≤ 256 }
    ensures { (result ≡ high * width + low) × (high < 256) × (low < 256) }
{
    u16::from(high) * width + u16::from(low)
}

// The numbers of the wiring; a sync value lies in two registers.
fn wires_in(image: &[u8; 256]) -> Wires
    ensures { result ≡ wires_in image.now }
{
    let syncs = Map::SYNC_GENERATION as usize;
    let format = image[Map::VIDEO_INPUT_CFG1 as usize];
    let [a, b, c, d, e]: [u8; 5] = array::from_fn(|i| image[syncs + i]);
    Wires {
        input: image[Map::I2S_FREQ_ID_CFG as usize] % 16,
        depth: (format >> Map::INPUT_COLOR_DEPTH_SHIFT) % 4,
        style: (format >> Map::INPUT_STYLE_SHIFT) % 4,
        justification: (image[Map::VIDEO_INPUT_CFG2 as usize]
            >> Map::VIDEO_INPUT_JUSTIFICATION_SHIFT)
            % 4,
        hplacement: joined(a, 4, b / 64 % 4),
        hduration: joined(b % 64, 16, c / 16 % 16),
        vplacement: joined(c % 16, 64, d / 4 % 64),
        vduration: joined(d % 4, 256, e),
    }
}

fn sound_in(image: &[u8; 256]) -> Sound
    ensures { result ≡ sound_in image.now }
{
    if image[Map::PACKET_ENABLE1 as usize] / Map::AUDIO_SAMPLE_PACKET_ENABLE_MASK % 2 == 0 {
        Sound::Off
    } else {
        let code = (image[Map::I2S_FREQ_ID_CFG as usize] >> Map::I2S_SAMPLING_FREQUENCY_SHIFT) % 16;
        Sound::On {
            rate: sound::rate_of(code),
            channels: image[Map::AUDIO_INFOFRAME_BYTE1 as usize] % 8 + 1,
            coherent: image[Map::AUDIO_SOURCE as usize] / Map::CTS_SELECT_MASK % 2,
        }
    }
}

fn matrix_in(image: &[u8; 256]) -> Matrix
    ensures { result ≡ matrix_in image.now }
{
    let start = Map::CSC as usize;
    let end = start + Map::CSC_COUNT as usize;
    let first = image[start];
    if first / Map::CSC_ENABLE_MASK % 2 == 0 {
        Matrix::none()
    } else {
        Matrix {
            on: 1,
            mode: (first >> Map::CSC_SCALING_FACTOR_SHIFT) % 4,
            coefficients: matrix::twelve(&image[start..end]),
        }
    }
}

// The request that the image's registers name, in family 0, and under D where nothing of E is asked for.
fn extract(image: &[u8; 256]) -> Request
    ensures { result ≡ extract image.now }
{
    let link = image[Map::HDCP_HDMI_CFG as usize] / Map::HDMI_DVI_MODE_SELECT_MASK % 2;
    let depth = depth_of(image[Map::GC_DEPTH as usize] % 16);
    let start = Map::AVI_INFOFRAME_BYTE1 as usize;
    let end = start + AVI_COUNT as usize;
    Request {
        wiring: Wiring::from(wires_in(image)),
        video: frames::video_named(link, depth, &image[start..end]),
        sound: sound_in(image),
        matrix: matrix_in(image),
    }
}

// A request that is being written: the buffer, and the place of the next section.
#[derive(Drop)]
struct Writer<'a> {
    buffer: &'a mut [u8],
    place: usize,
}

impl<'a> Writer<'a> {
    // A section, its count and its body.
    fn section(&mut self, body: &[u8])
        requires short { length body.now < 256 }
        requires has_room { HasRoomFor self.old (length body.now) }
        ensures { WroteSection self.old body.now self.new }
    {
        let start = self.place + 1;
        self.buffer[self.place] = body.len() as u8;
        lists::copy(body, &mut self.buffer[start..]);
        self.place = start + body.len();
    }

    // The wiring, with none, four or twelve bytes.
    fn wiring_section(&mut self, wiring: Wiring)
        requires { HasRoomFor self.old twelve_count }
        ensures { WroteSection self.old (wiring_body wiring) self.new }
    {
        match wiring {
            Wiring::Board => self.section(&[]),
            Wiring::Four {
                input,
                depth,
                style,
                justification,
            } => self.section(&[input, depth, style, justification]),
            Wiring::Twelve {
                input,
                depth,
                style,
                justification,
                hplacement,
                hduration,
                vplacement,
                vduration,
            } => {
                let [a, b] = hplacement.to_be_bytes();
                let [c, d] = hduration.to_be_bytes();
                let [e, f] = vplacement.to_be_bytes();
                let [g, h] = vduration.to_be_bytes();
                self.section(&[input, depth, style, justification, a, b, c, d, e, f, g, h]);
            }
        }
    }

    // The sound, with none or three bytes.
    fn audio_section(&mut self, sound: Sound)
        requires { HasRoomFor self.old audio_count }
        ensures { WroteSection self.old (audio_body sound) self.new }
    {
        match sound {
            Sound::Off => self.section(&[]),
            Sound::On {
                rate,
                channels,
                coherent,
            } => self.section(&[rate, channels, coherent]),
        }
    }

    // The matrix, with none or 25 bytes.
    fn matrix_section(&mut self, matrix: Matrix)
        requires small { (i : ℕ) → get_or matrix.coefficients i 0 < 8192 }
        requires has_room { HasRoomFor self.old matrix_count }
        ensures { WroteSection self.old (matrix_body matrix) self.new }
    {
        if matrix.on == 0 {
            self.section(&[]);
        } else {
            self.section(&matrix.body());
        }
    }
}

// The bytes of a request at the front of the buffer, section after section, and their count.
fn emit(q: Request, buffer: &mut [u8]) -> usize
    requires long { longest ≤ length buffer.old }
    requires small { (i : ℕ) → get_or q.matrix.coefficients i 0 < 8192 }
    ensures value { (result ≡ length (as_bytes q)) × (result ≤ longest) }
    ensures buffer_after { buffer.new ≡ in_front (as_bytes q) buffer.old }
{
    let mut writer = Writer { buffer, place: 0 };
    writer.wiring_section(q.wiring);
    writer.section(&q.video.to_body());
    writer.audio_section(q.sound);
    writer.matrix_section(q.matrix);
    writer.place
}

// The request in a family.
fn in_family(q: Request, family: u8) -> Request
    ensures { result ≡ request_in_family family q }
{
    Request {
        video: q.video.in_family(family),
        ..q
    }
}

// Whether sound is coherent.
fn is_coherent(sound: Sound) -> bool
    ensures { result ≡ is_coherent sound }
{
    matches!(sound, Sound::On { coherent: 1, .. })
}

// Whether the request, in one of its families, is accepted on some image and stands in this one. Where the sound is not coherent, the second
// family wants what the first does.
fn ends(q: Request, image: &[u8; 256]) -> bool
    ensures { result ≡ (stands_in (request_in_family 0 q) image.now || stands_in (request_in_family 1 q) image.now) }
{
    plan::stands(in_family(q, 0), image)
        || (is_coherent(q.sound) && plan::stands(in_family(q, 1), image))
}

/// The request that ends in an image, in a lent buffer, and the count of its bytes: refusals 7, 10 and 11.
pub fn decode(image: &[u8], buffer: &mut [u8]) -> Result<u32, Refusal>
    ensures { Decodes image.now buffer.old (decoded_told result) buffer.new }
{
    let image: &[u8; 256] = image.try_into().map_err(|_| Refusal::ImageLength)?;
    if buffer.len() < LONGEST {
        return Err(Refusal::BufferShort);
    }
    let q = extract(image);
    if !ends(q, image) {
        return Err(Refusal::NoRequest);
    }
    Ok(emit(q, buffer) as u32)
}

/// "Decoding answers a request exactly when .."
pub fn exactly_when()
    ensures { (image buffer : List ℕ) → ExactlyWhen image buffer }
{}

/// ".. every named and mandated bit its list writes stands in the image as that list leaves it; free and read-only bits do not count."
pub fn bit_by_bit()
    ensures { (r : Request) (before image : List ℕ) → BitByBit r before image }
{}

/// No two requests end in an image: the family is answered as 0, E that asks for nothing as D, and every other field has its register.
pub fn at_most_one()
    ensures { (image : List ℕ) → AtMostOne image }
{}

/// "decoding 7, 10 and 11": the lowest that applies is given, with count 0 and the buffer as it was.
pub fn refusals_of_decoding()
    ensures { (image buffer : List ℕ) → Refusals image buffer }
{}

/// Demand 2: "the finished image reads back as the same request, but for the frame-rate family", and for an E that asks for nothing.
pub fn read_back()
    ensures { (input before image : List ℕ) → ReadBack input before image }
{}
