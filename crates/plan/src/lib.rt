// Planning: from a request and a register image to the write list. Document 01, "The write list"; document 02, requests 02 and 06.
#![tactic(auto)]

ghost use Rattle.std.specs.Prelude.{◌≡◌, cond, not, ◌&&◌, List, [], ◌∷◌, map, ℕ, ◌+◌, ◌*◌, ◌/◌, ◌%◌, ◌^◌, ◌<◌, ◌≤◌, eqb, get_or, length};
ghost use Rattle.writes.specs.Rows.{from};
ghost use Rattle.map.specs.Map.{output_format_mask, pr_mode_shift, pr_pll_manual_shift, pr_value_manual_shift};
ghost use Rattle.wiring.specs.Wiring.{wires_of};
ghost use Rattle.wiring.specs.Theorems.{WiresFit};
ghost use Rattle.video.specs.Video.{depth, repetition};
ghost use Rattle.frames.specs.Frames.{avi_frame};
ghost use Rattle.matrix.specs.Matrix.{Bytes};
ghost use Rattle.clock.specs.Numbered.{Pair, pair_told};
ghost use Rattle.request.specs.declared.Request.{Request};
ghost use Rattle.request.specs.Read.{allowed_of, pair_for};
ghost use Rattle.chip.specs.Machine.{up, avi, audio, gc};
ghost use Rattle.writes.specs.List.{ready};
ghost use Rattle.plan.specs.Places.{with_sound, eight_channels, manual_cts, rate_code_of, depth_numbers, audio_packet, coefficient_places, places};
ghost use Rattle.plan.specs.Wanted.{placed_at, wanted, laid_out, laid_bytes, stores, clock_registers, input_registers, matrix_registers, enable_registers, frame_registers, wiring_registers};
ghost use Rattle.plan.specs.Numbered.{planned_told};
ghost use Rattle.plan.specs.Plan.{PlansWith, Plans, stands_in};
ghost use Rattle.plan.specs.Rules.{PlanRefusals};
ghost use Rattle.plan.specs.Another.{AnyOther};

use chip::Group;
use clock::NCts;
use frames::{AUDIO_FRAME, AVI_FRAME};
use map::Map;
use refusals::Refusal;
use request::Request;
use sound::Sound;
use std::array;
use video::Video;
use wiring::Wires;

// A number of 20 bits as three bytes.
fn twenty(n: u32) -> [u8; 3]
    ensures { result ≡ n / 65536 % 256 ∷ n / 256 % 256 ∷ n % 256 ∷ [] }
{
    let [_, high, middle, low] = n.to_be_bytes();
    [high, middle, low]
}

// Twelve coefficients as 24 bytes, the high five bits of each first.
fn halves(k: [u16; 12]) -> [u8; 24]
    requires { (i : ℕ) → get_or k i 0 < 8192 }
    ensures { result ≡ map (λ f. f.number) (coefficient_places 0x18 k 0 12) }
{
    array::from_fn(|i| k[i / 2].to_be_bytes()[i % 2])
}

// A request that no row of 4 to 6, 17 and 20 refuses.
#[derive(Clone, Copy)]
struct Accepted {
    request: Request,
    ghost allowed: { allowed_of request ≡ 0 },
}

impl Accepted {
    // The numbers of its wiring.
    fn wires(self) -> Wires
        ensures value { result ≡ wires_of self.request.wiring }
        ensures fit { WiresFit result }
    {
        Wires::from(self.request.wiring)
    }

    // The four sync values of its wiring, ten bits each, as five bytes.
    fn sync_bytes(self) -> [u8; Map::SYNC_GENERATION_COUNT as usize]
        ensures { (p : Pair) → result ≡ map (λ a. placed_at a (places self.request p)) (from 0x30 5) }
    {
        let wires = self.wires();
        [
            (wires.hplacement / 4) as u8,
            (wires.hplacement % 4 * 64 + wires.hduration / 16) as u8,
            (wires.hduration % 16 * 16 + wires.vplacement / 64) as u8,
            (wires.vplacement % 64 * 4 + wires.vduration / 256) as u8,
            (wires.vduration % 256) as u8,
        ]
    }

    // Whether it has sound.
    // Kept, no plainer: 0 or 1 and no `bool`, here, in `cts_select` and in `link`. `places` has these numbers, and a byte is a sum of such at their
    // places; a bool would be made one again where it is used.
    fn with_audio(self) -> u8
        ensures { (result ≡ with_sound self.request.sound) × (result ≤ 1) }
    {
        u8::from(self.request.sound.is_on())
    }

    // The code of its rate; of 48 kHz, rate 2, where there is no sound.
    fn rate_code(self) -> u8
        ensures { (result ≡ rate_code_of self.request.sound) × (result ≤ 15) }
    {
        match self.request.sound {
            Sound::Off => sound::code_of(2),
            Sound::On { rate, .. } => sound::code_of(rate),
        }
    }

    // A bit for each of I2S0 to I2S3.
    fn inputs(self) -> u8
        ensures { (result ≡ eight_channels self.request.sound * 14 + with_sound self.request.sound) × (result ≤ 15) }
    {
        match self.request.sound {
            Sound::Off => 0,
            Sound::On { channels: 8, .. } => 15,
            Sound::On { .. } => 1,
        }
    }

    // Whether its CTS is the manual one.
    fn cts_select(self) -> u8
        ensures { (result ≡ manual_cts self.request.sound) × (result ≤ 1) }
    {
        match self.request.sound {
            Sound::Off => 0,
            Sound::On { coherent, .. } => coherent,
        }
    }

    // The output format of its encoding.
    fn output_format(self) -> u8
        ensures { result ≡ cond (eqb self.request.video.encoding 1) 1 0 * output_format_mask }
    {
        if self.request.video.encoding == 1 {
            Map::OUTPUT_FORMAT_MASK
        } else {
            0
        }
    }

    // The code of its depth.
    fn depth_code(self) -> u8
        ensures { result ≡ get_or depth_numbers (depth self.request.video) 0 }
    {
        match self.request.video.depth() {
            1 => 5,
            2 => 6,
            _ => 0,
        }
    }

    // Its repetition in its two fields, beside the mode of repetition.
    fn repetition_byte(self) -> u8
        ensures { result ≡ 2 * 2 ^ pr_mode_shift + repetition self.request.video * 2 ^ pr_pll_manual_shift + repetition self.request.video * 2 ^ pr_value_manual_shift }
    {
        let repetition = self.request.video.repetition();
        2 * (1 << Map::PR_MODE_SHIFT)
            + repetition * (1 << Map::PR_PLL_MANUAL_SHIFT)
            + repetition * (1 << Map::PR_VALUE_MANUAL_SHIFT)
    }

    // Whether its link is HDMI.
    fn link(self) -> u8
        ensures { (result ≡ self.request.video.link) × (result ≤ 1) }
    {
        self.request.video.link
    }

    // The 24 bytes of its converter.
    fn csc_bytes(self) -> [u8; 24]
        ensures { (p : Pair) → result ≡ map (λ a. placed_at a (places self.request p)) matrix_registers }
    {
        let m = self.request.matrix;
        let mut out = halves(m.coefficients);
        out[0] += m.on * (1 << Map::CSC_ENABLE_SHIFT)
            + m.mode * (1 << Map::CSC_SCALING_FACTOR_SHIFT);
        out
    }

    // The AVI InfoFrame of its video.
    fn avi_bytes(self) -> [u8; AVI_FRAME]
        ensures { result ≡ avi_frame self.request.video }
    {
        frames::avi_of(self.request.video).unwrap()
    }

    // The audio InfoFrame of its sound.
    fn audio_bytes(self) -> [u8; AUDIO_FRAME]
        ensures { result ≡ audio_packet self.request.sound }
    {
        match self.request.sound {
            Sound::Off => frames::audio_off(),
            Sound::On { channels, .. } => frames::audio_of(channels).unwrap(),
        }
    }
}

// The byte that every register with a named bit is to hold, stored in its place, over zeros.
#[derive(Drop)]
struct Wanted {
    bytes: [u8; 256],
}

impl Wanted {
    // Bytes stored from a place on.
    fn laid(&mut self, at: u8, bytes: &[u8])
        requires { at + length bytes.now ≤ 256 }
        ensures { self.new.bytes ≡ stores self.old.bytes (laid_bytes at bytes.now) }
    {
        lists::copy(bytes, &mut self.bytes[at as usize..]);
    }

    // N and CTS.
    fn with_clock(&mut self, pair: NCts)
        requires { (pair.n < 1048576) × (pair.cts < 1048576) }
        ensures { (r : Request) → self.new.bytes ≡ stores self.old.bytes (laid_out clock_registers (places r (pair_told (Ok pair)))) }
    {
        self.laid(Map::N0, &twenty(pair.n));
        self.laid(Map::CTS_MANUAL0, &twenty(pair.cts));
    }

    // How sound and picture arrive, and the output format.
    fn with_inputs(&mut self, accepted: Accepted)
        ensures { (p : Pair) → self.new.bytes ≡ stores self.old.bytes (laid_out input_registers (places accepted.request p)) }
    {
        let wires = accepted.wires();
        self.bytes[Map::AUDIO_SOURCE as usize] = accepted.cts_select()
            * (1 << Map::CTS_SELECT_SHIFT);
        self.bytes[Map::I2S_CONFIG as usize] = accepted.inputs() * (1 << Map::I2S0_ENABLE_SHIFT);
        self.bytes[Map::I2S_FREQ_ID_CFG as usize] = accepted.rate_code()
            * (1 << Map::I2S_SAMPLING_FREQUENCY_SHIFT)
            + wires.input;
        self.bytes[Map::VIDEO_INPUT_CFG1 as usize] = accepted.output_format()
            + wires.depth * (1 << Map::INPUT_COLOR_DEPTH_SHIFT)
            + wires.style * (1 << Map::INPUT_STYLE_SHIFT);
    }

    // The 24 bytes of the converter.
    fn with_matrix(&mut self, accepted: Accepted)
        ensures { (p : Pair) → self.new.bytes ≡ stores self.old.bytes (laid_out matrix_registers (places accepted.request p)) }
    {
        self.laid(Map::CSC, &accepted.csc_bytes());
    }

    // The embedded syncs and the justification.
    fn with_wiring(&mut self, accepted: Accepted)
        ensures { (p : Pair) → self.new.bytes ≡ stores self.old.bytes (laid_out wiring_registers (places accepted.request p)) }
    {
        self.laid(Map::SYNC_GENERATION, &accepted.sync_bytes());
        self.bytes[Map::VIDEO_INPUT_CFG2 as usize] = accepted.wires().justification
            * (1 << Map::VIDEO_INPUT_JUSTIFICATION_SHIFT);
    }

    // The repetition, the VIC, the enables, the depth and HDMI or DVI.
    fn with_enables(&mut self, accepted: Accepted)
        ensures { (p : Pair) → self.new.bytes ≡ stores self.old.bytes (laid_out enable_registers (places accepted.request p)) }
    {
        let link = accepted.link();
        let audio = Map::N_CTS_PACKET_ENABLE_MASK
            + Map::AUDIO_SAMPLE_PACKET_ENABLE_MASK
            + Map::AUDIO_INFOFRAME_ENABLE_MASK;
        self.bytes[Map::PIXEL_REPETITION as usize] = accepted.repetition_byte();
        self.bytes[Map::VIC_MANUAL as usize] = accepted.request.video.vic;
        self.bytes[Map::PACKET_ENABLE0 as usize] = link * Map::GC_PACKET_ENABLE_MASK;
        self.bytes[Map::PACKET_ENABLE1 as usize] = accepted.with_audio() * audio
            + link * Map::AVI_INFOFRAME_ENABLE_MASK;
        self.bytes[Map::INFOFRAME_UPDATE as usize] = Map::AUTO_CHECKSUM_ENABLE_MASK;
        self.bytes[Map::AV_MUTE as usize] = Map::CLEAR_AV_MUTE_MASK;
        self.bytes[Map::GC_DEPTH as usize] = accepted.depth_code();
        self.bytes[Map::HDCP_HDMI_CFG as usize] = link * Map::HDMI_DVI_MODE_SELECT_MASK;
    }

    // The registers of the two InfoFrames.
    fn with_frames(&mut self, accepted: Accepted)
        ensures { (p : Pair) → self.new.bytes ≡ stores self.old.bytes (laid_out frame_registers (places accepted.request p)) }
    {
        let video = accepted.avi_bytes();
        let audio = accepted.audio_bytes();
        self.laid(Map::AVI_INFOFRAME_VERSION, &video[1..]);
        self.laid(Map::AUDIO_INFOFRAME_VERSION, &audio[1..]);
    }

    // All of them.
    fn of(accepted: Accepted, pair: NCts) -> Wanted
        requires { pair_told (Ok pair) ≡ pair_for accepted.request }
        ensures { (a : ℕ) → get_or result.bytes a 0 ≡ wanted accepted.request a }
    {
        let mut wanted = Wanted { bytes: [0; 256] };
        wanted.with_clock(pair);
        wanted.with_inputs(accepted);
        wanted.with_matrix(accepted);
        wanted.with_enables(accepted);
        wanted.with_frames(accepted);
        wanted.with_wiring(accepted);
        wanted
    }
}

/// GC hold down, and not both other holds up.
pub fn is_ready(holds: u8) -> bool
    ensures { result ≡ (not (up gc holds) && not (up avi holds && up audio holds)) }
{
    !Group::GC.is_up(holds) && !(Group::AVI.is_up(holds) && Group::AUDIO.is_up(holds))
}

// The write list of a request that was read: refusals 7 to 10.
fn plan_with(accepted: Accepted, image: &[u8], writes: &mut [u8]) -> Result<u32, Refusal>
    ensures { PlansWith accepted.request image.now writes.old (planned_told result) writes.new }
{
    let image: &[u8; 256] = image.try_into().map_err(|_| Refusal::ImageLength)?;
    if !is_ready(image[Map::INFOFRAME_UPDATE as usize]) {
        return Err(Refusal::HoldsUp);
    }
    let pair = accepted.request.pair()?;
    if writes.len() < 256 {
        return Err(Refusal::BufferShort);
    }
    let wanted = Wanted::of(accepted, pair);
    Ok(writes::write_list(image, &wanted.bytes, writes))
}

/// The write list of a request on an image, as pairs of address and value in a lent buffer, and their count: refusals 1 to 6, 17, 20 and 7
/// to 10.
pub fn plan(input: &[u8], image: &[u8], writes: &mut [u8]) -> Result<u32, Refusal>
    ensures { Plans input.now image.now writes.old (planned_told result) writes.new }
{
    let request = request::read(input)?.within()?;
    plan_with(Accepted { request }, image, writes)
}

/// Whether a request is accepted on some image, and its list would leave this image as it is.
pub fn stands(r: Request, image: &[u8]) -> bool
    ensures { result ≡ stands_in r image.now }
{
    if r.allowed().is_err() {
        return false;
    }
    if image.len() != 256 {
        return false;
    }
    let Ok(pair) = r.pair() else {
        return false;
    };
    let wanted = Wanted::of(Accepted { request: r }, pair);
    writes::stands(image, &wanted.bytes)
}

/// The refusals of planning, in document 01's order.
pub fn refusals_of_a_plan()
    ensures { (input : List ℕ) → Bytes input → (image buffer : List ℕ) → PlanRefusals input image buffer }
{}

/// Of an image to which neither 7 nor 8 applies, planning's refusal sees nothing more.
pub fn on_another_image()
    ensures { AnyOther }
{}
