// What a screen says of itself, and the first wish that fits it: document 02, request 12.
#![tactic(auto)]

ghost use Rattle.std.specs.Prelude.{◌≡◌, ◌≢◌, MatchOption, MatchResult, Bool, true, false, List, ℕ, ◌-◌, ◌+◌, ◌^◌, ◌<◌, ◌≤◌};
ghost use Rattle.lists.specs.Find.{some};
ghost use Rattle.refusals.specs.Numbered.{refusal_number};
ghost use Rattle.refusals.specs.declared.Refusal.TheVariants.{EdidBlock};
ghost use Rattle.request.specs.Read.{read_of, ncts_of};
ghost use Rattle.edid.specs.declared.Ask.{Ask};
ghost use Rattle.edid.specs.Screen.{Block, extension, collection, data_blocks, descriptor, descriptors, covered_by, tells_in, tells};
ghost use Rattle.edid.specs.Wish.{wishes_in};
ghost use Rattle.edid.specs.Found.{is_past, is_edid, wrong_start, bad_extension, edid_refusal, word_of, monitor_told, ShowsScreen};
ghost use Rattle.edid.specs.Found.{sound_told, is_shown, is_fitting, vic_at, choice_told, ChoosesWish};
ghost use Rattle.edid.specs.Code.{Tests, Answers, AsksBy, wish_of, first_in};
ghost use Rattle.matrix.specs.Matrix.{Bytes};
ghost use Rattle.edid.specs.Wish.{Wish};
ghost use Rattle.edid.specs.Theorems.{DataBlocks, Overview, InPlace, Chooses};
ghost use Rattle.edid.specs.Cases.{EdidCases};

use refusals::Refusal;
use request::sections::{LONGEST, WIRING, walk};
use sound::Sound;

/// The bytes of a block. An EDID has a base block, and at most one extension, which has its data blocks from a byte on.
pub const BLOCK: usize = 128;

/// The bytes of an EDID with an extension.
pub const EDID: usize = 2 * BLOCK;

/// The bytes with which a base block begins.
pub const HEADER: usize = 8;

const START: [u8; HEADER] = [0, 255, 255, 255, 255, 255, 255, 0];

const FIRST_BLOCK: usize = 4;

const CEA: u8 = 2;

const REVISION: u8 = 3;

const LAST_OFFSET: u8 = 127;

// The tags of data blocks, and the format of linear PCM.
const AUDIO: u8 = 1;

const VIDEO: u8 = 2;

const LINEAR: u8 = 1;

/// The bytes of as many wishes as there may be, two each.
pub const WISHES: usize = 32;

/// What a screen is asked: whether it lists a VIC, and whether it covers a rate and channels.
// Kept, what may not change: two fields and no `Pcm`, for `tells_in`, `SoundCovered` and `Overview` name each.
#[derive(Clone, Copy, Debug, PartialEq, Eq)]
pub enum Ask {
    Vic(u8),
    Pcm { rate: u8, channels: u8 },
}

/// The VICs that a screen lists, and the rates that it covers with two channels and with eight, a bit each.
#[derive(Clone, Copy, Debug, PartialEq, Eq)]
pub struct Screen {
    pub vics_low: u32,
    pub vics_high: u32,
    pub rates_2: u32,
    pub rates_8: u32,
}

/// The place of a wish, and where its VIC goes in the request.
#[derive(Clone, Copy, Debug, PartialEq, Eq)]
pub struct Chosen {
    pub place: u32,
    pub at: u32,
}

fn is_edid(edid: &[u8]) -> bool
    ensures { result ≡ is_edid edid.now }
{
    matches!(edid.len(), BLOCK | EDID) && edid.starts_with(&START)
}

// Whether a data block passes a test, by its tag and its bytes; row 23 where one runs past the end before any does.
fn any_block<F: Fn(u8, &[u8]) -> bool>(bytes: &[u8], test: F) -> Result<bool, Refusal>
    requires { F.IsAlwaysCallable test }
    ensures { (passes : Block → Bool) → Tests (F.post test) passes → Answers passes (data_blocks bytes.now) result }
{
    let mut left = bytes;
    while let Some((head, behind)) = left.split_first() {
        let (body, rest) = behind
            .split_at_checked(usize::from(head % 32))
            .ok_or(Refusal::EdidBlock)?;
        if test(head / 32, body) {
            return Ok(true);
        }
        left = rest;
    }
    Ok(false)
}

// Whether an extension's first bytes are wrong: its tag, or its offset.
fn is_wrong_start(ext: &[u8; BLOCK]) -> bool
    ensures { result ≡ wrong_start ext.now }
{
    ext[0] != CEA || matches!(ext[2], 1..=3) || LAST_OFFSET < ext[2]
}

// A sampling rate, by its number, and how many channels.
#[derive(Clone, Copy)]
struct Pcm {
    rate: u8,
    channels: u8,
}

impl Pcm {
    // Whether a short audio descriptor covers it, by its first two bytes.
    fn is_covered(self, first: u8, rates: u8) -> bool
        ensures { result ≡ covered_by self.rate self.channels (descriptor first rates) }
    {
        first / 8 % 16 == LINEAR
            && self.channels <= first % 8 + 1
            && self.rate < 7
            && (rates >> self.rate) % 2 == 1
    }

    // Whether one of a block's short audio descriptors covers it.
    // Kept, what may not change: a loop that takes them off one by one. `chunks_exact` would divide by three, and the crates of the exported
    // library divide by powers of two alone (docs/DECISIONS.md, 05.1).
    fn is_in(self, body: &[u8]) -> bool
        ensures { result ≡ some (covered_by self.rate self.channels) (descriptors body.now) }
    {
        let mut left = body;
        while let Some(([first, rates, _], behind)) = left.split_first_chunk::<3>() {
            if self.is_covered(*first, *rates) {
                return true;
            }
            left = behind;
        }
        false
    }
}

impl Ask {
    // What a data block says to the question.
    fn is_told_by(self, tag: u8, body: &[u8]) -> bool
        ensures { result ≡ tells_in self (record { tag = tag; body = body.now }) }
    {
        match self {
            Ask::Vic(vic) => tag == VIDEO && body.iter().any(|byte| vic == byte % 128),
            Ask::Pcm { rate, channels } => tag == AUDIO && Pcm { rate, channels }.is_in(body),
        }
    }
}

// The sound of a request that is accepted: rows 1 to 6, 17, 20 and 9.
fn accepted(request: &[u8]) -> Result<Sound, Refusal>
    ensures { MatchResult result (λ sound. ((ncts_of request.now).refusal ≡ 0) × (sound ≡ (read_of request.now).request.sound)) (λ e. (ncts_of request.now).refusal ≢ 0) }
{
    let asked = request::read(request)?.within()?;
    asked.pair()?;
    Ok(asked.sound)
}

// A request with a place for a wish: where its VIC stands, with its family behind.
#[derive(Clone, Copy)]
struct Template<'a> {
    request: &'a [u8],
    at: usize,
    ghost there: { (vic_at request.now ≡ at) × (at ≢ 0) },
}

impl<'a> Template<'a> {
    // That of a request, if it has such a place and is no longer than any request.
    fn of(request: &'a [u8]) -> Option<Template<'a>>
        ensures { MatchOption result (vic_at request.now ≡ 0) (λ t. t.request.now ≡ request.now) }
    {
        if LONGEST < request.len() {
            return None;
        }
        let ends = walk(request).ok()?;
        Some(Template {
            request,
            at: ends[WIRING] + 1,
        })
    }
}

// The bytes of a screen's data blocks, none of which runs past the end.
#[derive(Clone, Copy)]
struct Collection<'a> {
    bytes: &'a [u8],
    ghost whole: { is_past (data_blocks bytes.now) ≡ false },
}

impl<'a> Collection<'a> {
    // Bytes, if none of their data blocks runs past the end: row 23.
    fn of(bytes: &'a [u8]) -> Result<Collection<'a>, Refusal>
        ensures { MatchResult result (λ c. (is_past (data_blocks bytes.now) ≡ false) × (c.bytes.now ≡ bytes.now)) (λ e. (is_past (data_blocks bytes.now) ≡ true) × (e ≡ EdidBlock)) }
    {
        any_block(bytes, |_, _| false)?;
        Ok(Collection { bytes })
    }

    // The bytes of the data blocks of an extension: row 23.
    fn of_extension(ext: &'a [u8; BLOCK]) -> Result<Collection<'a>, Refusal>
        ensures { MatchResult result (λ c. (bad_extension ext.now ≡ false) × (c.bytes.now ≡ collection ext.now)) (λ e. (bad_extension ext.now ≡ true) × (e ≡ EdidBlock)) }
    {
        if is_wrong_start(ext) {
            return Err(Refusal::EdidBlock);
        }
        let end = usize::from(ext[2]);
        if ext[1] < REVISION || end < FIRST_BLOCK {
            return Collection::of(&[]);
        }
        Collection::of(&ext[FIRST_BLOCK..end])
    }

    // The bytes of the data blocks of an EDID, none where it has no extension: rows 21 to 23.
    fn read(edid: &'a [u8]) -> Result<Collection<'a>, Refusal>
        ensures { MatchResult result (λ c. (edid_refusal edid.now ≡ 0) × (c.bytes.now ≡ collection (extension edid.now))) (λ e. (edid_refusal edid.now ≢ 0) × (refusal_number e ≡ edid_refusal edid.now)) }
    {
        if !is_edid(edid) {
            return Err(Refusal::EdidLength);
        }
        let (base, behind) = edid.split_at(BLOCK);
        if frames::sum(base) != 0 || frames::sum(behind) != 0 {
            return Err(Refusal::EdidSum);
        }
        match behind.first_chunk() {
            None => Collection::of(&[]),
            Some(ext) => Collection::of_extension(ext),
        }
    }

    // What a screen says to a question.
    fn is_told(&self, ask: Ask) -> bool
        ensures { result ≡ tells self.now.bytes.now ask }
    {
        any_block(self.bytes, |tag, body| ask.is_told_by(tag, body)).unwrap_or(false)
    }

    // The answers to some questions, a bit each, the first the lowest.
    // Kept, no plainer: two numbers and no `Range`, for the clauses `fits`, `small` and `bits` speak of both ends.
    fn word<F: Fn(u8) -> Ask>(&self, from: u8, to: u8, question: F) -> u32
        requires callable { F.IsAlwaysCallable question }
        requires fits { (from ≤ to) × (to ≤ from + 32) }
        ensures small { result < 2 ^ (to - from) }
        ensures bits { (asks : ℕ → Ask) → AsksBy (F.post question) asks → result ≡ word_of (λ n. tells self.now.bytes.now (asks n)) from (to - from) }
    {
        let mut word = 0;
        for n in (from..to).rev() {
            word = 2 * word + u32::from(self.is_told(question(n)));
        }
        word
    }

    // Whether the screen covers a request's sound.
    fn is_heard(&self, sound: Sound) -> bool
        ensures { result ≡ sound_told self.now.bytes.now sound }
    {
        match sound {
            Sound::Off => true,
            Sound::On { rate, channels, .. } => self.is_told(Ask::Pcm { rate, channels }),
        }
    }

    // Whether a request is accepted, and its sound covered.
    // Kept, the proof did not close: with `is_ok_and` and with `map_or` the goal stays open that what the closure gave is `sound_told` of the sound.
    fn is_shown(&self, request: &[u8]) -> bool
        ensures { result ≡ is_shown self.now.bytes.now request.now }
    {
        match accepted(request) {
            Ok(sound) => self.is_heard(sound),
            Err(_) => false,
        }
    }

    // Whether a wish fits, in its place in the request.
    fn fits(&self, template: &Template, wish: [u8; 2]) -> bool
        ensures { result ≡ is_fitting self.now.bytes.now template.now.request.now (wish_of wish) }
    {
        let [vic, family] = wish;
        if !self.is_told(Ask::Vic(vic)) {
            return false;
        }
        let Template { request, at, .. } = *template;
        let mut room = [0; LONGEST];
        let with = &mut room[..request.len()];
        lists::copy(request, with);
        with[at] = vic;
        with[at + 1] = family;
        self.is_shown(with)
    }

    // The place of the first wish that fits.
    fn first_wish(&self, template: &Template, wishes: &[u8]) -> Option<usize>
        ensures { result ≡ first_in (is_fitting self.now.bytes.now template.now.request.now) (wishes_in wishes.now) }
    {
        let (wishes, _) = wishes.as_chunks();
        wishes.iter().position(|&wish| self.fits(template, wish))
    }
}

/// What a screen says of itself: rows 21 to 23.
pub fn overview(edid: &[u8]) -> Result<Screen, Refusal>
    ensures { ShowsScreen edid.now (monitor_told result) }
{
    let screen = Collection::read(edid)?;
    Ok(Screen {
        vics_low: 2 * screen.word(1, 32, Ask::Vic),
        vics_high: screen.word(32, 64, Ask::Vic),
        rates_2: screen.word(0, 7, |rate| Ask::Pcm { rate, channels: 2 }),
        rates_8: screen.word(0, 7, |rate| Ask::Pcm { rate, channels: 8 }),
    })
}

/// The first wish that fits a request and a screen: rows 21 to 24.
pub fn choose(edid: &[u8], request: &[u8], wishes: &[u8]) -> Result<Chosen, Refusal>
    ensures { ChoosesWish edid.now request.now wishes.now (choice_told result) }
{
    if wishes.len() % 2 != 0 || WISHES < wishes.len() {
        return Err(Refusal::EdidLength);
    }
    let screen = Collection::read(edid)?;
    let template = Template::of(request).ok_or(Refusal::NoWishFits)?;
    let place = screen
        .first_wish(&template, wishes)
        .ok_or(Refusal::NoWishFits)?;
    Ok(Chosen {
        place: place as u32,
        at: template.at as u32,
    })
}

/// A collection and its data blocks, both ways.
#[tactic(auto, using(crate::proofs::Blocks::data_blocks_lem))]
pub fn data_blocks()
    ensures { (bytes : List ℕ) → Bytes bytes → DataBlocks bytes }
{}

/// What an overview says, bit by bit.
#[tactic(auto, using(crate::proofs::Answers::overview))]
pub fn overview_rule()
    ensures { (edid : List ℕ) → Overview edid }
{}

/// A wish put in its place.
pub fn in_place()
    ensures { (w : Wish) (input : List ℕ) → InPlace w input }
{}

/// The first wish that fits, in document 02's words.
#[tactic(auto, using(crate::proofs::Seen::chooses))]
pub fn choices()
    ensures { (edid input wishes : List ℕ) → Chooses edid input wishes }
{}

/// EDIDs, requests and wishes, and what they are answered.
pub fn edid_cases()
    ensures { EdidCases }
{}
