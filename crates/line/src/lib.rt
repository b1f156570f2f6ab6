// The small programs' lines: document 01, "What the station's library does", and document 02, request 03.
#![tactic(auto)]

mod buffer;

ghost use Rattle.std.specs.Prelude.{◌≡◌, List, [], ◌∷◌, ◌++◌, ℕ, ◌+◌, ◌<◌, ◌≤◌, length, take};
ghost use Rattle.line.specs.Numbered.{shown_line, line_told, text_told};
ghost use Rattle.line.specs.Code.{LineHasRoom};
ghost use Rattle.line.specs.Line.{audio_checksum, line_of, Lines};
ghost use Rattle.line.specs.Verdict.{placed_text, PrintsVerdict, Verdicts};
ghost use Rattle.line.specs.Words.{digit, decimal, hex, accepted_text, refused_text, AddsText, text_of, line_bytes, Prints, PrintsAnswer, Numeral};

pub use buffer::Text;
use clock::NCts;
use frames::{AUDIO_FRAME, AVI_FRAME};
use refusals::Refusal;
use sound::Sound;

// What is printed of an accepted request: its mode, N and CTS, and the checksums of its two frames.
#[derive(Clone, Copy)]
struct Shown {
    vic: u8,
    n: u32,
    cts: u32,
    avi: u8,
    audio: u8,
}

// The checksum of the audio InfoFrame that a sound asks for.
fn audio_checksum(sound: Sound) -> u8
    ensures { result ≡ audio_checksum sound }
{
    match sound {
        Sound::Off => frames::audio_off()[3],
        Sound::On { channels, .. } => frames::audio_of(channels).unwrap_or([0; AUDIO_FRAME])[3],
    }
}

// The numbers of a request's line, or its refusal.
#[tactic(auto, using(crate::proofs::Given::refused_first, crate::proofs::Given::refused_last))]
fn line_of(s: &[u8]) -> Result<Shown, Refusal>
    ensures { line_told result ≡ line_of s.now }
{
    let request = request::read(s)?.within()?;
    let NCts { n, cts } = request.pair()?;
    Ok(Shown {
        vic: request.video.vic,
        n,
        cts,
        avi: frames::avi_of(request.video).unwrap_or([0; AVI_FRAME])[3],
        audio: audio_checksum(request.sound),
    })
}

// Kept, the proof did not close: `impl fmt::Write` proves, but of a `write!` std says which bytes it wrote only where it ends in `Ok`, and nothing says
// that it does where they fit.
impl Text {
    // No line yet.
    fn new() -> Text
        ensures { text_told result ≡ line_bytes [] }
    {
        Text {
            bytes: [0; 80],
            count: 0,
        }
    }

    // A text.
    // Kept, no plainer: `LineHasRoom` stands in each contract, for each asks for another count.
    fn text(&mut self, letters: &[u8])
        requires { LineHasRoom self.old (length letters.now) }
        ensures { AddsText self.old letters.now self.new }
    {
        let end = self.count + letters.len();
        self.bytes[self.count..end].copy_from_slice(letters);
        self.count = end;
    }

    // A digit, 0 to 15.
    fn digit(&mut self, n: u8)
        requires room { LineHasRoom self.old 1 }
        requires hex { n < 16 }
        ensures { AddsText self.old (digit n ∷ []) self.new }
    {
        self.bytes[self.count] = b"0123456789abcdef"[usize::from(n)];
        self.count += 1;
    }

    // A number in decimal.
    fn decimal(&mut self, n: u32)
        requires { LineHasRoom self.old (length (decimal n)) }
        ensures { AddsText self.old (decimal n) self.new }
    {
        if n < 10 {
            self.digit(n as u8);
        } else {
            self.decimal(n / 10);
            self.digit((n % 10) as u8);
        }
    }

    // A name, and a number in decimal.
    #[tactic(auto, using(crate::proofs::Digits::ten))]
    fn named(&mut self, name: &[u8], n: u32)
        requires { LineHasRoom self.old (length name.now + 10) }
        ensures adds { AddsText self.old (name.now ++ decimal n) self.new }
        ensures upper_bound { self.new.count ≤ self.old.count + length name.now + 10 }
    {
        self.text(name);
        self.decimal(n);
    }

    // A name, and a checksum as two lower-case hex digits.
    fn checked(&mut self, name: &[u8], byte: u8)
        requires { LineHasRoom self.old (length name.now + 2) }
        ensures adds { AddsText self.old (name.now ++ hex byte) self.new }
        ensures count { self.new.count ≡ self.old.count + length name.now + 2 }
    {
        self.text(name);
        self.digit(byte / 16);
        self.digit(byte % 16);
    }

    // The line of an accepted request.
    fn accepted(line: Shown) -> Text
        ensures { text_told result ≡ line_bytes (accepted_text (shown_line line)) }
    {
        let mut out = Text::new();
        out.named(b"accepted vic ", u32::from(line.vic));
        out.named(b" n ", line.n);
        out.named(b" cts ", line.cts);
        out.checked(b" avi ", line.avi);
        out.checked(b" audio ", line.audio);
        out.text(b"\n");
        out
    }

    // The line of a refused one.
    fn refused(number: u8) -> Text
        ensures { text_told result ≡ line_bytes (refused_text number) }
    {
        let mut out = Text::new();
        out.named(b"refused ", u32::from(number));
        out.text(b"\n");
        out
    }

    // The line of a vendor's list that is refused for one of its pairs.
    fn placed(number: u8, place: u32) -> Text
        ensures { text_told result ≡ line_bytes (placed_text number place) }
    {
        let mut out = Text::new();
        out.named(b"refused ", u32::from(number));
        out.named(b" at ", place);
        out.text(b"\n");
        out
    }

    /// The line alone, with no byte after it.
    pub fn as_bytes(&self) -> &[u8]
        ensures { result.now ≡ take self.now.count self.now.bytes }
    {
        &self.bytes[..self.count]
    }
}

// What is printed of a line.
impl From<Result<Shown, Refusal>> for Text {
    ghost from_gives = { λ line text. text_told text ≡ line_bytes (text_of (line_told line)) };

    fn from(line: Result<Shown, Refusal>) -> Text {
        match line {
            Ok(shown) => Text::accepted(shown),
            Err(refusal) => Text::refused(refusal.into()),
        }
    }
}

/// What the small program prints of an input.
pub fn print(s: &[u8]) -> Text
    ensures { Prints s.now result.count result.bytes }
{
    line_of(s).into()
}

/// What is printed of a request that came in parts: the line of its refusal, or that of the request.
// Kept, what may not change: the refusal is a number, for a pipe that is anybody's bytes may answer with any (`PrintsAnswer`).
pub fn print_answer(refusal: u8, request: &[u8]) -> Text
    ensures { PrintsAnswer refusal request.now result.count result.bytes }
{
    if refusal == 0 {
        return print(request);
    }
    Text::refused(refusal)
}

/// What is printed of a verdict on a vendor's list.
// Kept, what may not change: the verdict comes as two numbers, for `vendor` does not stand below this crate (`PrintsVerdict`).
pub fn print_verdict(refusal: u8, place: u32) -> Text
    ensures { PrintsVerdict refusal place result.count result.bytes }
{
    if refusal == 0 {
        let mut text = Text::new();
        text.text(b"accepted\n");
        return text;
    }
    if refusal == u8::from(Refusal::BadPair) {
        return Text::placed(refusal, place);
    }
    Text::refused(refusal)
}

/// A number in decimal is its numeral.
#[tactic(auto, using(crate::proofs::Digits::numerals))]
pub fn numerals()
    ensures { (n : ℕ) → Numeral n }
{}

/// What the line refuses, and that one byte more than the longest request decides it.
#[tactic(auto, using(crate::proofs::Given::lines))]
pub fn lines()
    ensures { (input : List ℕ) → Lines input }
{}

/// The line of each verdict, in plain words.
pub fn verdicts()
    ensures { (place : ℕ) → Verdicts place }
{}
