// The request: document 01, "The request" and "Refusal numbers"; document 02, requests 01, 02, 06, 10 and 11.
#![tactic(auto)]

ghost use Rattle.std.specs.Prelude.{◌≡◌, true, not, ◌&&◌, eqb, ℕ, ◌<◌, length, get_or, List, [], ◌∷◌, Ok, Err, IfOk, IfErr};
ghost use Rattle.refusals.specs.Numbered.{given_by};
ghost use Rattle.refusals.specs.Tests.{lowest};
ghost use Rattle.clock.specs.Numbered.{pair_told};
ghost use Rattle.request.specs.Sections.{sections, Bodies, in_turn, walked, bodies_in};
ghost use Rattle.request.specs.Walks.{Walks, RequestWalks};
ghost use Rattle.request.specs.Places.{EndsAt};
ghost use Rattle.request.specs.Fields.{is_missing, is_out_of_range};
ghost use Rattle.matrix.specs.Tests.{is_allowed, matrix_in_range};
ghost use Rattle.wiring.specs.Kinds.{rgb_in};
ghost use Rattle.wiring.specs.Wiring.{wires_of};
ghost use Rattle.request.specs.Request.{rgb_out, present};
ghost use Rattle.request.specs.Read.{outside_in, converts_in, combined_in, field_tests, judged, limit_of, allowed_of};
ghost use Rattle.request.specs.Read.{Asks, read_of, Reads, Pairs, PairsInput};
ghost use Rattle.request.specs.Numbered.{ask_told, limit_number, known_told, checked_told, within_told};
ghost use Rattle.request.specs.Theorems.{Rows};
ghost use Rattle.request.specs.Lengths.{Lengths};
ghost use Rattle.request.specs.ThereAndBack.{ThereAndBack};
ghost use Rattle.request.specs.Stages.{Stages};
ghost use Rattle.request.specs.Fits.{Fits};
ghost use Rattle.request.specs.Hand.{InHand};
ghost use Rattle.request.specs.Lifted.{NeverLifted};
ghost use Rattle.request.specs.declared.Request.{Request};

use clock::NCts;
use matrix::Matrix;
use refusals::Refusal;
use sections::{AUDIO, LAST, MATRIX, SECTIONS, VIDEO, WIRING, walk};
use sound::Sound;
use video::{Mode, Video};
use wiring::Wiring;

/// The sections of a request.
pub mod sections;

/// What the sections ask for.
#[derive(Clone, Copy)]
pub struct Request {
    pub wiring: Wiring,
    pub video: Video,
    pub sound: Sound,
    pub matrix: Matrix,
}

impl Request {
    /// A request in hand, nobody's bytes: which of rows 4 to 6, 17 and 20 refuses it.
    pub fn allowed(self) -> Result<(), Refusal>
        ensures { given_by result ≡ allowed_of self }
    {
        let fields = Fields {
            wiring: self.wiring,
            video: self.video,
            sound: self.sound,
            matrix: MatrixKind::of(self.matrix),
        };
        fields.check()?;
        limits(self.video, self.sound)
    }

    /// N and CTS for a request: row 9.
    pub fn pair(self) -> Result<NCts, Refusal>
        ensures { Pairs self (pair_told result) }
    {
        match self.sound {
            Sound::Off => Ok(clock::audio_off()),
            Sound::On { rate, coherent, .. } => clock::pair_of(self.video, rate, coherent),
        }
    }
}

/// A request that is read: past rows 1 to 6 it is known, also where row 17 or 20 refuses it.
#[derive(Clone, Copy)]
pub struct Known {
    pub request: Request,
    pub limit: Option<Refusal>,
}

impl Known {
    /// The request, where no limit refuses it.
    pub fn within(self) -> Result<Request, Refusal>
        ensures { within_told self.request result ≡ known_told self }
    {
        match self.limit {
            None => Ok(self.request),
            Some(refusal) => Err(refusal),
        }
    }
}

// The matrix of a request, as rows 5 and 6 see it.
#[derive(Clone, Copy)]
enum MatrixKind {
    Missing,
    InRange,
    OutOfRange,
}

impl MatrixKind {
    // By the body of its section.
    fn of_body(body: &[u8]) -> MatrixKind
        ensures missing { is_missing result ≡ eqb (length body.now) 0 }
        ensures out_of_range { is_out_of_range result ≡ (present body.now && not (is_allowed body.now)) }
    {
        if body.is_empty() {
            return MatrixKind::Missing;
        }
        if matrix::fits(body) {
            MatrixKind::InRange
        } else {
            MatrixKind::OutOfRange
        }
    }

    // Of a matrix in hand. One outside its range is row 5's, whether it is on or not.
    fn of(matrix: Matrix) -> MatrixKind
        ensures missing { matrix_in_range matrix ≡ true → is_missing result ≡ eqb matrix.on 0 }
        ensures out_of_range { is_out_of_range result ≡ not (matrix_in_range matrix) }
    {
        if !matrix.in_range() {
            return MatrixKind::OutOfRange;
        }
        if matrix.on == 0 {
            MatrixKind::Missing
        } else {
            MatrixKind::InRange
        }
    }

    fn is_missing(self) -> bool
        ensures { result ≡ is_missing self }
    {
        matches!(self, MatrixKind::Missing)
    }

    fn is_out_of_range(self) -> bool
        ensures { result ≡ is_out_of_range self }
    {
        matches!(self, MatrixKind::OutOfRange)
    }
}

// The fields of a request, as rows 4 to 6 see them.
#[derive(Clone, Copy)]
struct Fields {
    wiring: Wiring,
    video: Video,
    sound: Sound,
    matrix: MatrixKind,
}

impl Fields {
    // Row 5.
    fn is_outside(self) -> bool
        ensures { result ≡ outside_in self.wiring self.video self.sound (is_out_of_range self.matrix) }
    {
        self.wiring.outside()
            || self.video.outside()
            || self.sound.outside()
            || self.matrix.is_out_of_range()
    }

    // Whether input and output are of different colour kinds.
    fn converts(self) -> bool
        ensures { result ≡ converts_in (rgb_in (wires_of self.wiring).input) (rgb_out self.video) }
    {
        let into = self.wiring.is_rgb();
        let out = self.video.encoding == 0;
        into != out
    }

    // Row 6.
    fn is_combined(self) -> bool
        ensures { result ≡ combined_in self.wiring self.video self.sound (is_missing self.matrix) }
    {
        self.converts() && self.matrix.is_missing()
            || self.video.link == 0 && self.sound.is_on()
            || self.video.combined()
    }

    // Rows 4 to 6.
    fn check(self) -> Result<(), Refusal>
        ensures { given_by result ≡ lowest (field_tests self.video (outside_in self.wiring self.video self.sound (is_out_of_range self.matrix)) (combined_in self.wiring self.video self.sound (is_missing self.matrix))) }
    {
        let mode = Mode::of(self.video.vic);
        if mode.families <= self.video.family {
            return Err(Refusal::ModeNotOffered);
        }
        if self.is_outside() {
            return Err(Refusal::FieldOutOfRange);
        }
        if self.is_combined() {
            return Err(Refusal::Combination);
        }
        Ok(())
    }
}

// An input in which a walk found all sections, and where the body of each ends.
#[derive(Clone, Copy)]
struct Found<'a> {
    input: &'a [u8],
    ends: [usize; SECTIONS],
    ghost found: { EndsAt input.now ends },
}

impl<'a> Found<'a> {
    // Where the count of section k stands: where the body before it ends.
    fn count_at(&self, k: usize) -> usize
        requires { k < length sections }
        ensures { result ≡ get_or (0 ∷ self.now.ends) k 0 }
    {
        if k == 0 {
            return 0;
        }
        self.ends[k - 1]
    }

    // The body of section k.
    fn body(&self, k: usize) -> &'a [u8]
        requires { k < length sections }
        ensures { result.now ≡ get_or (in_turn (bodies_in (walked self.now.input.now))) k [] }
    {
        let count = self.count_at(k);
        let end = self.ends[k];
        &self.input[count + 1..end]
    }

    // What the sections ask for: rows 4 to 6. The matrix is read last, straight into the answer.
    fn judge(&self) -> Result<Request, Refusal>
        ensures { ask_told result ≡ judged (bodies_in (walked self.now.input.now)) }
    {
        let wiring = Wiring::from_body(self.body(WIRING));
        let video = Video::from_body(self.body(VIDEO));
        let sound = Sound::from_body(self.body(AUDIO));
        let section = self.body(MATRIX);
        let fields = Fields {
            wiring,
            video,
            sound,
            matrix: MatrixKind::of_body(section),
        };
        fields.check()?;
        Ok(Request {
            wiring,
            video,
            sound,
            matrix: Matrix::read(section),
        })
    }
}

/// The request that an input asks for: rows 1 to 6. Where a later row refuses it, it is known.
pub fn ask(s: &[u8]) -> Result<Request, Refusal>
    ensures { Asks s.now (ask_told result) }
{
    let ends = walk(s)?;
    if ends[LAST] != s.len() {
        return Err(Refusal::BytesAfter);
    }
    Found { input: s, ends }.judge()
}

/// The limits of a video and a sound: rows 17 and 20.
pub fn limits(video: Video, sound: Sound) -> Result<(), Refusal>
    ensures { given_by result ≡ limit_of video sound }
{
    if clock::is_above(video) {
        return Err(Refusal::ClockAbove);
    }
    if blanking::too_much(video, sound) {
        return Err(Refusal::SoundTooMuch);
    }
    Ok(())
}

/// A request read from an input: rows 1 to 6, 17 and 20.
pub fn read(s: &[u8]) -> Result<Known, Refusal>
    ensures reads { Reads s.now (checked_told result) }
    ensures known { IfOk result (λ k. Asks s.now (ask_told (Ok k.request))) }
    ensures unknown { IfErr result (λ e. Asks s.now (ask_told (Err e))) }
    ensures limit { IfOk result (λ k. limit_number k.limit ≡ limit_of k.request.video k.request.sound) }
{
    let request = ask(s)?;
    let limit = limits(request.video, request.sound).err();
    Ok(Known { request, limit })
}

/// N and CTS over a request slice: rows 1 to 6, 17, 20 and 9.
pub fn ncts(s: &[u8]) -> Result<NCts, Refusal>
    ensures { PairsInput s.now (pair_told result) }
{
    read(s)?.within()?.pair()
}

/// The sections as they stand in an input: over any sections, and those of a request.
pub fn in_sections()
    ensures any_sections { (table : List (List ℕ)) (input : List ℕ) → Walks table input }
    ensures of_a_request { (input : List ℕ) → RequestWalks input }
{}

/// A request and its bytes say the same.
pub fn there_and_back()
    ensures { ThereAndBack }
{}

/// The rows of a request, in document 01's order, and the request that is read.
pub fn rows()
    ensures { (input : List ℕ) → Rows input }
{}

/// What each stage of the rows gives, by itself.
pub fn stages()
    ensures { (b : Bodies) → Stages b }
{}

/// A request in hand is judged as its bytes are.
pub fn in_hand()
    ensures { (r : Request) → InHand r }
{}

/// More channels or a higher rate never lift refusal 20.
pub fn never_lifted()
    ensures { (input : List ℕ) (other : List ℕ) → NeverLifted input other }
{}

/// What is known of an accepted request.
pub fn accepted_fits()
    ensures { (input : List ℕ) → (read_of input).refusal ≡ 0 → Fits (read_of input).request }
{}

/// The lengths of a request, and what a longer input is answered.
pub fn lengths()
    ensures { (input : List ℕ) → Lengths input }
{}
