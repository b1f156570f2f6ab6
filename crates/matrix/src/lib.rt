// The colour matrix: 13-bit coefficients, and the preview. Document 01, "Matrix".
#![tactic(auto)]

ghost use Rattle.std.specs.Prelude.{◌≡◌, true, false, IfOk, IfErr, List, ℕ, ◌+◌, ◌*◌, ◌%◌, ◌^◌, ◌<◌, ◌≤◌, get_or, length, ℤ, ◌&&◌, eqb, leb};
ghost use Rattle.std.specs.Int.Signed.{shr_z};
ghost use Rattle.refusals.specs.declared.Refusal.TheVariants.{InputAbove};
ghost use Rattle.matrix.specs.declared.Matrix.{Matrix};
ghost use Rattle.matrix.specs.Coefficient.{word, low_thirteen, high_byte};
ghost use Rattle.matrix.specs.Twos.{TwosComplement};
ghost use Rattle.matrix.specs.Matrix.{matrix_of, no_matrix, Bytes};
ghost use Rattle.matrix.specs.Numbers.{Numbers};
ghost use Rattle.matrix.specs.Body.{body_of, Whole, BodyBack};
ghost use Rattle.matrix.specs.Tests.{is_allowed, small_fields, matrix_in_range, Sent, SaidByBytes};
ghost use Rattle.matrix.specs.Read.{twelve_of, allowed_matrix};
ghost use Rattle.matrix.specs.Numbered.{pixel_told};
ghost use Rattle.matrix.specs.Preview.{held_within, code_of, above, Previews, PreviewRefusals, RoundedDown, Clamped};

use refusals::Refusal;
use std::array;

/// What the converter is set to: on or off, the CSC mode, and A1 to A4, B1 to B4, C1 to C4 as fields of 13 bits.
// Kept, what may not change: `on` and `mode` are bytes, for `in_range` judges any matrix in hand, whatever its `on` and `mode`
// (`matrix_in_range`, `InHand` of request).
#[derive(Clone, Copy, Debug, PartialEq, Eq)]
pub struct Matrix {
    pub on: u8,
    pub mode: u8,
    pub coefficients: [u16; 12],
}

/// A previewed pixel.
#[derive(Clone, Copy, Debug, PartialEq, Eq)]
pub struct Codes {
    pub a: u16,
    pub b: u16,
    pub c: u16,
}

/// The field of two bytes, high byte first: their low 13 bits.
pub fn field_of(high: u8, low: u8) -> u16
    ensures { result ≡ low_thirteen (word high low) }
{
    u16::from_be_bytes([high, low]) % 8192
}

/// The twelve fields of 24 bytes; zeros where they are not 24.
// Kept, what may not change: zeros and no `Option`. `twelve_of` says them, and no public function asks for a length or learns to fail.
pub fn twelve(bytes: &[u8]) -> [u16; 12]
    ensures { result ≡ twelve_of bytes.now }
{
    let Ok(bytes) = <&[u8; 24]>::try_from(bytes) else {
        return [0; 12];
    };
    array::from_fn(|i| field_of(bytes[2 * i], bytes[2 * i + 1]))
}

/// The high byte of a field, of its 13 bits carried to 16.
pub fn high_byte(bits: u16) -> u8
    ensures { result ≡ high_byte (low_thirteen bits) }
{
    let field = bits % 8192;
    let high = (field / 256) as u8;
    if field < 4096 { high } else { high + 224 }
}

/// Whether a matrix section's body is in range: 25 bytes, mode, coefficients.
pub fn fits(body: &[u8]) -> bool
    ensures { result ≡ is_allowed body.now }
{
    if body.len() != 25 || 2 < body[0] {
        return false;
    }
    let (pairs, _) = body[1..].as_chunks::<2>();
    pairs.iter().all(|pair| {
        let bits = u16::from_be_bytes(*pair);
        bits < 4096 || 61440 <= bits
    })
}

// Whether twelve fields have 13 bits each. All are looked at, which is faster than to stop at the first that has more.
fn are_small(k: [u16; 12]) -> bool
    ensures { result ≡ small_fields k 12 }
{
    k.iter().fold(true, |all, field| all & (*field < 8192))
}

impl Matrix {
    // Whether a matrix in hand is on, in a mode that there is, and its fields have 13 bits each.
    fn is_on(self) -> bool
        ensures { result ≡ (eqb self.on 1 && leb self.mode 2 && small_fields self.coefficients 12) }
    {
        self.on == 1 && self.mode <= 2 && are_small(self.coefficients)
    }

    /// Whether a matrix in hand is none, or one that a request may have.
    pub fn in_range(self) -> bool
        ensures { result ≡ matrix_in_range self }
    {
        self == Matrix::none() || self.is_on()
    }

    // The matrix of a body that fits.
    #[tactic(auto, using(crate::proofs::Pairs::sized))]
    fn of(body: &[u8]) -> Matrix
        requires { is_allowed body.now ≡ true }
        ensures value { result ≡ matrix_of body.now }
        ensures small { (result.mode ≤ 2) × ((i : ℕ) → get_or result.coefficients i 0 < 8192) }
    {
        Matrix {
            on: 1,
            mode: body[0],
            coefficients: twelve(&body[1..]),
        }
    }

    /// The matrix of a body that fits; no matrix of one that does not.
    pub fn read(body: &[u8]) -> Matrix
        ensures { result ≡ allowed_matrix body.now }
    {
        if fits(body) {
            Matrix::of(body)
        } else {
            Matrix::none()
        }
    }

    /// No matrix: converter off.
    // Kept, what may not change: a matrix and no `Option`. `no_matrix` is what the chip's registers hold, and what `read` answers of any bytes
    // (`allowed_matrix`).
    pub fn none() -> Matrix
        ensures { result ≡ no_matrix }
    {
        Matrix {
            on: 0,
            mode: 1,
            coefficients: [2048, 0, 0, 0, 0, 2048, 0, 0, 0, 0, 2048, 0],
        }
    }

    /// A matrix as a request has it, its mode and the two bytes of each coefficient.
    pub fn body(self) -> [u8; 25]
        ensures { result ≡ body_of self }
    {
        let mut out = [0; 25];
        out[0] = self.mode;
        // Kept, the proof did not close: a `for` over the places. With `as_chunks_mut::<2>()` and `zip` the goal `returns` of `body` stays open, for
        // `zip` loses what was written. A `map` into pairs took twice as many instructions.
        for i in 0..12 {
            let field = self.coefficients[i];
            out[1 + 2 * i] = high_byte(field);
            out[2 + 2 * i] = (field % 256) as u8;
        }
        out
    }
}

// A field plus 4096: 0 for -4096, 8191 for 4095. The preview counts in natural numbers, and takes away at the end what that adds.
fn raise(field: u16) -> u64
    requires { field < 8192 }
    ensures { (result ≡ (field + 4096) % 8192) × (result < 8192) }
{
    u64::from((field + 4096) % 8192)
}

// A code times a raised field.
fn times(x: u32, field: u16) -> u64
    requires { (x ≤ 4095) × (field < 8192) }
    ensures { (result ≡ x * ((field + 4096) % 8192)) × (result < 2 ^ 25) }
{
    u64::from(x) * raise(field)
}

// Three codes, none above 4095.
#[derive(Clone, Copy)]
struct Inputs {
    a: u32,
    b: u32,
    c: u32,
    ghost small: { (a ≤ 4095) × (b ≤ 4095) × (c ≤ 4095) },
}

impl Inputs {
    // Refusal 12.
    fn new(a: u32, b: u32, c: u32) -> Result<Inputs, Refusal>
        ensures within { IfOk result (λ inputs. (above a b c ≡ false) × (inputs.a ≡ a) × (inputs.b ≡ b) × (inputs.c ≡ c)) }
        ensures outside { IfErr result (λ refusal. (above a b c ≡ true) × (refusal ≡ InputAbove)) }
    {
        if 4095 < a || 4095 < b || 4095 < c {
            return Err(Refusal::InputAbove);
        }
        Ok(Inputs { a, b, c })
    }

    // Through the four fields of one row.
    fn code(self, row: [u16; 4], mode: u8) -> u16
        requires mode_bound { mode ≤ 2 }
        requires row_small { (get_or row 0 0 < 8192) × (get_or row 1 0 < 8192) × (get_or row 2 0 < 8192) × (get_or row 3 0 < 8192) }
        ensures { result ≡ code_of self.a self.b self.c (get_or row 0 0) (get_or row 1 0) (get_or row 2 0) (get_or row 3 0) mode }
    {
        let sum = times(self.a, row[0])
            + times(self.b, row[1])
            + times(self.c, row[2])
            + raise(row[3]) * 4096;
        let added = (u64::from(self.a) + u64::from(self.b) + u64::from(self.c) + 4096) * 4096;
        let up = (sum.saturating_sub(added) << mode) / 4096;
        up.min(4095) as u16
    }
}

/// Three codes through the matrix of a body: refusals 5 and 12.
pub fn preview(body: &[u8], a: u32, b: u32, c: u32) -> Result<Codes, Refusal>
    ensures { Previews body.now a b c (pixel_told result) }
{
    if !fits(body) {
        return Err(Refusal::FieldOutOfRange);
    }
    let inputs = Inputs::new(a, b, c)?;
    let m = Matrix::of(body);
    let [a1, a2, a3, a4, b1, b2, b3, b4, c1, c2, c3, c4] = m.coefficients;
    Ok(Codes {
        a: inputs.code([a1, a2, a3, a4], m.mode),
        b: inputs.code([b1, b2, b3, b4], m.mode),
        c: inputs.code([c1, c2, c3, c4], m.mode),
    })
}

/// Two's complement, there and back at every width: 13 bits, and the request's 16.
#[tactic(auto, using(crate::proofs::Signs::twos))]
pub fn twos_complement()
    ensures { (k : ℕ) → TwosComplement k }
{}

/// What two bytes of a request say.
#[tactic(auto, using(crate::proofs::Signs::sent))]
pub fn sent_coefficient()
    ensures { (w : ℕ) → w < 65536 → Sent w }
{}

/// The bytes of a field say that field.
#[tactic(auto, using(crate::proofs::Signs::carried))]
pub fn carried_coefficient()
    ensures { (c : ℕ) → c < 8192 → SaidByBytes c }
{}

/// What a body says, number by number.
#[tactic(auto, using(crate::proofs::Numbers::numbers))]
pub fn body_rule()
    ensures { (body : List ℕ) → Bytes body → Numbers body }
{}

/// A matrix and its bytes, there and back.
pub fn body_back()
    ensures { (m : Matrix) → Whole m → BodyBack m }
{}

/// The preview rounds down, and holds within 0 to 4095.
pub fn rounds_and_holds()
    ensures rounded_down { (z : ℤ) → RoundedDown z (shr_z z 4096) }
    ensures clamped { (z : ℤ) → Clamped z (held_within z) }
{}

/// The preview's refusals: the earliest that applies is given, and none otherwise.
#[tactic(auto, using(crate::proofs::Previewed::refusals))]
pub fn preview_refusals()
    ensures { (body : List ℕ) → Bytes body → (a b c : ℕ) → PreviewRefusals body a b c }
{}
