// The colour meter's matrix: twelve floats, exactly, as fields of 13 bits with a mode. Document 02, request 07.
#![tactic(auto)]

ghost use Rattle.std.specs.Prelude.{◌≡◌, true, List, ℕ, ◌*◌, ◌^◌, ◌<◌, ◌≤◌, ℤ, pos, length, Float};
ghost use Rattle.std.specs.Float.Ieee.Exact.{HasValue};
ghost use Rattle.std.specs.Float.Ieee.Nearest.{closest};
ghost use Rattle.std.specs.Float.Ieee.Scale.{finite};
ghost use Rattle.lists.specs.Find.{every};
ghost use Rattle.meter.specs.declared.Meter.{Meter};
ghost use Rattle.meter.specs.Nearest.{Rounds};
ghost use Rattle.meter.specs.Numbers.{bottom, minus_zero, numbers_of, Rounded};
ghost use Rattle.meter.specs.Numbered.{converted_told, metered_told};
ghost use Rattle.meter.specs.Found.{Normal, is_below, signed_field, field_of, field_in, as_field, as_fields, converted, Meters};
ghost use Rattle.meter.specs.Meter.{ConvertRule, MeterRule};
ghost use Rattle.meter.specs.Cases.{MeterCases};

use matrix::Matrix;
use refusals::Refusal;

/// The meter's export, in the order of a request's matrix: of each row three factors and an offset.
// Kept, what may not change: twelve fields and no array, as form F10 of docs/HOUSE.md has it; the definition `numbers_of` and the marked cases
// name them.
#[derive(Clone, Copy, Debug, PartialEq)]
pub struct Meter {
    pub a1: f32,
    pub a2: f32,
    pub a3: f32,
    pub a4: f32,
    pub b1: f32,
    pub b2: f32,
    pub b3: f32,
    pub b4: f32,
    pub c1: f32,
    pub c2: f32,
    pub c3: f32,
    pub c4: f32,
}

/// A finite float: digits · 2^exponent / 2^149, negative or not.
#[derive(Clone, Copy, Debug, PartialEq, Eq)]
pub struct Parts {
    pub negative: bool,
    pub digits: u64,
    pub exponent: u64,
}

// Below 2^mode in size.
// Kept, no plainer: no types hold `finite x` and `mode ≤ 2`. Here the mode is asked for alone, in `taken_apart` the float, in `field` and in
// `field_in` both, and in `fields_in` twelve floats and a mode: three types, each opened in the first line of each function.
fn is_below(x: f32, mode: u8) -> bool
    requires { mode ≤ 2 }
    ensures { result ≡ is_below x mode }
{
    match mode {
        0 => x < 1.0 && -1.0 < x,
        1 => x < 2.0 && -2.0 < x,
        _ => x < 4.0 && -4.0 < x,
    }
}

// A float's sign, digits and exponent, as its bits have them: the sign is the highest bit, and the leading digit, 2^23, is not written.
fn taken_apart(x: f32) -> Parts
    requires { finite x ≡ true }
    ensures has_value { HasValue x result.negative (result.digits * 2 ^ result.exponent) (2 ^ 149) }
    ensures normal { Normal result.digits result.exponent }
{
    let bits = u64::from(x.to_bits());
    let negative = 0x80000000 <= bits;
    let field = bits % 0x80000000 / 0x800000;
    let low = bits % 0x800000;
    if field == 0 {
        Parts {
            negative,
            digits: low,
            exponent: 0,
        }
    } else {
        Parts {
            negative,
            digits: 0x800000 + low,
            exponent: field - 1,
        }
    }
}

// digits / 2^shift to the nearest whole number, the even one on a tie.
fn nearest(digits: u64, shift: u64) -> u64
    requires { digits < 2 ^ 24 }
    ensures { result ≡ closest digits (2 ^ shift) }
{
    if 25 < shift {
        return 0;
    }
    let whole = digits >> shift;
    let rest = digits - (whole << shift);
    let unit = 1u64 << shift;
    if rest * 2 < unit {
        whole
    } else if unit < rest * 2 {
        whole + 1
    } else {
        whole + whole % 2
    }
}

// A sign and a size as 13 bits of two's complement, where they fit.
#[tactic(auto, unfolding(crate::specs::Found::signed_field))]
fn signed_field(negative: bool, size: u64) -> Option<u16>
    ensures { result ≡ as_field (signed_field negative size) }
{
    if negative {
        if 4096 < size {
            None
        } else {
            Some(((8192 - size) % 8192) as u16)
        }
    } else if 4095 < size {
        None
    } else {
        Some(size as u16)
    }
}

// The field nearest to x · 2^raised / 2^mode.
fn field(x: f32, raised: u64, mode: u8) -> Option<u16>
    requires finite { finite x ≡ true }
    requires raised_bound { (raised ≤ 12) × (mode ≤ 2) }
    ensures { result ≡ as_field (field_of x raised mode) }
{
    let p = taken_apart(x);
    let k = p.exponent + raised;
    let unit = 149 + u64::from(mode);
    if unit < k + 11 {
        return None;
    }
    let size = nearest(p.digits, unit - k);
    signed_field(p.negative, size)
}

// The field of an offset or a factor in a mode.
#[tactic(auto, unfolding(crate::specs::Found::field_in))]
fn field_in(x: f32, offset: bool, mode: u8) -> Option<u16>
    requires finite { finite x ≡ true }
    requires mode_bound { mode ≤ 2 }
    ensures { result ≡ as_field (field_in mode offset x) }
{
    if offset {
        field(x, 0, mode)
    } else if is_below(x, mode) {
        field(x, 12, mode)
    } else {
        None
    }
}

// Neither not a number nor infinite.
// Kept, what may not change: std's `is_finite` subtracts, and the archive moves and compares floats and computes none (docs/ABI.md).
fn is_finite(x: f32) -> bool
    ensures { result ≡ finite x }
{
    x < f32::INFINITY && -f32::INFINITY < x
}

fn all_finite(numbers: [f32; 12]) -> bool
    ensures { result ≡ every finite numbers }
{
    numbers.iter().all(|x| is_finite(*x))
}

// All twelve in a mode, where each is a field. Which number is an offset goes by its place.
fn fields_in(numbers: [f32; 12], mode: u8) -> Option<[u16; 12]>
    requires { (every finite numbers ≡ true) × (mode ≤ 2) }
    ensures { result ≡ as_fields mode numbers }
{
    let mut out = [0; 12];
    for (i, field) in out.iter_mut().enumerate() {
        *field = field_in(numbers[i], i % 4 == 3, mode)?;
    }
    Some(out)
}

impl Meter {
    // The twelve numbers in their order.
    fn numbers(self) -> [f32; 12]
        ensures { result ≡ numbers_of self }
    {
        [
            self.a1, self.a2, self.a3, self.a4, self.b1, self.b2, self.b3, self.b4, self.c1,
            self.c2, self.c3, self.c4,
        ]
    }

    /// The matrix of a meter, in the smallest mode that fits: refusals 18 and 19.
    pub fn convert(self) -> Result<Matrix, Refusal>
        ensures { converted_told result ≡ converted (numbers_of self) }
    {
        let numbers = self.numbers();
        if !all_finite(numbers) {
            return Err(Refusal::NotFinite);
        }
        for mode in 0..3 {
            if let Some(coefficients) = fields_in(numbers, mode) {
                return Ok(Matrix {
                    on: 1,
                    mode,
                    coefficients,
                });
            }
        }
        Err(Refusal::NoModeFits)
    }
}

/// The struct of twelve numbers.
impl From<[f32; 12]> for Meter {
    ghost from_gives = { λ numbers meter. numbers_of meter ≡ numbers };

    #[tactic(auto, using(crate::proofs::Twelve::twelve))]
    fn from(numbers: [f32; 12]) -> Meter {
        let [a1, a2, a3, a4, b1, b2, b3, b4, c1, c2, c3, c4] = numbers;
        Meter {
            a1,
            a2,
            a3,
            a4,
            b1,
            b2,
            b3,
            b4,
            c1,
            c2,
            c3,
            c4,
        }
    }
}

/// A meter's numbers as a request's matrix, 25 bytes at the front of the buffer: refusals 5, 10, 18 and 19.
pub fn take_matrix(numbers: &[f32], buffer: &mut [u8]) -> Result<u32, Refusal>
    ensures { Meters numbers.now buffer.old (metered_told result) buffer.new }
{
    let numbers: &[f32; 12] = numbers.try_into().map_err(|_| Refusal::FieldOutOfRange)?;
    if buffer.len() < 25 {
        return Err(Refusal::BufferShort);
    }
    let matrix = Meter::from(*numbers).convert()?;
    lists::copy(&matrix.body(), buffer);
    Ok(25)
}

/// There is a nearest whole number, and no other, for any float and mode; "minus zero gives 0".
#[tactic(auto, using(crate::proofs::Whole::rounds))]
pub fn rounding()
    ensures rounds { (a : ℤ) (b : ℕ) → 0 < b → Rounds a b }
    ensures bottom_nonzero { (x : Float) (mode : ℕ) → 0 < bottom x * 2 ^ mode }
    ensures minus_zero { (mode i : ℕ) → Rounded mode i minus_zero (pos 0) }
{}

/// What becomes of the struct, in document 02's words.
pub fn convert_rule()
    ensures { (m : Meter) → ConvertRule m }
{}

/// What the call answers, and what it leaves, in document 02's words.
#[tactic(auto, using(crate::proofs::Rule::rule))]
pub fn meter_rule()
    ensures { (numbers : List Float) (buffer : List ℕ) → MeterRule numbers buffer }
{}

/// Numbers of a meter, and their bytes.
pub fn meter_cases()
    ensures { MeterCases }
{}
