// A fraction in lowest terms, and the whole quotient of two numbers, by halving and subtraction alone: document 01, "N and CTS", and document
// 02, request 05. Nothing above this crate knows how they are found.
#![tactic(auto)]

ghost use Rattle.std.specs.Prelude.{◌≡◌, ◌≢◌, ◌+◌, ◌/◌, ◌%◌};
ghost use Rattle.ratio.specs.Lowest.{Reduces, LowestTerms};
ghost use Rattle.ratio.specs.Terms.{divisor_of};

/// The fraction u / v.
#[derive(Clone, Copy, Debug, PartialEq, Eq)]
pub struct Ratio {
    pub u: u64,
    pub v: u64,
}

/// The whole quotient a / b; 0 where b is 0. b is doubled as long as it fits into a, and halved back to b; on the way back it is taken off
/// what is left wherever it fits there.
// Kept, what may not change: what is divided by 0 is 0 and no `Option`, for a call that could not fail still can't, and the edit `by_zero` asks it.
pub fn quotient(a: u64, b: u64) -> u64
    ensures { result ≡ a / b }
{
    if b == 0 {
        return 0;
    }
    let mut part = b;
    while part <= a / 2 {
        part = 2 * part;
    }
    let mut left = a;
    let mut q = 0;
    while b <= part {
        q = 2 * q;
        if part <= left {
            left -= part;
            q += 1;
        }
        part /= 2;
    }
    q
}

// The greatest common divisor, where one of the two is odd: y is odd throughout. A difference of two odd numbers is even, and a half has
// the same divisors in common with an odd number.
fn gcd(a: u64, b: u64) -> u64
    requires { (a % 2) + (b % 2) ≢ 0 }
    ensures { result ≡ divisor_of a b }
{
    let (mut x, mut y) = if b % 2 == 0 { (b, a) } else { (a, b) };
    while x != 0 {
        if x % 2 == 0 {
            x /= 2;
        } else if x < y {
            (x, y) = ((y - x) / 2, x);
        } else {
            x = (x - y) / 2;
        }
    }
    y
}

impl Ratio {
    /// num / den in lowest terms: both are halved until one is odd, and then divided by their greatest common divisor.
    // Kept, what may not change: zeros and no `Option` for a den of 0. `Reduces.none` says them, and what could not fail still can't.
    pub fn reduced(num: u64, den: u64) -> Ratio
        ensures { Reduces num den result }
    {
        if den == 0 {
            return Ratio { u: 0, v: 0 };
        }
        let (mut a, mut b) = (num, den);
        while a % 2 + b % 2 == 0 {
            a /= 2;
            b /= 2;
        }
        let g = gcd(a, b);
        Ratio {
            u: quotient(a, g),
            v: quotient(b, g),
        }
    }
}

/// A fraction has lowest terms, and only these.
#[tactic(auto, using(crate::proofs::Unique::holds))]
pub fn lowest_terms()
    ensures { LowestTerms }
{}
