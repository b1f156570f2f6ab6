// Bits of a byte, chosen by masks. Nothing of the chip.
#![tactic(auto)]

ghost use Rattle.std.specs.Prelude.{◌≡◌};
ghost use Rattle.bits.specs.Merge.{merge};

/// a's bits where the mask has a 1, b's elsewhere.
#[tactic(auto, using(crate::proofs::Laws::merge_code))]
pub fn merge(mask: u8, a: u8, b: u8) -> u8
    ensures { result ≡ merge 8 mask a b }
{
    (a & mask) | (b & !mask)
}
