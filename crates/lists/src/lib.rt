// Laws of lists, a byte of a slice, the copy of a slice, and whether two are the same. Nothing of the chip.
#![tactic(auto)]

ghost use Rattle.std.specs.Prelude.{◌≡◌, get_or};
ghost use Rattle.lists.specs.Over.{over};
ghost use Rattle.lists.specs.Same.{same_list};

/// A slice over the front of another: what lies past its end stays, and what does not fit is left out.
pub fn copy(bytes: &[u8], out: &mut [u8])
    ensures { out.new ≡ over bytes.now out.old }
{
    // Kept, what may not change: the archive calls memcpy and memset alone (docs/ABI.md), and copy_from_slice calls memmove. `zip` loses
    // the values: of what a loop over `out.iter_mut().zip(bytes)` wrote a proof knows none.
    for i in 0..bytes.len().min(out.len()) {
        out[i] = bytes[i];
    }
}

/// A byte of a slice; 0 past its end.
pub fn byte_at(s: &[u8], i: usize) -> u8
    ensures { result ≡ get_or s.now i 0 }
{
    s.get(i).copied().unwrap_or(0)
}

/// Whether two slices hold the same bytes. All are looked at.
// Kept, for speed: the bars of planning (docs/SPEED.md), which it misses already, it would miss by more. `==` is a call for each row: 12.9 ns for
// the four of a list, where this loop takes 4.8 (docs/DECISIONS.md, B33). The vet, which is within its bar, calls it too.
#[tactic(auto, using(crate::proofs::Compared::unequal))]
pub fn same(a: &[u8], b: &[u8]) -> bool
    ensures { result ≡ same_list a.now b.now }
{
    if a.len() != b.len() {
        return false;
    }
    let mut all = true;
    for (x, y) in a.iter().zip(b) {
        all &= *x == *y;
    }
    all
}

/// Whether two arrays hold the same twelve numbers.
// Kept, no plainer: one function for any type would be `==` again, and the theorems on bytes and on fields speak of `same_list`, over numbers.
pub fn same_numbers(a: [u16; 12], b: [u16; 12]) -> bool
    ensures { result ≡ same_list a b }
{
    a == b
}
