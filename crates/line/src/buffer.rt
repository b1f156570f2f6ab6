// What is printed, and nothing of what it says.

ghost use Rattle.std.specs.Prelude.{◌≤◌};

/// A line at the front of 80 bytes, which are more than any has, and its count.
// Kept, what may not change: 80 bytes and a count and no `String`. `print` cannot fail, where a `String` can, and `Prints` names the bytes.
#[derive(Clone, Copy, Debug, PartialEq, Eq)]
pub struct Text {
    pub bytes: [u8; 80],
    pub count: usize,
    pub ghost fits: { count ≤ 80 },
}
