// The number of a refusal that a pipe answers.

ghost use Rattle.std.specs.Prelude.{◌≢◌};

/// A refusal's number, which is not 0: in a pipe that byte stands for no answer yet.
#[derive(Clone, Copy, Debug, PartialEq, Eq)]
pub struct Number {
    pub byte: u8,
    ghost some: { byte ≢ 0 },
}
