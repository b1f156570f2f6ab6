// The faces of the chip machine over lent slices: a write, a Vsync, what is sent, the mute, the matrix in use. Documents 01, "The chip
// machine", and 02, request 04.
#![tactic(auto)]

ghost use Rattle.std.specs.Prelude.{List, ℕ};
ghost use Rattle.views.specs.Cases.{ViewCases};
ghost use Rattle.views.specs.Entry.{Lent};
ghost use Rattle.views.specs.Refusals.{WriteRefusals, VsyncRefusals, ViewRefusals, MatrixRefusals};
ghost use Rattle.views.specs.Theorems.{Slices, AnyFaces, AnyEntered, AnyEnteredVsync};

mod converter;
mod entry;
mod view;

pub use converter::matrix_in_use;
pub use entry::{gathered, vsync_into, write_into};
pub use view::{Place, mute_bits, mute_of, sent, sent_part, sent_refusal};

/// The refusals of a write over slices.
pub fn refusals_of_a_write()
    ensures { (l : Lent) (address value : ℕ) → WriteRefusals l address value }
{}

/// The refusals of a Vsync over slices.
pub fn refusals_of_a_vsync()
    ensures { (l : Lent) → VsyncRefusals l }
{}

/// The refusals of a view, and the bytes that its numbers name.
pub fn refusals_of_a_view()
    ensures { (image packet : List ℕ) → ViewRefusals image packet }
{}

/// The refusals of the matrix in use.
pub fn refusals_of_the_matrix()
    ensures { (image buffer : List ℕ) (mark : ℕ) (out : List ℕ) → MatrixRefusals image buffer mark out }
{}

/// The slices as a state, and a state in slices.
pub fn slices()
    ensures { Slices }
{}

/// The views of a state are what the machine has in use.
pub fn faces()
    ensures { AnyFaces }
{}

/// A write over slices is the machine's own, and keeps their lengths; the views follow it.
pub fn entered()
    ensures { AnyEntered }
{}

/// So is a Vsync.
pub fn entered_vsync()
    ensures { AnyEnteredVsync }
{}

/// The answers of the calls in bare numbers.
pub fn view_cases()
    ensures { ViewCases }
{}
