// The class of each bit of the main map: document 01, "Register classes".
#![tactic(auto)]

ghost use Rattle.std.specs.Prelude.{◌≡◌, ℕ, ◌<◌};
ghost use Rattle.registers.specs.Classes.{class_at, read_only, named, Rule};
ghost use Rattle.registers.specs.ByColumns.{Classifies, HasColumns};
ghost use Rattle.registers.specs.Fields.{named_fields, mask_in};
ghost use Rattle.registers.specs.Table14.{Table14};

mod table;

/// Five numbers for each address: the masks of its read-only, mandated, named and free bits, and the mandated bits.
#[derive(Clone, Copy, Debug, PartialEq, Eq)]
pub struct Class {
    pub read_only: u8,
    pub mandated: u8,
    pub named: u8,
    pub free: u8,
    pub bits: u8,
}

/// The columns of the table, for a caller that goes through many addresses.
// Kept, what may not change: `HasColumns` has each of the four columns by itself. An array of 256 structs does not fit the prover's time either
// (docs/HOUSE.md, F3).
#[derive(Clone, Copy, Debug, PartialEq, Eq)]
pub struct ByColumn {
    pub read_only: [u8; 256],
    pub mandated: [u8; 256],
    pub free: [u8; 256],
    pub bits: [u8; 256],
}

impl Class {
    /// The class of an address.
    pub fn at(a: u8) -> Class
        ensures { Classifies a result }
    {
        Class {
            read_only: table::READ_ONLY[a as usize],
            mandated: table::MANDATED[a as usize],
            named: table::NAMED[a as usize],
            free: table::FREE[a as usize],
            bits: table::BITS[a as usize],
        }
    }
}

impl ByColumn {
    /// The columns, each whole.
    pub fn new() -> ByColumn
        ensures { HasColumns result }
    {
        ByColumn {
            read_only: table::READ_ONLY,
            mandated: table::MANDATED,
            free: table::FREE,
            bits: table::BITS,
        }
    }
}

/// The read-only bits of an address, without the other four numbers.
pub fn read_only(a: u8) -> u8
    ensures { result ≡ read_only a }
{
    // Kept, the proof did not close: with `usize::from(a)`, here and in `Class::at`, the place is an answer of a call, and the prover computes
    // the whole column.
    table::READ_ONLY[a as usize]
}

/// "This rule is proved once over the whole table."
pub fn rule()
    ensures { (a : ℕ) → a < 256 → Rule (class_at a) }
{}

/// "Table 14's bits are mandated", with the values that it prints.
#[tactic(auto, unfolding(crate::specs::Classes::class_at, bits::specs::Merge::merge))]
pub fn table14()
    ensures { Table14 }
{}

/// "then the fields listed below are named": the named bits of each register are those of its listed fields.
pub fn fields()
    ensures { (a : ℕ) → a < 256 → named a ≡ mask_in named_fields a }
{}
