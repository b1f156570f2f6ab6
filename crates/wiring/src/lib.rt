// The wiring section of a request and the input IDs: document 02, request 02; source document 000, Tables 15 to 28.
#![tactic(auto)]

ghost use Rattle.std.specs.Prelude.{◌≡◌, ◌<◌};
ghost use Rattle.wiring.specs.Kinds.{kind_of, most_sync, rgb_in};
ghost use Rattle.wiring.specs.Wiring.{sync_at, wiring_in, count_of, wires_of};
ghost use Rattle.wiring.specs.Tests.{wiring_outside};
ghost use Rattle.wiring.specs.Named.{wiring_named};
ghost use Rattle.wiring.specs.Theorems.{WiringBody, WiringRange};

/// The count of the wiring section where it has the four fields alone.
pub const FOUR_COUNT: u8 = 4;

/// And with the four sync values.
pub const TWELVE_COUNT: u8 = 12;

/// What the wiring section says: nothing, of today's board; the four fields; these and the four sync values.
// Kept, what may not change: neither count holds a struct, `Wires` among them, for `wiring_body`, `wires_of` and `EachByte` name each field of
// either. The fields are bytes and no enums, for any byte may stand in a request, and row 5 judges it.
#[derive(Clone, Copy, Debug, PartialEq, Eq)]
pub enum Wiring {
    Board,
    Four {
        input: u8,
        depth: u8,
        style: u8,
        justification: u8,
    },
    Twelve {
        input: u8,
        depth: u8,
        style: u8,
        justification: u8,
        hplacement: u16,
        hduration: u16,
        vplacement: u16,
        vduration: u16,
    },
}

/// The numbers that a wiring has in the registers.
#[derive(Clone, Copy, Default, Debug, PartialEq, Eq)]
pub struct Wires {
    pub input: u8,
    pub depth: u8,
    pub style: u8,
    pub justification: u8,
    pub hplacement: u16,
    pub hduration: u16,
    pub vplacement: u16,
    pub vduration: u16,
}

/// An input ID: whether it counts as RGB, the count of its section, its lowest depth, its lowest and its highest style, its highest
/// justification.
// Kept, what may not change: `rgb` is 0 or 1 and no `bool`, for the definitions `kind` and `rgb_in` have it as a number.
#[derive(Clone, Copy, Debug, PartialEq, Eq)]
pub struct Kind {
    pub rgb: u8,
    pub count: u8,
    pub least: u8,
    pub first: u8,
    pub last: u8,
    pub ways: u8,
}

impl Kind {
    /// The row of an ID, as the definition has it.
    // Kept, what may not change: what is no ID has a row, with a least depth of 4 that none fits, and no `Option`, for `no_kind` and `kind_of`
    // say so.
    #[rattlefmt::skip]
    #[tactic(auto, unfolding(crate::specs::Kinds::kind_of))]
    pub fn of(input: u8) -> Kind
        ensures { result ≡ kind_of input }
    {
        match input {
            0 => Kind { rgb: 1, count: 0, least: 3, first: 0, last: 0, ways: 0 },
            1 => Kind { rgb: 0, count: 4, least: 1, first: 1, last: 3, ways: 2 },
            2 => Kind { rgb: 0, count: 12, least: 1, first: 1, last: 3, ways: 2 },
            3 => Kind { rgb: 0, count: 4, least: 1, first: 1, last: 2, ways: 2 },
            4 => Kind { rgb: 0, count: 12, least: 1, first: 1, last: 2, ways: 2 },
            5 => Kind { rgb: 1, count: 4, least: 1, first: 1, last: 3, ways: 0 },
            6 => Kind { rgb: 0, count: 4, least: 1, first: 1, last: 3, ways: 2 },
            7 => Kind { rgb: 0, count: 4, least: 1, first: 1, last: 2, ways: 2 },
            8 => Kind { rgb: 0, count: 12, least: 1, first: 1, last: 2, ways: 2 },
            _ => Kind { rgb: 0, count: 0, least: 4, first: 0, last: 0, ways: 0 },
        }
    }

    // The largest sync value: none but 0 without embedded syncs.
    fn most_sync(self) -> u16
        ensures { result ≡ most_sync self.count }
    {
        if self.count == TWELVE_COUNT { 1023 } else { 0 }
    }
}

/// The numbers of a wiring in the registers: a sync value that it does not have is 0.
impl From<Wiring> for Wires {
    ghost from_gives = { λ wiring wires. wires ≡ wires_of wiring };

    fn from(wiring: Wiring) -> Wires {
        match wiring {
            Wiring::Board => Wires {
                depth: 3,
                ..Wires::default()
            },
            Wiring::Four {
                input,
                depth,
                style,
                justification,
            } => Wires {
                input,
                depth,
                style,
                justification,
                ..Wires::default()
            },
            Wiring::Twelve {
                input,
                depth,
                style,
                justification,
                hplacement,
                hduration,
                vplacement,
                vduration,
            } => Wires {
                input,
                depth,
                style,
                justification,
                hplacement,
                hduration,
                vplacement,
                vduration,
            },
        }
    }
}

/// The wiring of which the registers hold these numbers: its ID says which count.
impl From<Wires> for Wiring {
    ghost from_gives = { λ wires wiring. wiring ≡ wiring_named wires };

    fn from(n: Wires) -> Wiring {
        match Kind::of(n.input).count {
            TWELVE_COUNT => Wiring::Twelve {
                input: n.input,
                depth: n.depth,
                style: n.style,
                justification: n.justification,
                hplacement: n.hplacement,
                hduration: n.hduration,
                vplacement: n.vplacement,
                vduration: n.vduration,
            },
            FOUR_COUNT => Wiring::Four {
                input: n.input,
                depth: n.depth,
                style: n.style,
                justification: n.justification,
            },
            _ => Wiring::Board,
        }
    }
}

// A sync value: two bytes of a body, high byte first.
fn sync_at(body: &[u8], i: usize) -> u16
    requires { i < 256 }
    ensures { result ≡ sync_at body.now i }
{
    let high = lists::byte_at(body, i);
    let low = lists::byte_at(body, i + 1);
    u16::from_be_bytes([high, low])
}

impl Wiring {
    /// What a body says. A byte that it does not have is 0.
    pub fn from_body(body: &[u8]) -> Wiring
        ensures { result ≡ wiring_in body.now }
    {
        if body.is_empty() {
            return Wiring::Board;
        }
        let input = lists::byte_at(body, 0);
        let depth = lists::byte_at(body, 1);
        let style = lists::byte_at(body, 2);
        let justification = lists::byte_at(body, 3);
        if body.len() == usize::from(TWELVE_COUNT) {
            Wiring::Twelve {
                input,
                depth,
                style,
                justification,
                hplacement: sync_at(body, 4),
                hduration: sync_at(body, 6),
                vplacement: sync_at(body, 8),
                vduration: sync_at(body, 10),
            }
        } else {
            Wiring::Four {
                input,
                depth,
                style,
                justification,
            }
        }
    }

    /// The count of its section.
    pub fn count(self) -> u8
        ensures { result ≡ count_of self }
    {
        match self {
            Wiring::Board => 0,
            Wiring::Four { .. } => FOUR_COUNT,
            Wiring::Twelve { .. } => TWELVE_COUNT,
        }
    }

    /// Row 5, of this section. Today's board is looked at no further: it is what most requests have.
    #[tactic(auto, unfolding(crate::specs::Tests::wiring_outside, crate::specs::Kinds::kind_of))]
    pub fn outside(self) -> bool
        ensures { result ≡ wiring_outside self }
    {
        if matches!(self, Wiring::Board) {
            return false;
        }
        let n = Wires::from(self);
        let kind = Kind::of(n.input);
        let most = kind.most_sync();
        let undrawn = n.depth < kind.least
            || 3 < n.depth
            || n.style < kind.first
            || kind.last < n.style
            || kind.ways < n.justification;
        let beyond = most < n.hplacement
            || most < n.hduration
            || most < n.vplacement
            || most < n.vduration;
        undrawn || self.count() != kind.count || beyond
    }

    /// Whether the input counts as RGB.
    #[tactic(auto, unfolding(crate::specs::Kinds::kind_of))]
    pub fn is_rgb(self) -> bool
        ensures { result ≡ rgb_in (wires_of self).input }
    {
        matches!(self, Wiring::Board) || Kind::of(Wires::from(self).input).rgb == 1
    }
}

/// A body and what it says, there and back.
pub fn body_rule()
    ensures { WiringBody }
{}

/// A wiring to which row 5 does not apply: its numbers fit their fields, and name it, count and all.
pub fn in_range()
    ensures { WiringRange }
{}
