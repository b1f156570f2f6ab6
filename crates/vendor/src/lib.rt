// Reading a write list that a vendor brings: document 02, requests 03 and 04.
#![tactic(auto)]

ghost use Rattle.std.specs.Prelude.{◌≡◌, ◌≢◌, true, false, cond, not, ◌&&◌, ◌||◌, List, [], ℕ, ◌≤◌, eqb, length, take, IfErr, unwrap_or};
ghost use Rattle.lists.specs.Same.{same_list};
ghost use Rattle.bits.specs.Merge.{under};
ghost use Rattle.refusals.specs.declared.Refusal.TheVariants.{BadPair};
ghost use Rattle.matrix.specs.Matrix.{fields};
ghost use Rattle.chip.specs.declared.Chip.{Chip};
ghost use Rattle.chip.specs.Machine.{avi, audio, matrix, packets, converter, up, holds_of, registers_of, mute};
ghost use Rattle.chip.specs.Groups.{group_of, covers};
ghost use Rattle.chip.specs.Write.{lent_as, two, holds_after, vsync_of, Stores};
ghost use Rattle.writes.specs.List.{pairs_of, ready};
ghost use Rattle.views.specs.Entry.{marked};
ghost use Rattle.decode.specs.Decode.{some_ends};
ghost use Rattle.cut.specs.Run.{all_in_use};
ghost use Rattle.vendor.specs.Vendor.{shortened, end_of};
ghost use Rattle.vendor.specs.Found.{shown, at_write, may_move, is_kept, is_whole, is_between, is_turned, taken_by, first_fault, Untold, Vets};
ghost use Rattle.vendor.specs.declared.Fault.TheVariants.{Refused};
ghost use Rattle.vendor.specs.Numbered.{verdict_told, moves_told, writes_in};
ghost use Rattle.vendor.specs.Theorems.{Vetted};

use chip::{Chip, Group};
use map::Map;
use refusals::Refusal;
use registers::ByColumn;
use request::sections::LONGEST;

/// Why a list is refused; refusal 15 has the place of the first bad pair, counted from 0.
#[derive(Clone, Copy, Debug, PartialEq, Eq)]
pub enum Fault {
    Refused(Refusal),
    Pair { place: u32 },
}

impl From<Refusal> for Fault {
    ghost use Rattle.vendor.specs.declared.Fault.TheVariants.{Refused};

    ghost from_gives = { λ refusal fault. fault ≡ Refused refusal };

    fn from(refusal: Refusal) -> Fault {
        Fault::Refused(refusal)
    }
}

/// "At most 512 pairs."
pub const MOST_PAIRS: usize = 512;

// Some bytes as an array.
#[tactic(auto, using(lists::proofs::Copied::over_whole))]
fn array<const N: usize>(bytes: &[u8]) -> [u8; N]
    requires { length bytes.now ≡ N }
    ensures { result ≡ bytes.now }
{
    let mut out = [0; N];
    lists::copy(bytes, &mut out);
    out
}

// What is in use: the AVI InfoFrame, the audio InfoFrame and the twelve coefficients.
#[derive(Clone, Copy)]
struct Used {
    avi: [u8; Map::AVI_INFOFRAME_COUNT as usize],
    audio: [u8; Map::AUDIO_INFOFRAME_COUNT as usize],
    matrix: [u16; 12],
}

impl Used {
    // Of a state. Called twice for a list: not taken into either place, which makes the archive smaller by a fourteenth.
    #[inline(never)]
    fn of(state: &Chip) -> Used
        ensures { shown result ≡ all_in_use state.now }
    {
        Used {
            avi: array(state.packet_in_use(Group::AVI)),
            audio: array(state.packet_in_use(Group::AUDIO)),
            matrix: matrix::twelve(state.matrix_in_use()),
        }
    }
}

// A group at a write, and whether its buffer was in use before the write and is after it.
#[derive(Clone, Copy)]
struct Moves {
    group: Group,
    before: bool,
    after: bool,
}

impl Moves {
    // A packet, by the byte of the packet holds before a write and after it.
    fn packet(group: Group, before: u8, after: u8) -> Moves
        ensures { moves_told result ≡ at_write (group_of group) (up (group_of group) before) (up (group_of group) after) }
    {
        Moves {
            group,
            before: group.is_up(before),
            after: group.is_up(after),
        }
    }

    // The coefficients, by the state after a write: a write alone never brings them out of their buffer.
    fn matrix(state: &Chip) -> Moves
        ensures { moves_told result ≡ at_write matrix false (state.now.waiting || up matrix (holds_of converter state.now.image)) }
    {
        Moves {
            group: Group::MATRIX,
            before: false,
            after: state.is_buffered(),
        }
    }

    // Whether a write may have moved what is in use of it.
    fn may_move(self, address: u8) -> bool
        ensures { result ≡ may_move (moves_told self) address }
    {
        !self.after && (self.before || self.group.covers(address))
    }

    // A packet after a write: where it may have moved, its registers are one of the two.
    fn is_kept(self, address: u8, image: &[u8; 256], old: &[u8], new: &[u8]) -> bool
        ensures { result ≡ is_kept (moves_told self) (λ x. x) old.now new.now address image.now }
    {
        if self.may_move(address) {
            let now = self.group.registers(image);
            lists::same(now, old) || lists::same(now, new)
        } else {
            true
        }
    }
}

// What a pair is judged by: of its register the bits that a list keeps, the mandated bits, the free bits, and what is mandated.
#[derive(Clone, Copy)]
struct Masks {
    keep: u8,
    mandated: u8,
    free: u8,
    bits: u8,
}

impl Masks {
    // A pair on its own; a list keeps all eight bits of a register that it does not write.
    fn is_fair(self, old: u8, value: u8) -> bool
        ensures { result ≡ (not (eqb self.keep 255) && (eqb (under self.mandated value) (under self.mandated self.bits) &&
            eqb (under self.free value) (under self.free old))) }
    {
        let carries = bits::merge(self.mandated, value, 0)
            == bits::merge(self.mandated, self.bits, 0);
        let keeps = bits::merge(self.free, value, 0) == bits::merge(self.free, old, 0);
        self.keep != 255 && carries && keeps
    }
}

// A pair that was written: its address, the byte of the packet holds before it, the state after it, and whether the event follows.
#[derive(Clone, Copy)]
struct Written<'a> {
    address: u8,
    held: u8,
    state: &'a Chip,
    event: bool,
}

impl<'a> Written<'a> {
    // "Muted: set bit 1, clear bit 0.", of the GC byte in use.
    fn is_muted(&self) -> bool
        ensures { result ≡ eqb (mute (lent_as self.now.state.now.image self.now.state.now.packet [] false)) 1 }
    {
        views::mute_bits(&self.state.image, &self.state.packet) == 1
    }

    // Whether it left every group alone: it is to none of their registers, and no packet hold changed.
    fn is_still(&self) -> bool
        ensures { result ≡ (not (covers avi self.now.address || (covers audio self.now.address || covers matrix self.now.address)) &&
            eqb self.now.held (holds_of packets self.now.state.now.image)) }
    {
        let avi = Group::AVI.covers(self.address);
        let audio = Group::AUDIO.covers(self.address);
        let matrix = Group::MATRIX.covers(self.address);
        !(avi || audio || matrix) && self.held == self.state.packet_holds()
    }
}

// What was in use before the list, and what is at its end.
#[derive(Clone, Copy)]
struct Ways {
    old: Used,
    new: Used,
}

impl Ways {
    // The coefficients that the registers have are one of the two.
    fn is_either(&self, image: &[u8; 256]) -> bool
        ensures { result ≡ (same_list (fields (registers_of matrix image.now)) self.now.old.matrix
            || same_list (fields (registers_of matrix image.now)) self.now.new.matrix) }
    {
        let twelve = matrix::twelve(Group::MATRIX.registers(image));
        lists::same_numbers(twelve, self.old.matrix) || lists::same_numbers(twelve, self.new.matrix)
    }

    // Each group that may have moved is old or new.
    fn is_whole(&self, pair: &Written) -> bool
        ensures { result ≡ is_whole (shown self.now.old) (shown self.now.new) pair.now.address pair.now.held pair.now.state.now.image
            pair.now.state.now.waiting }
    {
        let state = pair.state;
        let holds = state.packet_holds();
        let avi = Moves::packet(Group::AVI, pair.held, holds);
        let audio = Moves::packet(Group::AUDIO, pair.held, holds);
        avi.is_kept(pair.address, &state.image, &self.old.avi, &self.new.avi)
            && audio.is_kept(pair.address, &state.image, &self.old.audio, &self.new.audio)
            && (!Moves::matrix(state).may_move(pair.address) || self.is_either(&state.image))
    }

    // The cut after a pair: muted, and each group old or new, which is told at once where none can have moved.
    #[tactic(auto, unfolding(crate::specs::Found::is_between))]
    fn is_between(&self, pair: &Written) -> bool
        ensures { result ≡ is_between (shown self.now.old) (shown self.now.new) pair.now.address pair.now.held pair.now.state.now.image
            pair.now.state.now.packet pair.now.state.now.waiting }
    {
        pair.is_muted() && (pair.is_still() || self.is_whole(pair))
    }

    // The cut after the event, where a change may have been waiting: the coefficients of the registers are old or new.
    #[tactic(auto, unfolding(crate::specs::Found::is_turned))]
    fn is_turned(&self, state: &Chip) -> bool
        ensures { result ≡ is_turned (shown self.now.old) (shown self.now.new) state.now.image state.now.waiting }
    {
        let turns = state.waiting && !state.is_matrix_held();
        !turns || self.is_either(&state.image)
    }

    // Both, where the event follows.
    fn is_careful(&self, pair: &Written) -> bool
        ensures { result ≡ (is_between (shown self.now.old) (shown self.now.new) pair.now.address pair.now.held pair.now.state.now.image
            pair.now.state.now.packet pair.now.state.now.waiting && (not pair.now.event || is_turned (shown self.now.old) (shown self.now.new)
            pair.now.state.now.image pair.now.state.now.waiting)) }
    {
        self.is_between(pair) && (!pair.event || self.is_turned(pair.state))
    }
}

// The pairs that the machine takes, by the byte of the packet holds: those before the first that would leave two up.
fn taken<'a>(start: u8, list: &'a [[u8; 2]]) -> &'a [[u8; 2]]
    ensures { result.now ≡ take (taken_by start (writes_in list.now)) list.now }
{
    let keep = registers::read_only(Map::INFOFRAME_UPDATE);
    let mut held = start;
    for (i, &[address, value]) in list.iter().enumerate() {
        if address == Map::INFOFRAME_UPDATE {
            held = bits::merge(keep, held, value);
            if chip::two_up(held) {
                return &list[..i];
            }
        }
    }
    list
}

// The state after the event, where it comes.
#[tactic(auto, unfolding(chip::specs::Write::vsync_of))]
fn turn(state: &mut Chip, event: bool)
    ensures { state.new ≡ cond event (vsync_of state.old) state.old }
{
    if event {
        state.waiting = state.waits_on();
    }
}

// A byte stored as the machine does, where no two packet holds are up: but for the two registers of holds it is the byte alone.
// Kept, for speed: the vet of 512 pairs took 1.25 of plain C's time with 46,099 instructions, and its bar is 1.4 (docs/SPEED.md). With
// `Chip::store` at each address it took 55,838.
#[tactic(auto, using(crate::proofs::Loops::plain_write))]
fn store(state: &mut Chip, address: u8, byte: u8)
    ensures { two (holds_of packets state.old.image) ≡ false
        → Stores state.old address byte (not (two (holds_after address byte state.old.image))) state.new }
{
    if address != Map::INFOFRAME_UPDATE && address != Map::COEFFICIENT_UPDATE {
        state.image[address as usize] = byte;
    } else {
        let _ = state.store(address, byte);
    }
}

// Pairs that the machine takes one and all, and the state that the first of them finds.
#[derive(Clone, Copy)]
struct Run<'a> {
    start: &'a Chip,
    pairs: &'a [[u8; 2]],
    ghost whole: { length start.now.image ≡ 256 },
    ghost taken: { shortened (writes_in pairs.now) start.now ≡ writes_in pairs.now },
}

impl<'a> Run<'a> {
    // The first pass: the state at the end, with the event just before the last pair.
    fn ending(&self) -> Chip
        ensures { result ≡ end_of (writes_in self.now.pairs.now) self.now.start.now }
    {
        let pairs = self.pairs;
        let mut state = *self.start;
        for (i, &[address, value]) in pairs.iter().enumerate() {
            turn(&mut state, i + 1 == pairs.len());
            let keep = registers::read_only(address);
            let byte = bits::merge(keep, state.image[address as usize], value);
            store(&mut state, address, byte);
        }
        state
    }

    // The second pass: the first pair that fails.
    fn first_fault(&self, ways: &Ways) -> Option<usize>
        ensures { unwrap_or result (length self.now.pairs.now)
            ≡ first_fault (shown ways.now.old) (shown ways.now.new) (writes_in self.now.pairs.now) self.now.start.now }
    {
        let columns = ByColumn::new();
        let keep = writes::keep();
        let pairs = self.pairs;
        let mut state = *self.start;
        for (i, &[address, value]) in pairs.iter().enumerate() {
            let at = address as usize;
            let before = state.image[at];
            let masks = Masks {
                keep: keep[at],
                mandated: columns.mandated[at],
                free: columns.free[at],
                bits: columns.bits[at],
            };
            if !masks.is_fair(before, value) {
                return Some(i);
            }
            let held = state.packet_holds();
            let byte = bits::merge(columns.read_only[at], before, value);
            store(&mut state, address, byte);
            let last = i + 1 == pairs.len();
            let pair = Written {
                address,
                held,
                state: &state,
                event: i + 2 == pairs.len(),
            };
            if !(last || ways.is_careful(&pair)) {
                return Some(i);
            }
        }
        None
    }
}

// Whether a request ends in an image.
fn decodes(image: &[u8; 256]) -> bool
    ensures { result ≡ some_ends image.now }
{
    let mut request = [0u8; LONGEST];
    decode::decode(image, &mut request).is_ok()
}

// The verdict where neither 7 nor 8 nor 14 applies: 15, 16 or none.
fn verdict_on(start: &Chip, list: &[[u8; 2]]) -> Result<(), Fault>
    requires { (length list.now ≤ 512) × (ready start.now.image ≡ true) }
    ensures vets { (bytes : List ℕ) → pairs_of bytes ≡ writes_in list.now → Untold start.now bytes → Vets start.now bytes (verdict_told result) }
    ensures placed { IfErr result (λ fault. fault ≢ Refused BadPair) }
{
    // Kept, the proof did not close: with `packet_holds` here nothing says that the image has its 256 bytes (`Run::whole`).
    let holds = start.image[Map::INFOFRAME_UPDATE as usize];
    let run = Run {
        start,
        pairs: taken(holds, list),
    };
    let end = run.ending();
    let ways = Ways {
        old: Used::of(start),
        new: Used::of(&end),
    };
    // Where none of these fails, the first that the machine does not take.
    let place = run.first_fault(&ways).unwrap_or(run.pairs.len());
    if place < list.len() {
        Err(Fault::Pair {
            place: place as u32,
        })
    } else if !decodes(&end.image) {
        Err(Refusal::BadEnd.into())
    } else {
        Ok(())
    }
}

/// Whether a list may be run on the chip from a state: refusals 7, 8, 14, 15 and 16.
pub fn vet(
    image: &[u8],
    packet: &[u8],
    coefficients: &[u8],
    mark: u8,
    list: &[u8],
) -> Result<(), Fault>
    ensures vets { Vets (lent_as image.now packet.now coefficients.now (marked mark)) list.now (verdict_told result) }
    ensures placed { IfErr result (λ fault. fault ≢ Refused BadPair) }
{
    if image.len() != 256 || packet.len() != 32 || coefficients.len() != 24 {
        return Err(Refusal::ImageLength.into());
    }
    let holds = image[Map::INFOFRAME_UPDATE as usize];
    if !plan::is_ready(holds) {
        return Err(Refusal::HoldsUp.into());
    }
    let (pairs, rest) = list.as_chunks::<2>();
    if !rest.is_empty() || MOST_PAIRS < pairs.len() {
        return Err(Refusal::ListLength.into());
    }
    let start = views::gathered(image, packet, coefficients, mark);
    verdict_on(&start, pairs)
}

/// What the verdict says of a list.
pub fn vetted()
    ensures { (s : Chip) (list : List ℕ) → Vetted s list }
{}
