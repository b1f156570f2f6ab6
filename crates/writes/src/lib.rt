// The write list of any wanted bytes: its steps, what each write carries, which are left out, the finished image. Document 01, "The write
// list"; document 02, request 09.
#![tactic(auto)]

ghost use Rattle.std.specs.Prelude.{◌≡◌, List, [], ◌∷◌, ℕ, ◌+◌, ◌*◌, ◌^◌, ◌<◌, ◌≤◌, get_or, length};
ghost use Rattle.bits.specs.Merge.{merge};
ghost use Rattle.chip.specs.Machine.{◌gets◌};
ghost use Rattle.writes.specs.Rows.{from, Touched};
ghost use Rattle.writes.specs.Steps.{coefficient_steps, avi_steps, audio_steps};
ghost use Rattle.writes.specs.Pen.{HasRoom, AddsAtMost, Penned};
ghost use Rattle.writes.specs.List.{column, stands_whole, Lists};
ghost use Rattle.writes.specs.Columns.{kept_bits, open_bits, held_bits, closed};
ghost use Rattle.writes.specs.Parts.{with_bits, moving, coefficient_pairs, packet_pairs, both_pairs};
ghost use Rattle.writes.specs.Order.{Order};
ghost use Rattle.writes.specs.Carried.{Entries};
ghost use Rattle.writes.specs.Fewer.{Fewer};

use chip::Group;
use map::Map;
use std::array;

mod steps;

/// Of each register the bits that a list keeps; all eight of one that no list writes.
pub fn keep() -> [u8; 256]
    ensures { result ≡ column kept_bits }
{
    steps::KEEP
}

// Of a register the bits that are the image's or as wanted.
// Kept, no plainer: this and the next differ in the column alone. With the column as an argument a contract would have to say which it is.
fn open_at(a: usize) -> u8
    requires { a < 256 }
    ensures { result ≡ open_bits a }
{
    steps::OPEN[a]
}

// And those that are the image's or set.
fn held_at(a: usize) -> u8
    requires { a < 256 }
    ensures { result ≡ held_bits a }
{
    steps::HELD[a]
}

// Every register with the bits that steps decide down, as a list of these wanted bytes leaves it.
fn closed(image: &[u8; 256], wanted: &[u8; 256]) -> [u8; 256]
    ensures { (a : ℕ) → a < 256 → get_or result a 0 ≡ closed (λ b. get_or wanted.now b 0) image.now a }
{
    array::from_fn(|a| {
        let held = held_at(a);
        bits::merge(open_at(a), bits::merge(held, image[a], wanted[a]), held)
    })
}

// These bits of a byte raised.
fn raise(bits: u8, byte: u8) -> u8
    ensures { result ≡ merge 8 bits bits byte }
{
    bits::merge(bits, bits, byte)
}

// A list that is being written: the image, its bytes as the list is to leave them, and the buffer, with the place of the next pair.
#[derive(Drop)]
struct Pen<'a> {
    image: &'a [u8; 256],
    bytes: &'a [u8; 256],
    writes: &'a mut [u8],
    at: usize,
}

impl<'a> Pen<'a> {
    // A pair, and the place after it.
    // Kept, no plainer: an address and its byte, for a value of the two would be made in both calls and opened in the first line.
    fn pair(&mut self, address: u8, byte: u8)
        requires { HasRoom self.old 1 }
        ensures { Penned self.old (λ image bytes. address gets byte ∷ []) self.new }
    {
        self.writes[2 * self.at] = address;
        self.writes[2 * self.at + 1] = byte;
        self.at += 1;
    }

    // A register, with some bits of its byte raised.
    fn put(&mut self, address: u8, bits: u8)
        requires { HasRoom self.old 1 }
        ensures { Penned self.old (λ image bytes. with_bits bytes address bits) self.new }
    {
        self.pair(address, raise(bits, self.bytes[usize::from(address)]));
    }

    // A register where its byte is another than the image's.
    fn put_other(&mut self, address: u8)
        requires { HasRoom self.old 1 }
        ensures puts { Penned self.old (λ image bytes. moving image bytes (address ∷ [])) self.new }
        ensures at_most { AddsAtMost self.old 1 self.new }
    {
        let register = usize::from(address);
        let byte = self.bytes[register];
        if byte != self.image[register] {
            self.pair(address, byte);
        }
    }

    // Of some registers those whose byte is another than the image's.
    fn each(&mut self, registers: &[u8])
        requires { HasRoom self.old (length registers.now) }
        ensures puts { Penned self.old (λ image bytes. moving image bytes registers.now) self.new }
        ensures at_most { AddsAtMost self.old (length registers.now) self.new }
    {
        for address in registers {
            self.put_other(*address);
        }
    }

    // The same of registers in a row; most often none of a row is another.
    // Kept, no plainer: one function for both, over any iterator, would have to say in its contract what that yields. The `for` goes over addresses,
    // which are what is written.
    fn row(&mut self, first: usize, count: usize)
        requires in_the_map { first + count ≤ 256 }
        requires has_room { HasRoom self.old count }
        ensures puts { Penned self.old (λ image bytes. moving image bytes (from first count)) self.new }
        ensures at_most { AddsAtMost self.old count self.new }
    {
        let end = first + count;
        let (bytes, image) = (self.bytes, self.image);
        if lists::same(&bytes[first..end], &image[first..end]) {
            return;
        }
        for address in first..end {
            self.put_other(address as u8);
        }
    }

    // "coefficient hold up, 0x18 to 0x2F with the hold kept up, hold down"
    fn coefficients(&mut self)
        requires { HasRoom self.old (length coefficient_steps) }
        ensures puts { Penned self.old coefficient_pairs self.new }
        ensures at_most { AddsAtMost self.old (length coefficient_steps) self.new }
    {
        let hold = Map::COEFFICIENT_UPDATE;
        let up = Map::COEFFICIENT_UPDATE_MASK;
        self.put(hold, up);
        self.row(Map::CSC as usize, 2);
        self.put(hold, up); // kept up
        self.row(Map::CSC as usize + 3, Map::CSC_COUNT as usize - 3);
        self.put(hold, 0);
    }

    // "AVI hold up, its registers, hold down; audio likewise"
    fn packet(&mut self, packet: Group)
        requires { HasRoom self.old (packet.count + 2) }
        ensures puts { Penned self.old (packet_pairs (2 ^ packet.hold) packet.first packet.count) self.new }
        ensures at_most { AddsAtMost self.old (packet.count + 2) self.new }
    {
        self.put(Map::INFOFRAME_UPDATE, 1 << packet.hold);
        self.row(usize::from(packet.first), usize::from(packet.count));
        self.put(Map::INFOFRAME_UPDATE, 0);
    }

    // "If the audio hold is up at the start, audio goes before AVI."
    fn packets(&mut self)
        requires { HasRoom self.old (length avi_steps + length audio_steps) }
        ensures puts { Penned self.old both_pairs self.new }
        ensures at_most { AddsAtMost self.old (length avi_steps + length audio_steps) self.new }
    {
        if Group::AUDIO.is_up(self.image[Map::INFOFRAME_UPDATE as usize]) {
            self.packet(Group::AUDIO);
            self.packet(Group::AVI);
        } else {
            self.packet(Group::AVI);
            self.packet(Group::AUDIO);
        }
    }
}

/// The list, at the front of the buffer, and the count of its pairs; none where the image or the buffer has another length.
// Kept, what may not change: then 0 and no refusal, for `Lists` says so, and no public function has a `requires`.
pub fn write_list(image: &[u8], wanted: &[u8; 256], writes: &mut [u8]) -> u32
    ensures { Lists (λ a. get_or wanted.now a 0) image.now writes.old result writes.new }
{
    let Ok(image) = <&[u8; 256]>::try_from(image) else {
        return 0;
    };
    if writes.len() < 256 {
        return 0;
    }
    let bytes = closed(image, wanted);
    let mut pen = Pen {
        image,
        bytes: &bytes,
        writes,
        at: 0,
    };
    pen.put(Map::AV_MUTE, Map::SET_AV_MUTE_MASK);
    pen.each(&steps::TABLE14);
    pen.coefficients();
    pen.packets();
    pen.each(&steps::OTHERS);
    pen.put(Map::AV_MUTE, Map::CLEAR_AV_MUTE_MASK);
    pen.at as u32
}

/// Whether an image stands as the list of these wanted bytes would leave it.
pub fn stands(image: &[u8], wanted: &[u8; 256]) -> bool
    ensures { result ≡ stands_whole (λ a. get_or wanted.now a 0) image.now }
{
    let Ok(image) = <&[u8; 256]>::try_from(image) else {
        return false;
    };
    let mut bytes = closed(image, wanted);
    bytes[Map::AV_MUTE as usize] = raise(Map::CLEAR_AV_MUTE_MASK, bytes[Map::AV_MUTE as usize]);
    lists::same(&bytes, image)
}

/// Which registers the list writes, and in what order.
pub fn write_order()
    ensures { (want : ℕ → ℕ) (image : List ℕ) → Order want image }
{}

/// What each entry of the full list does.
pub fn list_entries()
    ensures { (want : ℕ → ℕ) (image : List ℕ) → Entries want image }
{}

/// Which writes are left out of it, and how many are left.
pub fn fewer_writes()
    ensures { (want : ℕ → ℕ) (image : List ℕ) → Fewer want image }
{}

/// The registers that a list may touch.
pub fn touched()
    ensures { Touched }
{}
