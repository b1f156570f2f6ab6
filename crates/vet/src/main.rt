// Reading a vendor's list: the registers, the two buffers, the mark and the list on standard input, one line on standard output (document
// 02, requests 03 and 04).
#![tactic(auto)]

ghost use Rattle.std.specs.Prelude.{◌≡◌, List, ℕ, ◌<◌, length};
ghost use Rattle.io.specs.Counts.{IsPrefixLen};
ghost use Rattle.vendor.specs.Numbered.{verdict_told};
ghost use Rattle.vet.specs.Input.{verdict_of, longest_input, PrintsInput, Inputs};

use line::Text;
use refusals::Refusal;
use std::io::{Read, Write};
use vendor::{Fault, MOST_PAIRS};

// The bytes before the list, and with them one pair more than the longest list has.
const AHEAD: usize = 256 + 32 + 24 + 1;

const ENOUGH: usize = AHEAD + 2 * (MOST_PAIRS + 1);

// The verdict on an input; one that ends before its list is refused.
fn judged(input: &[u8]) -> Result<(), Fault>
    ensures { verdict_told result ≡ verdict_of input.now }
{
    if input.len() < AHEAD {
        return Err(Refusal::ImageLength.into());
    }
    let (image, rest) = input.split_at(256);
    let (packet, rest) = rest.split_at(32);
    let (coefficients, rest) = rest.split_at(24);
    vendor::vet(image, packet, coefficients, rest[0], &rest[1..])
}

// What is there to be read, at the front of a room: up to its end, or the input's. A read that fails counts as the end too.
// Kept, no plainer: `read_exact` does not say how much it read of an input that ends before the room, and `read_to_end` needs the heap.
fn read_full(rt: &HostRuntime, room: &mut [u8]) -> usize
    ensures { IsPrefixLen result room.new }
{
    let mut done = 0;
    while done < room.len() {
        let n = rt.stdin().read(&mut room[done..]).unwrap_or(0);
        if n == 0 {
            break;
        }
        done += n;
    }
    done
}

// A verdict as its line has it: the number of the refusal, 0 for none, and the place.
fn in_numbers(verdict: Result<(), Fault>) -> (u8, u32)
    ensures { (result.0 ≡ (verdict_told verdict).refusal) × (result.1 ≡ (verdict_told verdict).place) }
{
    match verdict {
        Ok(()) => (0, 0),
        Err(Fault::Refused(refusal)) => (refusal.into(), 0),
        Err(Fault::Pair { place }) => (Refusal::BadPair.into(), place),
    }
}

// The line of what is read, in a room for more than the longest input: what follows one byte more changes nothing (`Inputs.enough`).
fn print(rt: &HostRuntime, room: &mut [u8]) -> Text
    requires { longest_input < length room.old }
    ensures { PrintsInput room.new result.count result.bytes }
{
    let n = read_full(rt, room);
    let (refusal, place) = in_numbers(judged(&room[..n]));
    line::print_verdict(refusal, place)
}

// Kept, what may not change: no `?` and no status, for a program whose write fails ended with status 0 (docs/DECISIONS.md K5).
fn main(rt: HostRuntime) {
    let mut room = [0u8; ENOUGH];
    let _ = rt.stdout().write_all(print(&rt, &mut room).as_bytes());
}

// The parts of an input, and what is answered for one that ends before its list, or goes on after the longest.
fn inputs()
    ensures { (input : List ℕ) → Inputs input }
{}
