// The small program: one request on standard input, one line on standard output (document 01, "What the station's library does"). It takes
// its input in parts, as `read` delivers them (document 02, request 08).
#![tactic(auto)]

ghost use Rattle.std.specs.Prelude.{◌≡◌, ◌≤◌, ◌<◌, length};
ghost use Rattle.io.specs.Counts.{IsPrefixLen};
ghost use Rattle.request.specs.Sections.{longest};
ghost use Rattle.pipe.specs.Numbered.{piped_told};
ghost use Rattle.pipe.specs.Bytes.{fresh, pipe_length};
ghost use Rattle.desk.specs.Turns.{DeskTurns, SomePart, AllParts, PrintsPipe};

use line::Text;
use pipe::{ENOUGH, PIPE, Said};
use refusals::Refusal;
use std::io::{Read, Write};

// A part goes into the pipe. Whether to go on: not after the empty part, the end of the input, and not after an answer.
fn turn(pipe: &mut [u8], part: &[u8]) -> bool
    ensures { DeskTurns pipe.old part.now result pipe.new }
{
    let said = pipe::take(pipe, part);
    !part.is_empty() && matches!(said, Said::NoPipe | Said::Open)
}

// What is there to be read, in a room for one byte more than the longest request: that much decides. In a room of no bytes every input would be
// at its end. A read that fails counts as the end too.
fn read_part(rt: &HostRuntime, room: &mut [u8]) -> usize
    requires { longest < length room.old }
    ensures { IsPrefixLen result room.new }
{
    rt.stdin().read(room).unwrap_or(0)
}

// It goes into the pipe.
fn take_some(rt: &HostRuntime, pipe: &mut [u8]) -> bool
    ensures { SomePart pipe.old result pipe.new }
{
    let mut part = [0u8; ENOUGH];
    let n = read_part(rt, &mut part);
    turn(pipe, &part[..n])
}

// All that is to be read goes into a fresh pipe.
fn take_all(rt: &HostRuntime, pipe: &mut [u8])
    requires { pipe.old ≡ fresh }
    ensures { AllParts pipe.new }
{
    while take_some(rt, pipe) {}
}

// The end, and the line of the answer.
fn print(pipe: &mut [u8]) -> Text
    requires { length pipe.old ≡ pipe_length }
    ensures { PrintsPipe pipe.old result.count result.bytes }
{
    match pipe::end(pipe) {
        Said::NoPipe => line::print_answer(Refusal::ImageLength.into(), &[]),
        Said::Open => line::print_answer(0, &[]),
        Said::Accepted { count } => line::print_answer(0, &pipe[..usize::from(count)]),
        Said::Refused { number } => line::print_answer(number.byte, &[]),
    }
}

// Kept, what may not change: no `?` and no status, for a write that fails has ended with status 0.
fn main(rt: HostRuntime) {
    let mut pipe = [0u8; PIPE];
    take_all(&rt, &mut pipe);
    let _ = rt.stdout().write_all(print(&mut pipe).as_bytes());
}
