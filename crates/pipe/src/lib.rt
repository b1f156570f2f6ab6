// Requests through a pipe: document 02, request 08.
#![tactic(auto)]

ghost use Rattle.std.specs.Prelude.{◌≡◌, ◌≢◌, eqb, true, false, MatchResult, List, ◌++◌, ℕ, suc, ◌≤◌, length, take, option_map, unwrap_or};
ghost use Rattle.refusals.specs.Numbered.{given_by, refusal_number};
ghost use Rattle.request.specs.Sections.{longest};
ghost use Rattle.pipe.specs.Numbered.{piped_told, IsNumbered};
ghost use Rattle.pipe.specs.Bytes.{count_in, answer_in, so_far, no_pipe, said_by, answer_byte};
ghost use Rattle.pipe.specs.Found.{is_pipe, is_open, answer_there, TakesPart, EndsPipe};
ghost use Rattle.pipe.specs.Found as pipes;
ghost use Rattle.pipe.specs.Final.{Finals, Deciding};
ghost use Rattle.pipe.specs.Pipe.{AnyPipe, HoweverCut};
ghost use Rattle.pipe.specs.Cases.{PipeCases};

mod number;

use clock::NCts;
pub use number::Number;
use refusals::Refusal;
use request::sections::LONGEST;

/// Where the count stands in a pipe. A pipe is the request so far, its count, and its answer: 0 for none yet, ACCEPTED, or the refusal.
// Kept, for the C interface: C lends a pipe as bytes, so the count and the answer stand beside the request.
pub const COUNT: usize = LONGEST;

/// Where the answer stands in a pipe.
pub const ANSWER: usize = LONGEST + 1;

/// The length of a pipe.
pub const PIPE: usize = LONGEST + 2;

/// The answer of a request that is accepted.
pub const ACCEPTED: u8 = 255;

/// One byte more than the longest request decides.
pub const ENOUGH: usize = LONGEST + 1;

/// What a call says: the bytes are no pipe; the request goes on; or its answer.
// Kept, what may not change: a refusal stands here as the pipe's byte, for in a pipe that another hand wrote it may be any number, which is said
// as it stands (`AnyPipe.said`).
#[derive(Clone, Copy, Debug, PartialEq, Eq)]
pub enum Said {
    NoPipe,
    Open,
    Accepted { count: u8 },
    Refused { number: Number },
}

// What stands in a pipe behind the room for a request: the count of the request's bytes so far, and the answer's byte.
// Kept, no plainer: the count and the answer are written by their places in `take` and `end`, for each call changes one of them.
#[derive(Clone, Copy)]
struct State {
    count: u8,
    answer: u8,
}

impl State {
    // Of lent bytes, if they are a pipe.
    fn read(pipe: &[u8]) -> Result<State, Said>
        ensures { MatchResult result (λ state. (is_pipe pipe.now ≡ true) × (state.count ≡ count_in pipe.now) × (state.answer ≡ answer_in pipe.now)) (λ said. (is_pipe pipe.now ≡ false) × (piped_told said ≡ no_pipe)) }
    {
        if pipe.len() != PIPE || usize::from(pipe[COUNT]) > LONGEST {
            return Err(Said::NoPipe);
        }
        Ok(State {
            count: pipe[COUNT],
            answer: pipe[ANSWER],
        })
    }

    // Whether there is no answer yet.
    fn is_open(self) -> bool
        ensures { result ≡ eqb self.answer 0 }
    {
        self.answer == 0
    }

    // What the answer says.
    fn said(self) -> Said
        requires { self.answer ≢ 0 }
        ensures { piped_told result ≡ said_by self.answer self.count }
    {
        if self.answer == ACCEPTED {
            Said::Accepted { count: self.count }
        } else {
            Said::Refused {
                number: Number { byte: self.answer },
            }
        }
    }
}

// A pipe with no answer yet: the bytes of the request so far.
#[derive(Clone, Copy)]
struct Open<'a> {
    bytes: &'a [u8],
    ghost within: { length bytes.now ≤ longest },
}

impl<'a> Open<'a> {
    // Of lent bytes; or else what is said: the answer that is there, or that they are no pipe.
    fn of(pipe: &'a [u8]) -> Result<Open<'a>, Said>
        ensures { MatchResult result (λ found. (is_open pipe.now ≡ true) × (found.bytes.now ≡ so_far pipe.now)) (λ said. (is_open pipe.now ≡ false) × (piped_told said ≡ answer_there pipe.now)) }
    {
        let state = State::read(pipe)?;
        if !state.is_open() {
            return Err(state.said());
        }
        Ok(Open {
            bytes: &pipe[..usize::from(state.count)],
        })
    }

    // The request so far and a part, as many bytes as decide.
    fn join<'b>(&self, part: &[u8], input: &'b mut [u8; ENOUGH]) -> &'b [u8]
        ensures { result.now ≡ take (suc longest) (self.now.bytes.now ++ part.now) }
    {
        let before = self.bytes.len();
        lists::copy(self.bytes, &mut input[..]);
        lists::copy(part, &mut input[before..]);
        &input[..before + part.len().min(ENOUGH - before)]
    }
}

// The byte that remembers an answer.
fn answer_byte(found: Result<NCts, Refusal>) -> u8
    ensures { result ≡ answer_byte (given_by found) }
{
    match found {
        Ok(_) => ACCEPTED,
        Err(refusal) => refusal.into(),
    }
}

// Of what N and CTS gives, a refusal that no later byte can change: 2 or 3.
fn at_once(found: Result<NCts, Refusal>) -> Option<Refusal>
    ensures { unwrap_or (option_map refusal_number result) 0 ≡ pipes.early (given_by found) }
{
    found.err().filter(|refusal| matches!(refusal, Refusal::CountNotAllowed | Refusal::BytesAfter))
}

/// A part of a request, of any length: 2 and 3 at once, and else it is put behind the request so far. An answer that is there stays.
pub fn take(pipe: &mut [u8], part: &[u8]) -> Said
    ensures takes { TakesPart pipe.old part.now (piped_told result) pipe.new }
    ensures number { IsNumbered result }
{
    let so_far = match Open::of(pipe) {
        Ok(so_far) => so_far,
        Err(said) => return said,
    };
    let mut input = [0u8; ENOUGH];
    let joined = so_far.join(part, &mut input);
    if let Some(refusal) = at_once(request::ncts(joined)) {
        let number = Number {
            byte: refusal.into(),
        };
        pipe[ANSWER] = number.byte;
        return Said::Refused { number };
    }
    lists::copy(joined, pipe);
    pipe[COUNT] = joined.len() as u8;
    Said::Open
}

/// The end of a request: what N and CTS gives it.
pub fn end(pipe: &mut [u8]) -> Said
    ensures ends { EndsPipe pipe.old (piped_told result) pipe.new }
    ensures number { IsNumbered result }
{
    let so_far = match Open::of(pipe) {
        Ok(so_far) => so_far,
        Err(said) => return said,
    };
    let state = State {
        count: so_far.bytes.len() as u8,
        answer: answer_byte(request::ncts(so_far.bytes)),
    };
    pipe[ANSWER] = state.answer;
    state.said()
}

/// What no later byte can change, and which byte decides.
pub fn final_answers()
    ensures finals { (input : List ℕ) → Finals input }
    ensures deciding { (bodies : List (List ℕ)) → Deciding bodies }
{}

/// What any bytes that are lent as a pipe make of a part and of the end.
pub fn any_pipe()
    ensures { (pipe part : List ℕ) → AnyPipe pipe part }
{}

/// However a request is cut, in document 02's words.
pub fn however_cut()
    ensures { (parts : List (List ℕ)) → HoweverCut parts }
{}

/// Parts, and what they are answered.
pub fn pipe_cases()
    ensures { PipeCases }
{}
