// A write and a Vsync over the slices that the host lends: documents 01, "The chip machine", and 02, request 04.
ghost use Rattle.std.specs.Prelude.{◌≡◌};
ghost use Rattle.lists.specs.Over.{over};
ghost use Rattle.refusals.specs.Numbered.{given_by};
ghost use Rattle.refusals.specs.Tests.{lowest};
ghost use Rattle.chip.specs.Write.{lent_as};
ghost use Rattle.views.specs.Entry.{marked, lent, state_of, is_lent, enter_tests, Gathers, Writes, Turns};
ghost use Rattle.views.specs.Lending.{blank, lent_in, LeavesIn};
ghost use Rattle.views.specs.Sized.{LentSized};

use chip::{Chip, still_waits};
use map::Map;
use refusals::Refusal;

// Slices over a state: what a slice is short of stays, and what does not fit is left out. A mark of 0 is none.
fn gather(state: &mut Chip, image: &[u8], packet: &[u8], coefficients: &[u8], mark: u8)
    ensures { state.new ≡ lent_as (over image.now state.old.image) (over packet.now state.old.packet)
        (over coefficients.now state.old.coefficients) (marked mark) }
{
    lists::copy(image, &mut state.image);
    lists::copy(packet, &mut state.packet);
    lists::copy(coefficients, &mut state.coefficients);
    state.waiting = mark != 0;
}

// A state of zeros.
fn blank() -> Chip
    ensures { result ≡ blank }
{
    Chip {
        image: [0; 256],
        packet: [0; 32],
        coefficients: [0; 24],
        waiting: false,
    }
}

/// The slices as a state; what a slice is short of is 0, and what does not fit is left out. A mark of 0 is none.
// Kept, what may not change: `Gathers` gives a state for slices of every length, so that it cannot fail (P4).
pub fn gathered(image: &[u8], packet: &[u8], coefficients: &[u8], mark: u8) -> Chip
    ensures { Gathers (lent_as image.now packet.now coefficients.now (marked mark)) result }
{
    let mut state = blank();
    gather(&mut state, image, packet, coefficients, mark);
    state
}

// The machine as it is lent: its registers, its two buffers, and its mark, which is one byte.
#[derive(Drop)]
struct Slices<'a> {
    image: &'a mut [u8],
    packet: &'a mut [u8],
    coefficients: &'a mut [u8],
    mark: &'a mut [u8],
}

impl Slices<'_> {
    // Whether the slices have the machine's lengths.
    fn is_sized(&self) -> bool
        ensures { result ≡ is_lent (lent_in self.now) }
    {
        self.image.len() == 256
            && self.packet.len() == 32
            && self.coefficients.len() == 24
            && self.mark.len() == 1
    }

    // Refusal 7: of slices that have not.
    fn sized(&self) -> Result<(), Refusal>
        ensures { given_by result ≡ lowest (enter_tests (lent_in self.now)) }
    {
        if self.is_sized() {
            Ok(())
        } else {
            Err(Refusal::ImageLength)
        }
    }

    // The slices over a state of zeros, which is theirs then.
    fn read(&self, state: &mut Chip)
        requires sized { LentSized (lent_in self.now) }
        requires blank { state.old ≡ blank }
        ensures { state.new ≡ state_of (lent_in self.now) }
    {
        gather(
            state,
            self.image,
            self.packet,
            self.coefficients,
            self.mark[0],
        );
    }

    // A state over the slices.
    fn leave(&mut self, s: &Chip)
        requires { LentSized (lent_in self.old) }
        ensures { LeavesIn self.old s.now self.new }
    {
        lists::copy(&s.image, self.image);
        lists::copy(&s.packet, self.packet);
        lists::copy(&s.coefficients, self.coefficients);
        self.mark[0] = u8::from(s.waiting);
    }
}

/// One write of the machine: refusals 7 and 13, and a refused write changes nothing.
// Kept, for the C interface: C lends the machine as four slices; here they become one value.
pub fn write_into(
    image: &mut [u8],
    packet: &mut [u8],
    coefficients: &mut [u8],
    mark: &mut [u8],
    address: u8,
    value: u8,
) -> Result<(), Refusal>
    ensures { Writes (lent image.old packet.old coefficients.old mark.old) address value (given_by result)
        (lent image.new packet.new coefficients.new mark.new) }
{
    let mut slices = Slices {
        image,
        packet,
        coefficients,
        mark,
    };
    slices.sized()?;
    let mut state = blank();
    slices.read(&mut state);
    state.apply(address, value)?;
    slices.leave(&state);
    Ok(())
}

/// One Vsync of the machine: refusal 7, and no byte but the mark changes.
// Kept, for the C interface: C lends the machine as four slices; here they become one value.
pub fn vsync_into(
    image: &mut [u8],
    packet: &mut [u8],
    coefficients: &mut [u8],
    mark: &mut [u8],
) -> Result<(), Refusal>
    ensures { Turns (lent image.old packet.old coefficients.old mark.old) (given_by result)
        (lent image.new packet.new coefficients.new mark.new) }
{
    let slices = Slices {
        image,
        packet,
        coefficients,
        mark,
    };
    slices.sized()?;
    // Kept, no plainer: `Chip::vsync` would copy the machine's 312 bytes out of the slices and back, for the one byte that changes.
    let hold = slices.image[Map::COEFFICIENT_UPDATE as usize];
    slices.mark[0] = u8::from(still_waits(hold, slices.mark[0] != 0));
    Ok(())
}
