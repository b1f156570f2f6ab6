// The promises: nothing is computed here. Each function's contract is a theorem about the definitions of the crates below.
#![tactic(auto)]

ghost use Rattle.std.specs.Prelude.{◌≡◌, List, ℕ, Float};
ghost use Rattle.request.specs.declared.Request.{Request};
ghost use Rattle.chip.specs.declared.Chip.{Chip};
ghost use Rattle.promises.specs.AnyCut.{EveryCut};
ghost use Rattle.promises.specs.AnyInput.{Demand1};
ghost use Rattle.promises.specs.Cases.{MarkedCases};
ghost use Rattle.promises.specs.EachByte.{EachByte};
ghost use Rattle.promises.specs.Example.{Example};
ghost use Rattle.promises.specs.Finished.{AllNamed};
ghost use Rattle.promises.specs.Fitting.{Fitting};
ghost use Rattle.promises.specs.InNumbers.{InNumbers};
ghost use Rattle.promises.specs.Looked.{Looked};
ghost use Rattle.promises.specs.Metered.{FromMeter};
ghost use Rattle.promises.specs.Piped.{ThroughPipe};
ghost use Rattle.promises.specs.FieldByField.{FieldByField};
ghost use Rattle.promises.specs.MadeRight.{MadeRightAgain};
ghost use Rattle.promises.specs.OtherCalls.{OtherCalls};
ghost use Rattle.promises.specs.Readers.{Readers};
ghost use Rattle.promises.specs.Rules.{Demand2};
ghost use Rattle.promises.specs.OnSomeImage.{OnSomeImage};
ghost use Rattle.promises.specs.Said.{Said};
ghost use Rattle.promises.specs.Screens.{ScreenCalls};
ghost use Rattle.promises.specs.Settled.{Settled};
ghost use Rattle.promises.specs.SettledAnswers.{SettledAnswers};
ghost use Rattle.promises.specs.VendorCases.{VendorCases};
ghost use Rattle.promises.specs.WiringCases.{WiringCases};
ghost use Rattle.promises.specs.Wished.{WishPlanned};
ghost use Rattle.promises.specs.Vendors.{Vendors};

/// Document 01, "Marked cases, proved together as one table".
pub fn marked_cases()
    ensures { MarkedCases }
{}

/// Demand 1: a refusal has its number, a count of zero, and every lent byte as it was.
pub fn demand_1()
    ensures { Demand1 }
{}

/// The same of the preview, a colour meter's matrix, a pipe and a vendor's list.
pub fn other_calls()
    ensures { OtherCalls }
{}

/// The same of a screen's EDID and wishes.
pub fn screen_calls()
    ensures { ScreenCalls }
{
    edid::overview_rule();
    edid::choices();
}

/// Document 01, "What each entry point owes": each promise allows its outcome, and no other.
pub fn settled()
    ensures { Settled }
{}

/// The same of the answers themselves: what they are told as in numbers leaves nothing of them open.
pub fn settled_answers()
    ensures { SettledAnswers }
{
    refusals::told_apart();
}

/// Demand 2: whatever is asked, whatever image and buffer are lent.
pub fn demand_2()
    ensures { (input buffer : List ℕ) (s : Chip) → Demand2 input buffer s }
{}

/// The finished fields of demand 2 leave out no named bit: those of each register are together its named bits.
pub fn named_fields()
    ensures { AllNamed }
{}

/// "accepted on some image": what decoding asks of a request, which no image decides.
pub fn on_some_image()
    ensures { (r : Request) → OnSomeImage r }
{}

/// An image that decodes, field by field.
pub fn field_by_field()
    ensures { (image : List ℕ) → FieldByField image }
{}

/// Demand 3: whatever request is accepted, whatever the chip's two buffers hold, whether a matrix change waits or not, wherever Vsyncs come,
/// and wherever the run is cut.
pub fn demand_3()
    ensures { EveryCut }
{}

/// The same in what the calls answer over the lent slices.
pub fn said()
    ensures { Said }
{}

/// Document 02, request 09: "always made right".
pub fn always_right()
    ensures { MadeRightAgain }
{}

/// Document 02, request 11: what two readers find in the packet that is then in use.
pub fn two_readers()
    ensures { Readers }
{}

/// Document 02, request 10: sound that does not fit is refused whatever is lent, and more of it too.
pub fn sound_fits()
    ensures { Fitting }
{
    request::never_lifted();
}

/// Document 02, request 07: what a meter's matrix is to a request and to the preview.
pub fn from_meter()
    ensures { (numbers : List Float) (buffer : List ℕ) → FromMeter numbers buffer }
{}

/// Document 02, request 08: what an answer that a pipe gives is to planning, and to the small program's line.
pub fn through_pipe()
    ensures { (parts : List (List ℕ)) → ThroughPipe parts }
{}

/// Document 02, request 12: what a wish that fits is to planning.
pub fn wish_planned()
    ensures { (edid input wishes : List ℕ) → WishPlanned edid input wishes }
{
    edid::choices();
}

/// Document 02, request 03: our own lists pass, and what a vendor's list that passes gives.
pub fn vendors_lists()
    ensures { Vendors }
{}

/// Document 02, request 02, in bare numbers.
pub fn wiring_cases()
    ensures { WiringCases }
{}

/// Lists that a vendor might bring, in bare numbers.
pub fn vendor_cases()
    ensures { VendorCases }
{}

/// "Take an accepted request": demands 2 and 3 are not empty.
pub fn worked_example()
    ensures { Example }
{}

/// In bare numbers: for each byte of a request, whatever else is asked, what is answered for each of its values.
pub fn each_byte()
    ensures { EachByte }
{}

/// In bare numbers: the refusals of each call, N and CTS, the preview, the lengths of what is lent, two whole lists, where each byte lands.
pub fn in_numbers()
    ensures { InNumbers }
{}

/// What of an image planning, decoding and the reading of a vendor's list look at: a host need read nothing else.
pub fn looked_at()
    ensures { Looked }
{
    decode::exactly_when();
    decode::bit_by_bit();
}
