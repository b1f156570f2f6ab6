// Demand 3: theorems, no code.
#![tactic(auto)]

ghost use Rattle.std.specs.Prelude.{◌≡◌, true, List, ℕ, ◌<◌, length};
ghost use Rattle.chip.specs.declared.Chip.{Chip};
ghost use Rattle.writes.specs.List.{full_list, write_list, ready};
ghost use Rattle.cut.specs.Run.{Event, event, happens, cut, writes_of, IsFair, Untouched};
ghost use Rattle.cut.specs.AnyRun.{AnyRun};
ghost use Rattle.cut.specs.Room.{Room};
ghost use Rattle.cut.specs.Retried.{Retried};
ghost use Rattle.cut.specs.Demand.{Demand3};
ghost use Rattle.cut.specs.Mended.{Mended};
ghost use Rattle.cut.specs.Within.{MadeRight, NoLonger};

/// "a chip in a state from which it was accepted, and a cut after any write": whatever is wanted, whatever the two buffers hold, whether a
/// matrix change waits or not, and wherever Vsyncs come.
// Kept, what may not change: the lengths and `ready` stand in each theorem by themselves, for theorems stay word for word.
pub fn any_cut()
    ensures { (want : ℕ → ℕ) (s : Chip) → length s.image ≡ 256 → ready s.image ≡ true
        → Demand3 (write_list want) want s }
{}

/// Document 02, request 04: the list leaves room for its Vsync.
pub fn room_for_vsync()
    ensures { (want : ℕ → ℕ) (s : Chip) → length s.image ≡ 256 → ready s.image ≡ true
        → Room (write_list want s.image) }
{}

/// The same of the list with nothing left out, by which decoding tests.
pub fn full_list()
    ensures { (want : ℕ → ℕ) (s : Chip) → length s.image ≡ 256 → ready s.image ≡ true
        → Demand3 (full_list want) want s }
{}

/// Document 02, request 09, "always made right": a run of the write list, with Vsyncs anywhere, goes through states of a run of the list with
/// nothing left out, and ends as it does.
pub fn made_right()
    ensures { (want : ℕ → ℕ) (s : Chip) → length s.image ≡ 256 → ready s.image ≡ true
        → (es : List Event) → writes_of es ≡ write_list want s.image → MadeRight (full_list want s.image) es s }
{}

/// Planned again where a cut left off, the write list is no longer.
pub fn no_longer()
    ensures { (want : ℕ → ℕ) (s : Chip) → length s.image ≡ 256 → ready s.image ≡ true
        → NoLonger (write_list want) s }
{}

/// A list whose events are fair, whoever made it, leaves what is not its own.
pub fn fair_run()
    ensures { (es : List Event) (s : Chip)
        → ((k : ℕ) → k < length es → IsFair (event es k) (cut es s k)) → Untouched es s }
{}

/// A list of somebody else's, whose events are fair and taken, cut anywhere: a list planned there ends as one planned at its start.
pub fn mended_run()
    ensures { (want : ℕ → ℕ) (es : List Event) (s : Chip) → length s.image ≡ 256 → ready s.image ≡ true
        → ((k : ℕ) → k < length es → IsFair (event es k) (cut es s k))
        → ((k : ℕ) → k < length es → (happens (event es k) (cut es s k)).refusal ≡ 0)
        → Mended (write_list want) es s }
{}

/// A bus that retries: of any list, from any state, as long as none of its events is refused.
pub fn retried_run()
    ensures { (es : List Event) (s : Chip) → length s.image ≡ 256
        → ((k : ℕ) → k < length es → (happens (event es k) (cut es s k)).refusal ≡ 0) → (n : ℕ → ℕ) → Retried n es s }
{}

/// A run of any list, whoever made it, wherever Vsyncs come.
pub fn any_run()
    ensures { (es : List Event) (s : Chip) → AnyRun es s }
{}
