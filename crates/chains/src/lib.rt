// Many cuts, many hands (document 02, request 14): theorems, no code.
#![tactic(auto)]

ghost use Rattle.chip.specs.declared.Chip.{Chip};
ghost use Rattle.chains.specs.Below.{Below};
ghost use Rattle.chains.specs.Theorems.{AnyChain, EveryPoint, LastFinished, LastList, LastAlone};

// What the links rest on: the promises of the crates below.
fn below()
    ensures { Below }
{
    chip::turn();
    decode::at_most_one();
    cut::any_run();
    cut::fair_run();
    cut::mended_run();
    promises::demand_3();
    promises::vendors_lists();
}

/// "any chain": what may be a link.
pub fn any_chain()
    ensures { (s : Chip) → AnyChain s }
{
    promises::demand_3();
}

/// "At every point": where a chain ends, and inside every link, after every write and every Vsync.
pub fn every_point()
    ensures { EveryPoint }
{
    below();
    views::entered();
    views::entered_vsync();
    vendor::vetted();
    plan::on_another_image();
}

/// "each cut at any place or finished, and the last one finished".
pub fn last_finished()
    ensures { LastFinished }
{
    below();
    views::entered();
    views::entered_vsync();
    promises::demand_2();
    promises::said();
    plan::on_another_image();
}

/// The last link a vendor's list.
pub fn last_list()
    ensures { LastList }
{
    below();
}

/// "depend on the last request alone": two chains from two beginnings, with the same last request.
pub fn last_alone()
    ensures { LastAlone }
{
    promises::demand_3();
    writes::touched();
    registers::rule();
}
