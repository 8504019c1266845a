// The laws of the tiled Haar cells: each function states one, and does nothing; its proof is what is asked for.
ghost use Rattle.haar.specs.Laws.{Numbered, Determined, Computed, Linear, Halved, ShiftSplit, Grows, Counted, Loads, Reads, Shifts, RunSound};
ghost use Rattle.haar.specs.Figures.{Figures};

pub fn numbered_stands()
    ensures { Numbered }
{}

pub fn determined_stands()
    ensures { Determined }
{}

#[tactic(auto, using(crate::proofs::Computing::cells_are))]
pub fn computed_stands()
    ensures { Computed }
{}

#[tactic(auto, using(crate::proofs::Haar::haar_plus))]
pub fn linear_stands()
    ensures { Linear }
{}

#[tactic(auto, using(crate::proofs::Sums::both_halves))]
pub fn halved_stands()
    ensures { Halved }
{}

#[tactic(auto, using(crate::proofs::Split::splits))]
pub fn shift_split_stands()
    ensures { ShiftSplit }
{}

#[tactic(auto, using(crate::proofs::Growth::growth))]
pub fn grows_stands()
    ensures { Grows }
{}

pub fn counted_stands()
    ensures { Counted }
{}

#[tactic(auto, using(crate::proofs::Load::founded, crate::proofs::Load::loaded))]
pub fn loads_stands()
    ensures { Loads }
{}

#[tactic(auto, using(crate::proofs::Load::total_cell, crate::proofs::Read::read_start))]
pub fn reads_stands()
    ensures { Reads }
{}

#[tactic(auto, using(crate::proofs::Load::shifted_D))]
pub fn shifts_stands()
    ensures { Shifts }
{}

#[tactic(auto, using(crate::proofs::Run::sound))]
pub fn run_stands()
    ensures { RunSound }
{}

// The worked figures.
#[tactic(auto, using(crate::proofs::Figures::figures))]
pub fn figures_stand()
    ensures { Figures }
{}
