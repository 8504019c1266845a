// The laws of reading back: each function states one, and does nothing; the lemma that its attribute names is the proof.
ghost use Rattle.warehouse.specs.Faithful.{ReadsBack, WithoutBands};
ghost use Rattle.warehouse.specs.Laws.{SplitGreedy, SplitFew, HalvedExactly, OneMean, ExactAmounts};

#[tactic(auto, using(crate::proofs::Splits::split_greedy))]
pub fn split_greedy_stands()
    ensures { SplitGreedy }
{}

#[tactic(auto, using(crate::proofs::Splits::split_few))]
pub fn split_few_stands()
    ensures { SplitFew }
{}

#[tactic(auto, using(crate::proofs::Splits::halved_exactly))]
pub fn halved_exactly_stands()
    ensures { HalvedExactly }
{}

pub fn one_mean_stands()
    ensures { OneMean }
{}

#[tactic(auto, using(crate::proofs::Halving::exact_amounts))]
pub fn exact_amounts_stands()
    ensures { ExactAmounts }
{}

#[tactic(auto, using(crate::proofs::Faithful::reads_back))]
pub fn reads_back_stands()
    ensures { ReadsBack }
{}

#[tactic(auto, using(crate::proofs::Faithful::without_bands))]
pub fn without_bands_stands()
    ensures { WithoutBands }
{}
