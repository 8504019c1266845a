// What holds of every command of a feed: each function states it and does nothing; the lemma that its attribute names, or its answer, proves it.
ghost use Rattle.feedlaw.specs.Law.{ObeyedRight, AllTold};

#[tactic(auto, using(crate::proofs::Obeying::obeyed_right))]
pub fn obeyed_stands()
    ensures { ObeyedRight }
{}

pub fn told_stands()
    ensures { AllTold }
{}
