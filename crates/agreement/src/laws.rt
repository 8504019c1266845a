// The agreement and what makes it whole: each function states one law, and does nothing; its proof is what is asked for.
ghost use Rattle.agreement.specs.Agreement.{AgreementHolds};
ghost use Rattle.agreement.specs.Edges.{EdgesHold};
ghost use Rattle.agreement.specs.Laws.{LawsHold};
ghost use Rattle.agreement.specs.Steps.{StepsHold};
ghost use Rattle.agreement.specs.Worked.{WorkedHolds};

pub fn agreement_stands()
    ensures { AgreementHolds }
{}

#[tactic(auto, using(crate::proofs::Calls::steps))]
pub fn steps_stand()
    ensures { StepsHold }
{}

#[tactic(auto, using(crate::proofs::Worked::worked_holds))]
pub fn worked_stands()
    ensures { WorkedHolds }
{}

#[tactic(auto, using(crate::proofs::Edges::edges))]
pub fn edges_stand()
    ensures { EdgesHold }
{}

#[tactic(auto, using(crate::proofs::Searches::laws))]
pub fn laws_stand()
    ensures { LawsHold }
{}
