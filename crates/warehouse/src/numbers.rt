// The numbers of refusals, and how a refusal passes up.
ghost use Rattle.std.specs.Prelude.{◌≡◌};
ghost use Rattle.warehouse.specs.Faults.{fault_number, fault_alone, Repeats, refused};
ghost use Rattle.warehouse.specs.declared.fault.Fault.TheVariants.{Cell};

use crate::fault::{Asked, Fault, Refusal};
use store::fault::CellFault;

impl Fault {
    // The number of the rules.
    pub fn number(self) -> u8
        ensures { result ≡ fault_number self }
    {
        match self {
            Fault::Cell(fault) => fault.number(),
            Fault::Level => 13,
            Fault::Value(_) => 14,
            Fault::Buffer => 15,
            Fault::Range => 16,
            Fault::Interval => 17,
            Fault::Size => 18,
            Fault::Domain => 21,
            Fault::Large(_) => 22,
            Fault::Full => 23,
            Fault::Top => 24,
            Fault::Short => 25,
            Fault::Over => 26,
            Fault::Torn(_) => 27,
            Fault::Dirty(_) => 28,
            Fault::Fine(_) => 29,
        }
    }
}

impl From<CellFault> for Fault {
    ghost from_gives = { λ e r. r ≡ Cell e };

    fn from(refused: CellFault) -> Fault {
        Fault::Cell(refused)
    }
}

impl From<(Fault, Asked)> for Refusal {
    ghost from_gives = { λ e r. r ≡ record { fault = e.0; asked = e.1 } };

    fn from((fault, asked): (Fault, Asked)) -> Refusal {
        Refusal { fault, asked }
    }
}

// A call's answer, whose refusal repeats what was asked for.
pub fn answered<T>(answer: Result<T, Fault>, asked: Asked) -> Result<T, Refusal>
    ensures is { result ≡ refused asked answer }
    ensures alone { fault_alone result ≡ answer }
    ensures repeats { Repeats result asked }
{
    Ok(answer.map_err(|fault| (fault, asked))?)
}
