// Why the bytes of a sheet are not inspected.
ghost use Rattle.std.specs.Prelude.{◌≡◌};
ghost use Rattle.charts.specs.Inspections.{inspect_number};
ghost use Rattle.charts.specs.declared.inspection.InspectRefusal.TheVariants.{FaultySheet, RefusedList};

use refusals::Refusal;
use sheets::SheetFault;

// The fault of the sheet, or the refusal of the list.
#[derive(Clone, Copy, PartialEq, Eq, Debug)]
pub enum InspectRefusal {
    FaultySheet(SheetFault),
    RefusedList(Refusal),
}

impl InspectRefusal {
    pub fn number(self) -> u8
        ensures { result ≡ inspect_number self }
    {
        match self {
            InspectRefusal::FaultySheet(fault) => fault.number(),
            InspectRefusal::RefusedList(refusal) => refusal.number(),
        }
    }
}

// By hand, here and below: a clause names what each makes, and a derived one has no contract.
impl From<SheetFault> for InspectRefusal {
    ghost from_gives = { λ cause r. r ≡ FaultySheet cause };

    fn from(cause: SheetFault) -> InspectRefusal {
        InspectRefusal::FaultySheet(cause)
    }
}

impl From<Refusal> for InspectRefusal {
    ghost from_gives = { λ cause r. r ≡ RefusedList cause };

    fn from(cause: Refusal) -> InspectRefusal {
        InspectRefusal::RefusedList(cause)
    }
}
