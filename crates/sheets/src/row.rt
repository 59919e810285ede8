// A row of a sheet.
ghost use Rattle.std.specs.Prelude.{◌≡◌};

use tasks::{Figures, HasFigures};

// A task, and its part in the plan: the tick of its first request, and its level.
#[derive(Clone, Copy, PartialEq, Eq, Debug, Default)]
pub struct SheetRow {
    pub id: u8,
    pub figures: Figures,
    pub start: u16,
    pub level: u8,
}

impl SheetRow {
    pub fn new(id: u8, figures: Figures, start: u16, level: u8) -> SheetRow
        ensures id { result.id ≡ id }
        ensures figures { result.figures ≡ figures }
        ensures start { result.start ≡ start }
        ensures level { result.level ≡ level }
    {
        SheetRow {
            id,
            figures,
            start,
            level,
        }
    }
}

impl HasFigures for SheetRow {
    ghost has = { λ row. row.figures };

    fn figures(&self) -> Figures {
        self.figures
    }
}
