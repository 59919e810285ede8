// The late requests of a sheet, one after the other.
ghost use Rattle.std.specs.Prelude.{◌≡◌, ◌+◌, ◌-◌, ◌<◌, ◌≤◌, length};
ghost use Rattle.std.specs.Iterator.{at_most};
ghost use Rattle.tasks.specs.Figures.{Fair};
ghost use Rattle.sheets.specs.Sheets.{rows_of};
ghost use Rattle.charts.specs.Dues.{DueAt, LateAt, LateAhead, NextHere, Skipped, places_left};
ghost use Rattle.charts.specs.Few.{deadlines_few};
ghost use Rattle.charts.specs.Walks.{Gives};

use crate::deadlines::Deadlines;
use crate::plan::horizon;
use crate::running::Running;
use crate::walk::Walk;
use entries::LateRequest;
use sheets::{Sheet, SheetRow};

impl<'s> Deadlines<'s> {
    // All deadlines of a sheet up to its horizon.
    pub fn of(sheet: &'s Sheet) -> Deadlines<'s>
        ensures sheet { result.running.sheet.now ≡ sheet.now }
        ensures tick { result.running.processor.tick ≡ 0 }
        ensures place { result.place ≡ 0 }
    {
        Deadlines {
            running: Running::of(sheet),
            place: 0,
            last: horizon(sheet),
        }
    }

    // The late request of a place whose deadline is this tick: something is owed, and no later request has come.
    fn late_at(&self, place: usize) -> Option<LateRequest>
        requires { place < length (rows_of self.now.running.sheet.now) }
        ensures { LateAt (rows_of self.now.running.sheet.now) place self.now.running.processor.tick result }
    {
        let row = self.running.rows()[place];
        let deadline = self.running.tick();
        let request = request_due(row, deadline)?;
        if self.running.left(row) == 0 {
            return None;
        }
        Some(LateRequest {
            id: row.id,
            request,
            deadline,
        })
    }

    // The next late request whose deadline is this tick.
    fn next_here(&mut self) -> Option<LateRequest>
        requires { self.old.running.processor.tick ≤ self.old.last }
        ensures { NextHere self.old result self.new }
    {
        // Counted by hand: the place is kept from one call to the next, and where none is late it ends behind the last row,
        // which `next_tick` asks for. A `find_map` over the places would give pairs of place and request, taken apart twice.
        while self.place < self.running.rows().len() {
            let late = self.late_at(self.place);
            self.place += 1;
            if late.is_some() {
                return late;
            }
        }
        None
    }

    // Goes on to the next tick, from the last place of this one.
    fn next_tick(&mut self)
        requires near { self.old.running.processor.tick ≤ self.old.last }
        requires passed { length (rows_of self.old.running.sheet.now) ≤ self.old.place }
        ensures skipped { Skipped self.old self.new }
        ensures tick { self.new.running.processor.tick ≡ self.old.running.processor.tick + 1 }
        ensures last { self.new.last ≡ self.old.last }
    {
        let next = self.running.tick() + 1;
        self.running.run_to(next);
        self.place = 0;
    }
}

// The tick of the request of a row that is due at a tick.
fn request_due(row: SheetRow, tick: u32) -> Option<u32>
    requires { Fair row.figures }
    ensures { DueAt row tick result }
{
    let deadline = u32::from(row.figures.deadline);
    let period = u32::from(row.figures.period);
    let first = u32::from(row.start) + deadline;
    if tick < first || (tick - first) % period != 0 {
        return None;
    }
    Some(tick - deadline)
}

impl Iterator for Deadlines<'_> {
    type Item = LateRequest;

    ghost next_gives = { Gives LateAhead };

    ghost remaining = { λ w. at_most (places_left w) };

    fn next(&mut self) -> Option<LateRequest> {
        while self.running.tick() <= self.last {
            if let Some(late) = self.next_here() {
                return Some(late);
            }
            self.next_tick();
        }
        None
    }
}

impl Walk<LateRequest> for Deadlines<'_> {
    ghost ahead = { LateAhead };

    ghost goes = { λ w. tt };

    ghost gives = { λ w r w' gave. gave };

    ghost ends = { λ w. tt };

    ghost few = { deadlines_few };
}
