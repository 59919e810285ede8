// The bars of a window, one after the other.
ghost use Rattle.std.specs.Prelude.{◌≡◌, ◌-◌, ◌≤◌};
ghost use Rattle.std.specs.Iterator.{at_most};
ghost use Rattle.runner.specs.Levels.{last_tick};
ghost use Rattle.charts.specs.Few.{bars_few};
ghost use Rattle.charts.specs.Walks.{Gives};
ghost use Rattle.charts.specs.Windows.{ChartAhead, NextRun, MoreOf};

use crate::bars::Bars;
use crate::running::{Run, Running};
use crate::walk::Walk;
use entries::Bar;
use sheets::Sheet;
use std::ops::Range;

impl<'s> Bars<'s> {
    // The bars of a window.
    pub fn over(sheet: &'s Sheet, window: Range<u32>) -> Bars<'s>
        requires order { window.start ≤ window.end }
        requires near { window.end ≤ last_tick }
        ensures sheet { result.running.sheet.now ≡ sheet.now }
        ensures from { result.running.processor.tick ≡ window.start }
        ensures to { result.to ≡ window.end }
    {
        let mut running = Running::of(sheet);
        running.run_to(window.start);
        Bars {
            running,
            to: window.end,
        }
    }

    // The next ticks of one id.
    fn next_run(&mut self) -> Option<Run>
        ensures { NextRun self.old result self.new }
    {
        self.running.advance(self.to)
    }

    // How many of the next ticks show this id, if any; else the walk stays. A copy looks ahead: `Peekable` is not `Copy`,
    // and a list is filled from a copy of the walk.
    fn more_of(&mut self, id: u8) -> Option<u32>
        ensures { MoreOf self.old id result self.new }
    {
        let mut ahead = *self;
        let run = ahead.next_run().filter(|run| run.id == id)?;
        *self = ahead;
        Some(run.length)
    }
}

impl Iterator for Bars<'_> {
    type Item = Bar;

    ghost next_gives = { Gives ChartAhead };

    ghost remaining = { λ w. at_most (w.to - w.running.processor.tick) };

    fn next(&mut self) -> Option<Bar> {
        let first = self.running.tick();
        let run = self.next_run()?;
        let mut length = run.length;
        while let Some(more) = self.more_of(run.id) {
            length += more;
        }
        Some(Bar {
            first,
            length,
            id: run.id,
        })
    }
}

impl Walk<Bar> for Bars<'_> {
    ghost ahead = { ChartAhead };

    ghost goes = { λ w. tt };

    ghost gives = { λ w r w' gave. gave };

    ghost ends = { λ w. tt };

    ghost few = { bars_few };
}
