ghost use Rattle.std.specs.Prelude.{◌≡◌, ◌≤◌};
ghost use Rattle.periods.specs.Listed.{most_choices, number_of_choices, ChoicesTimesPeriod, OneListedChoice, RanksListTheChoices};
ghost use Rattle.periods.specs.Lists.{listed_periods, starts_of, ListsChoices};
ghost use Rattle.periods.specs.Rows.{periods_of};

use crate::list::Choices;
use crate::row::Periods;
use crate::{MOST_CHOICES, MOST_TASKS, gcd, lcm};
use refusals::Refusal;
use short_list::ShortList;

impl Periods {
    // The list of the choices of starts: every other choice is related to one of these.
    pub fn choices(&self) -> Result<Choices, Refusal>
        ensures value { ListsChoices (periods_of self.now) result }
        ensures one { OneListedChoice (periods_of self.now) }
        ensures number { ChoicesTimesPeriod (periods_of self.now) }
    {
        self.common_period()?;
        let mut radices = ShortList::new();
        let mut total = 1;
        let mut common = 1;
        for period in self.as_slice() {
            let period = u32::from(*period);
            let shared = gcd(period, common);
            total *= shared;
            if total > MOST_CHOICES {
                return Err(Refusal::TooManyChoices);
            }
            radices.push(shared as u16).unwrap();
            common = lcm(common, period);
        }
        Ok(Choices {
            periods: *self,
            radices,
            total,
        })
    }
}

impl Choices {
    pub fn count(&self) -> u32
        ensures value { result ≡ number_of_choices (listed_periods self.now) }
        ensures few { result ≤ most_choices }
    {
        self.total
    }

    // The start of each place in the choice of a rank, counted from 0; 0 in the places without a task. An array, which is whole
    // with no length beside it: a list would tell the number of tasks once more, which who asks for starts has.
    pub fn starts(&self, rank: u32) -> Option<[u16; MOST_TASKS]>
        ensures value { result ≡ starts_of (listed_periods self.now) rank }
        ensures ranks { RanksListTheChoices (listed_periods self.now) }
    {
        if rank >= self.total {
            return None;
        }
        let mut starts = [0; MOST_TASKS];
        let mut rest = rank;
        let mut weight = self.total;
        // By place: nothing is known in a proof of what a zip with `starts.iter_mut()` wrote.
        for (place, radix) in self.radices.iter().enumerate() {
            weight /= u32::from(*radix);
            starts[place] = (rest / weight) as u16;
            rest %= weight;
        }
        Some(starts)
    }
}
