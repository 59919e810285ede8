ghost use Rattle.std.specs.Prelude.{◌≡◌, ◌≤◌, [], ◌∷◌, ◌++◌, length, if◌then◌else◌, Some, None, OnOk, OnErr, nat_lt};
ghost use Rattle.std.specs.Result.{result_err};
ghost use Rattle.refusals.specs.Answers.{answer};
ghost use Rattle.periods.specs.Multiples.{most_tasks, longest_common_period, common_period, period_refusal, LeastCommonMultiple, Proper};
ghost use Rattle.periods.specs.Rows.{periods_of, not_taken};

use crate::row::{NotTaken, Periods};
use crate::{LONGEST_COMMON_PERIOD, LONGEST_PERIOD, lcm};
use refusals::Refusal;
use short_list::ShortList;

impl Periods {
    pub fn new() -> Periods
        ensures { periods_of result ≡ [] }
    {
        Periods {
            at: ShortList::new(),
        }
    }

    // One more period, in the last place.
    pub fn add(&mut self, period: u16) -> Result<(), NotTaken>
        ensures why { result_err result ≡ not_taken (periods_of self.old) period }
        ensures ok { OnOk result (periods_of self.new ≡ periods_of self.old ++ period ∷ []) }
        ensures err { OnErr result (self.new ≡ self.old) }
    {
        if period == 0 || period > LONGEST_PERIOD {
            return Err(NotTaken::Improper);
        }
        self.at.push(period).map_err(|_| NotTaken::NoPlace)
    }

    // The least common multiple of the periods.
    pub fn common_period(&self) -> Result<u32, Refusal>
        ensures value { result ≡ answer (period_refusal (periods_of self.now)) (common_period (periods_of self.now)) }
        ensures least { LeastCommonMultiple (periods_of self.now) (common_period (periods_of self.now)) }
    {
        if self.at.is_empty() {
            return Err(Refusal::NoTask);
        }
        common_multiple(&self.at).ok_or(Refusal::LongCommonPeriod)
    }

    // The periods, in their places.
    pub(crate) fn as_slice(&self) -> &[u16]
        ensures value { result.now ≡ periods_of self.now }
        ensures proper { Proper result.now }
        ensures few { length result.now ≤ most_tasks }
    {
        self.at.as_slice()
    }
}

// The least common multiple of some periods, unless it is too long. It only grows from period to period.
fn common_multiple(periods: &[u16]) -> Option<u32>
    requires { Proper periods.now }
    ensures { result ≡ (if nat_lt longest_common_period (common_period periods.now) then None else Some (common_period periods.now)) }
{
    let mut common = 1;
    for period in periods {
        common = lcm(common, u32::from(*period));
        if common > LONGEST_COMMON_PERIOD {
            return None;
        }
    }
    Some(common)
}
