ghost use Rattle.std.specs.Prelude.{◌≡◌, ◌≤◌};
ghost use Rattle.periods.specs.Listed.{most_choices, number_of_choices, radices as radices_of};
ghost use Rattle.periods.specs.Rows.{periods_of};
ghost use Rattle.short_list.specs.Items.{items_of};

use crate::MOST_TASKS;
use crate::row::Periods;
use short_list::ShortList;

mod calls;

// The listed choices of starts for some periods, by the radix of each place. No call reads the periods: they are what the
// clauses name, and a struct has no field for specs alone that holds a value.
#[derive(Clone, Copy)]
pub struct Choices {
    periods: Periods,
    radices: ShortList<u16, MOST_TASKS>,
    total: u32,
    ghost exact: { items_of radices ≡ radices_of 1 (periods_of periods) },
    ghost counted: { total ≡ number_of_choices (periods_of periods) },
    ghost few: { total ≤ most_choices },
}
