// Periods of tasks: their common period, and the list of starts that stands for all starts.
#![tactic(auto)]

ghost use Rattle.std.specs.Prelude.{◌≡◌, ◌≤◌};
ghost use Rattle.periods.specs.Divisors.{gcd as gcd_of, GreatestCommonDivisor};
ghost use Rattle.periods.specs.Multiples.{lcm as lcm_of, longest_period, longest_common_period};

mod list;
mod row;
#[cfg(test)]
mod tests;

pub use list::Choices;
pub use row::{NotTaken, Periods};

// The most tasks on one controller.
pub const MOST_TASKS: usize = 8;

// The most ticks of a period, and of a common period.
pub const LONGEST_PERIOD: u16 = 2_000;

pub const LONGEST_COMMON_PERIOD: u32 = 10_000;

// The most listed choices that a search goes through.
pub const MOST_CHOICES: u32 = 10_000;

// Euclid's greatest common divisor. gcd(0, 0) is 0, which every number divides.
pub fn gcd(a: u32, b: u32) -> u32
    ensures value { result ≡ gcd_of a b }
    ensures greatest { GreatestCommonDivisor a b result }
{
    if b == 0 { a } else { gcd(b, a % b) }
}

// The least common multiple of a common period so far and one period more.
fn lcm(common: u32, period: u32) -> u32
    requires { (1 ≤ common) × ((common ≤ longest_common_period) × (period ≤ longest_period)) }
    ensures { result ≡ lcm_of common period }
{
    common * (period / gcd(common, period))
}
