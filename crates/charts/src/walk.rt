// Walks that give entries, and the list that they fill.
ghost use Rattle.std.specs.Prelude.{◌≡◌, ◌^◌, ◌<◌, Option, List as Sequence};
ghost use Rattle.std.specs.Iterator.{IsFinite, size};
ghost use Rattle.charts.specs.Listing.{Lists};
ghost use Rattle.charts.specs.Walks.{Gives};

use entries::List;
use refusals::Refusal;

// A walk along a timeline: an iterator that says which entries lie ahead.
pub trait Walk<E>: Iterator<Item = E> {
    ghost ahead: { Self → Sequence E → Type 0 };

    ghost goes: { (w : Self) → Self.can_next w };

    ghost gives: { (w : Self) (r : Option E) (w' : Self) → Self.next_gives w r w' → Gives ahead w r w' };

    ghost ends: { (w : Self) → IsFinite (Self.remaining w) };

    ghost few: { (w : Self) → size (Self.remaining w) < 2 ^ 32 };
}

// Fills a list with what lies ahead of a walk: counts it first, so that a refusal changes nothing.
pub fn fill<E: Copy, W: Walk<E> + Copy>(walk: W, list: &mut List<E>) -> Result<(), Refusal>
    ensures { Lists (W.Walk.ahead walk) list.old result list.new }
{
    list.clear_for(walk.count())?;
    for entry in walk {
        list.add(entry).unwrap();
    }
    Ok(())
}
