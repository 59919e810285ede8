// A task to be judged below others.
ghost use Rattle.std.specs.Prelude.{◌≡◌, not, ◌&&◌, ◌||◌, ◌==◌};
ghost use Rattle.tasks.specs.Places.{has};

use crate::case::Case;
use crate::places::Places;

// The task at a place of a case, below the tasks at the places above it. The place itself counts as not above; a place
// without a task may be among them, and has nothing to bring.
#[derive(Clone, Copy)]
pub struct Judged<'a> {
    pub case: &'a Case,
    pub place: usize,
    pub above: &'a Places,
}

impl Judged<'_> {
    // Whether a place counts as above the judged one.
    pub fn is_above(&self, place: usize) -> bool
        ensures { result ≡ (not (place == self.now.place) && has self.now.above.now place) }
    {
        place != self.place && self.above.contains(place)
    }

    // Whether a place is the judged one, or counts as above it.
    pub fn is_member(&self, place: usize) -> bool
        ensures { result ≡ (place == self.now.place || has self.now.above.now place) }
    {
        place == self.place || self.above.contains(place)
    }
}

impl Case {
    // A place of the case, to be judged below others.
    pub fn judged<'a>(&'a self, place: usize, above: &'a Places) -> Judged<'a>
        ensures case { result.case.now ≡ self.now }
        ensures place { result.place ≡ place }
        ensures above { result.above.now ≡ above.now }
    {
        Judged {
            case: self,
            place,
            above,
        }
    }
}
