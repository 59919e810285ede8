// A walk along the members.
ghost use Rattle.std.specs.Prelude.{◌-◌, length};
ghost use Rattle.std.specs.Iterator.{at_most};
ghost use Rattle.lateness.specs.Members.{tasks_in};
ghost use Rattle.lateness.specs.Walk.{NextMember, FirstFrom};

use crate::members::Members;
use tasks::TimedTask;

// A member and its place in the case.
#[derive(Clone, Copy)]
pub struct Member {
    pub place: usize,
    pub timed: TimedTask,
}

// The members from a place on, in order of place.
#[derive(Clone, Copy)]
pub struct Walk<'a> {
    pub members: Members<'a>,
    pub place: usize,
}

impl Iterator for Walk<'_> {
    type Item = Member;

    ghost next_gives = { NextMember };

    ghost remaining = { λ walk. at_most (length (tasks_in walk.members) - walk.place) };

    fn next(&mut self) -> Option<Member> {
        let member = self.members.first_from(self.place)?;
        self.place = member.place + 1;
        Some(member)
    }
}

impl Members<'_> {
    // The first member from a place on.
    fn first_from(&self, from: usize) -> Option<Member>
        ensures { FirstFrom self.now from result }
    {
        (from..self.places()).find_map(|place| {
            let timed = self.task(place)?;
            Some(Member { place, timed })
        })
    }
}
