// The judge that the command line names: screens and margins over the tick judge or the worst-start judge.
use crate::failure::tell_refusal;
use crate::measure::{Measures, OnlyRules};
use crate::reading::number;
use crate::run;
use judges::{Judge, Margin, MeasuringJudge, Screen, Tick, WorstStart};
use std::{env, io};

// What stands over a judge.
#[derive(Clone, Copy)]
enum Over {
    Screen,
    Margin(u16),
}

// What is done with a judge, whichever it is, and with one that measures.
trait Use {
    fn with<J: Judge + Drop>(self, rt: &HostRuntime, judge: J) -> io::Result<()>;

    fn with_measuring<J: MeasuringJudge + Drop>(self, rt: &HostRuntime, judge: J) -> io::Result<()>;
}

// Runs the script on standard input over the judge.
#[derive(Drop)]
struct Run;

impl Use for Run {
    fn with<J: Judge + Drop>(self, rt: &HostRuntime, judge: J) -> io::Result<()> {
        run::<J, OnlyRules>(rt, judge)
    }

    fn with_measuring<J: MeasuringJudge + Drop>(
        self,
        rt: &HostRuntime,
        judge: J,
    ) -> io::Result<()> {
        run::<J, Measures>(rt, judge)
    }
}

// Puts over the judge what stands over it, if anything does, and goes on from there.
#[derive(Drop)]
struct Put<U> {
    over: Option<Over>,
    then: U,
}

impl<U: Use + Drop> Use for Put<U> {
    fn with<J: Judge + Drop>(self, rt: &HostRuntime, judge: J) -> io::Result<()> {
        let Put { over, then } = self;
        match over {
            None => then.with(rt, judge),
            Some(Over::Screen) => then.with(rt, Screen { judge }),
            Some(Over::Margin(percent)) => match Margin::new(percent, judge) {
                Ok(judge) => then.with(rt, judge),
                Err(refusal) => tell_refusal(rt, refusal),
            },
        }
    }

    // A margin measures where the judge below it does, and a screen never does.
    fn with_measuring<J: MeasuringJudge + Drop>(
        self,
        rt: &HostRuntime,
        judge: J,
    ) -> io::Result<()> {
        let Put { over, then } = self;
        match over {
            None => then.with_measuring(rt, judge),
            Some(Over::Screen) => then.with(rt, Screen { judge }),
            Some(Over::Margin(percent)) => match Margin::new(percent, judge) {
                Ok(judge) => then.with_measuring(rt, judge),
                Err(refusal) => tell_refusal(rt, refusal),
            },
        }
    }
}

// Runs the script on standard input over the judge of the command line; without words that is `tick`.
pub fn open(rt: &HostRuntime) -> io::Result<()> {
    let given: Vec<String> = env::args(rt)?.skip(1).collect(rt.alloc())?;
    let words: Vec<&[u8]> = given
        .iter()
        .map(|word| word.as_bytes())
        .collect(rt.alloc())?;
    if words.is_empty() {
        return run::<Tick, Measures>(rt, Tick);
    }
    let (outer, words) = first_over(words.as_slice());
    let (inner, words) = first_over(words);
    let pile = Put {
        over: inner,
        then: Put {
            over: outer,
            then: Run,
        },
    };
    match words {
        [b"tick"] => pile.with_measuring(rt, Tick),
        [b"worst-start"] => pile.with_measuring(rt, WorstStart),
        _ => println!(rt;
            "error judge: tick, worst-start, screen JUDGE or margin M JUDGE, two over another at most"
        ),
    }
}

// What the first words put over the judge of the others.
fn first_over<'a>(words: &'a [&'a [u8]]) -> (Option<Over>, &'a [&'a [u8]]) {
    match words {
        [b"screen", rest @ ..] => (Some(Over::Screen), rest),
        [b"margin", percent, rest @ ..] => match number(percent) {
            Some(percent) => (Some(Over::Margin(percent)), rest),
            None => (None, words),
        },
        _ => (None, words),
    }
}
