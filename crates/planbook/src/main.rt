// The program of the plan book: reads a script of calls from standard input, one a line, and answers each on standard output.
#![tactic(auto)]

mod answer;
mod call;
mod desk;
mod failure;
mod measure;
mod pile;
mod reading;

use desk::Desk;
use failure::{Failure, tell_fault, tell_refusal};
use judges::Judge;
use measure::Measure;
use pile::open;
use std::io;
use std::io::{BufRead, BufReader};

// Writes what the line with this number is answered.
fn reply<J: Judge, M: Measure<J>>(
    rt: &HostRuntime,
    desk: &mut Desk<'_, J, M>,
    number: u64,
    line: &[u8],
) -> io::Result<()> {
    match desk.respond(line) {
        Ok(Some(answer)) => println!(rt; "{answer}"),
        Ok(None) => Ok(()),
        Err(Failure::Refused(refusal)) => tell_refusal(rt, refusal),
        Err(Failure::Faulty(fault)) => tell_fault(rt, fault),
        Err(fault) => println!(rt; "error line {number}: {fault}"),
    }
}

// Reads the script to its end, and answers each line before the next is read.
pub fn run<J: Judge + Drop, M: Measure<J>>(rt: &HostRuntime, judge: J) -> io::Result<()> {
    let mut script = BufReader::new(rt.alloc(), rt.stdin())?;
    let mut line = Vec::new(rt.alloc());
    let mut desk: Desk<'_, J, M> = Desk::open(rt, judge);
    // A count here: it is the number of the line itself, and a reader need not end.
    for number in 1..u64::MAX {
        line.clear();
        match script.read_until(b'\n', &mut line) {
            Ok(0) => break,
            Ok(_) => reply(rt, &mut desk, number, line.as_slice())?,
            Err(_) => return println!(rt; "error line {number}: the script cannot be read"),
        }
    }
    Ok(())
}

// The exit status is 0 in every case, also where no memory is left to read the script with: what there is to say
// stands on standard output.
fn main(rt: HostRuntime) {
    let _ = open(&rt);
}
