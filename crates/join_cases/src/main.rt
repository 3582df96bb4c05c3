// Outside cases for the crates join and requirements: seeded lists of calls on small walls, each answer and every word
// left taken into a digest, which tests/join_cases_expected.py works out in another way. A line for each list: its
// seed, its digest and how many of its calls were accepted; then a line for each number from 0 to 18: how often it was
// answered (13, 15 and 16 by no call).
//
// All functions answer for any words: what would be too large is made small first (total), and a word past the end of a
// slice is 0. So each is proved safe by little more than its loop's bound. Walls and stores go by value, which the
// prover walks faster than lent ones.
#![tactic(auto)]

mod calls;
mod digest;
mod draws;
mod foreseen;
mod meddling;
mod minima;
mod plans;
mod report;
mod stores;
mod sweeps;
mod total;
mod tuples;
mod walls;

use std::io;
use walls::Tally;

const LATE: u64 = 4_972;

// One list.
fn one_list(rt: &impl Print, seed: u64, tally: Tally) -> io::Result<Tally> {
    let end = walls::run(seed, tally);
    report::first(rt, seed)?;
    report::number(rt, end.digest)?;
    report::number(rt, end.accepted)?;
    report::end(rt)?;
    Ok(end.tally)
}

// The lists of the seeds from 351 to 600, and one more, in which a sweep is refused with 10 by the rows of a tuple that
// comes from above and starts at the lane's last minute.
fn all_lists(rt: &impl Print) -> io::Result<Tally> {
    let mut tally = walls::none();
    for seed in 351..=600 {
        tally = one_list(rt, seed, tally)?;
    }
    one_list(rt, LATE, tally)
}

fn numbers(rt: &impl Print, times: &[u64]) -> io::Result<()> {
    for number in 0..19 {
        report::name(rt, "number")?;
        report::number(rt, number)?;
        report::number(rt, total::word(times, number))?;
        report::end(rt)?;
    }
    Ok(())
}

fn main(rt: HostRuntime) -> io::Result<()> {
    let tally = all_lists(&rt)?;
    let times = tally.times;
    numbers(&rt, &times)
}
