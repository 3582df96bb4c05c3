// Outside cases for the crate interval: each answer is compared with one that is worked out in another way.
// A line for each group: its name, how many cases there are, how many differ, and counts of the crate's answers.
#![tactic(auto)]

mod fields;
mod labels;
mod minutes;
mod overlaps;
mod report;
mod tuples;

use std::io;

fn main(rt: HostRuntime) -> io::Result<()> {
    overlaps::run(&rt)?;
    labels::run(&rt)?;
    labels::run_ends(&rt)?;
    labels::run_places(&rt)?;
    fields::run_bytes(&rt)?;
    fields::run_twos(&rt)?;
    fields::run_lengths(&rt)?;
    tuples::run(&rt)?;
    minutes::run(&rt)?;
    minutes::run_rows(&rt)
}
