// Counters that stop at a million, and the parts of a line of the report.
use std::io;

// One more.
pub(crate) fn more(n: u64) -> u64 {
    if n < 1_000_000 { n + 1 } else { n }
}

// One more if the case went wrong.
pub(crate) fn more_unless(good: bool, n: u64) -> u64 {
    if good { n } else { more(n) }
}

// The one number or the other.
pub(crate) fn either(first: bool, a: u64, b: u64) -> u64 {
    if first { a } else { b }
}

pub(crate) fn name(rt: &impl Print, text: &str) -> io::Result<()> {
    print!(rt; "{text}")
}

pub(crate) fn number(rt: &impl Print, n: u64) -> io::Result<()> {
    print!(rt; ",{n}")
}

pub(crate) fn end(rt: &impl Print) -> io::Result<()> {
    println!(rt;)
}
