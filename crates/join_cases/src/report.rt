// The parts of a line of the report.
use std::io;

pub(crate) fn name(rt: &impl Print, text: &str) -> io::Result<()> {
    print!(rt; "{text}")
}

pub(crate) fn first(rt: &impl Print, n: u64) -> io::Result<()> {
    print!(rt; "{n}")
}

pub(crate) fn number(rt: &impl Print, n: u64) -> io::Result<()> {
    print!(rt; ",{n}")
}

pub(crate) fn end(rt: &impl Print) -> io::Result<()> {
    println!(rt;)
}
