// Label fields: every single byte, every two bytes, and rows of the letters Z and z of each length from 0 to 10.
use crate::report;
use std::io;

#[derive(Clone, Copy)]
struct Counts {
    cases: u64,
    wrong: u64,
    accepted: u64,
    refused: u64,
}

// One field more. `wanted` is the number of the label that it is, or 0 if it is none; no label has the number 0.
fn count(n: Counts, wanted: u64, answer: Option<u64>) -> Counts {
    let label = answer.is_some();
    let number = answer.unwrap_or(0);
    Counts {
        cases: report::more(n.cases),
        wrong: report::more_unless((label == (0 < number)) & (number == wanted), n.wrong),
        accepted: report::more_unless(!label, n.accepted),
        refused: report::more_unless(label, n.refused),
    }
}

fn none() -> Counts {
    Counts {
        cases: 0,
        wrong: 0,
        accepted: 0,
        refused: 0,
    }
}

fn line(rt: &impl Print, n: Counts) -> io::Result<()> {
    report::number(rt, n.cases)?;
    report::number(rt, n.wrong)?;
    report::number(rt, n.accepted)?;
    report::number(rt, n.refused)?;
    report::end(rt)
}

// The place of a byte in the alphabet, written both ways, from 1 to 26; 0 for a byte that is not there.
fn place(b: u8) -> u64 {
    let alphabet = *b"AaBbCcDdEeFfGgHhIiJjKkLlMmNnOoPpQqRrSsTtUuVvWwXxYyZz";
    for i in 0..52 {
        if alphabet[i] == b {
            return i as u64 / 2 + 1;
        }
    }
    0
}

fn one_byte(n: Counts, b: u8) -> Counts {
    let field = [b];
    count(n, place(b), label::read_label(&field))
}

fn all_bytes() -> Counts {
    let mut n = none();
    for b in 0..=255 {
        n = one_byte(n, b);
    }
    n
}

// The line bytes: fields of one byte, fields that differ, fields accepted, fields refused.
pub(crate) fn run_bytes(rt: &impl Print) -> io::Result<()> {
    report::name(rt, "bytes")?;
    line(rt, all_bytes())
}

// The number of the label of two letters with these places: the 26 labels of one letter stand before it, and 26 more
// for each earlier first letter. 0 if one of the two is no letter.
fn number_of_two(first: u64, second: u64) -> u64 {
    if first < 1 {
        return 0;
    }
    if second < 1 {
        return 0;
    }
    if 26 < first {
        return 0;
    }
    if 26 < second {
        return 0;
    }
    26 + (first - 1) * 26 + second
}

fn two_bytes(n: Counts, first: u8, second: u8) -> Counts {
    let field = [first, second];
    count(
        n,
        number_of_two(place(first), place(second)),
        label::read_label(&field),
    )
}

fn all_twos() -> Counts {
    let mut n = none();
    for k in 0..65_536u64 {
        n = two_bytes(n, (k / 256) as u8, (k % 256) as u8);
    }
    n
}

// The line twos: fields of two bytes, fields that differ, fields accepted, fields refused.
pub(crate) fn run_twos(rt: &impl Print) -> io::Result<()> {
    report::name(rt, "twos")?;
    line(rt, all_twos())
}

// The number of so many Z, or 0 where that is no label: how many labels have at most so many letters.
fn number_of_z(length: usize) -> u64 {
    match length {
        1 => 26,
        2 => 702,
        3 => 18_278,
        4 => 475_254,
        5 => 12_356_630,
        6 => 321_272_406,
        7 => 8_353_082_582,
        8 => 217_180_147_158,
        _ => 0,
    }
}

fn read_first(bytes: &[u8], length: usize) -> Option<u64> {
    if length <= bytes.len() {
        label::read_label(&bytes[0..length])
    } else {
        None
    }
}

fn one_length(n: Counts, length: usize) -> Counts {
    let capital = *b"ZZZZZZZZZZ";
    let small = *b"zzzzzzzzzz";
    let wanted = number_of_z(length);
    let more = count(n, wanted, read_first(&capital, length));
    count(more, wanted, read_first(&small, length))
}

fn all_lengths() -> Counts {
    let mut n = none();
    for length in 0..=10 {
        n = one_length(n, length);
    }
    n
}

// The line lengths: rows of Z and of z, rows that differ, rows accepted, rows refused.
pub(crate) fn run_lengths(rt: &impl Print) -> io::Result<()> {
    report::name(rt, "lengths")?;
    line(rt, all_lengths())
}
