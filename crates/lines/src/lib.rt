// The reader of one line (document 01, "Lines and the program"): fixed fields parted by commas, no quoting.
// Each field is read to a value or to a refusal, and the reader goes on only with a value. Cost: each byte a few times.
// The definitions are in specs/: Fields (commas, numbers), Line (the form of a line, its value, how a value prints).
#![tactic(auto)]

ghost use Rattle.std.specs.Prelude.{◌≡◌};
ghost use Rattle.lists.specs.Members.{place_of};
ghost use Rattle.lines.specs.Fields.{is_byte, NumberRead, fields_of};
ghost use Rattle.lines.specs.Line.{lane_of, least_of, span_form, numbers_form, change_form, line_of};

use interval::time::{Chronon, Interval};
use interval::tuple::Tuple;

// The most bytes of a line before its byte 10.
pub const LINE_LENGTH: usize = 80;

// The byte that parts fields, and the one that ends a line.
pub const COMMA: u8 = 44;

pub const LINE_END: u8 = 10;

// The most digits of a number.
const MOST_DIGITS: usize = 8;

// The four words of a change: which side, in or out.
#[derive(Clone, Copy)]
pub enum Word {
    DrawIn,
    DrawOut,
    SpotIn,
    SpotOut,
}

// What a line says: a lane's last minute, the fewest minutes of a row, or a change's word with its tuple; or that it is
// not of the form (15).
#[derive(Clone, Copy)]
pub enum Line {
    Lane(Chronon),
    Least(u64),
    Change(Word, Tuple),
    Malformed,
}

// The place of the first such byte; the length where there is none, as the definition `place_of` has it.
pub fn place_of(bytes: &[u8], byte: u8) -> usize
    ensures { result ≡ place_of (is_byte byte) bytes.now }
{
    bytes.iter().position(|b| *b == byte).unwrap_or(bytes.len())
}

// The value of the number field with these bytes; None where they are no number.
fn read_number(field: &[u8]) -> Option<u64>
    ensures { NumberRead field.now result }
{
    let len = field.len();
    if len < 1 {
        return None;
    }
    if MOST_DIGITS < len {
        return None;
    }
    if field[0] == 48 {
        if 1 < len {
            return None;
        }
    }
    let mut n: u64 = 0;
    for &b in field {
        if b < 48 {
            return None;
        }
        if 57 < b {
            return None;
        }
        n = 10 * n + (b - 48) as u64;
    }
    Some(n)
}

// The last minute of a lane line, after its first comma.
fn read_lane(rest: &[u8]) -> Line
    ensures { result ≡ lane_of rest.now }
{
    let Some(last) = read_number(rest) else {
        return Line::Malformed;
    };
    Line::Lane(Chronon(last))
}

// The minutes of a `least` line, after its first comma.
fn read_least(rest: &[u8]) -> Line
    ensures { result ≡ least_of rest.now }
{
    let Some(minutes) = read_number(rest) else {
        return Line::Malformed;
    };
    Line::Least(minutes)
}

// First and last minute of a change, after its third comma.
fn read_span(word: Word, label: u64, item: u64, rest: &[u8]) -> Line
    ensures { result ≡ span_form word label item (fields_of rest.now) }
{
    let c = place_of(rest, COMMA);
    if rest.len() <= c {
        return Line::Malformed;
    }
    let Some(first) = read_number(&rest[0..c]) else {
        return Line::Malformed;
    };
    let Some(last) = read_number(&rest[c + 1..]) else {
        return Line::Malformed;
    };
    Line::Change(
        word,
        Tuple {
            label,
            item,
            valid: Interval {
                first: Chronon(first),
                last: Chronon(last),
            },
        },
    )
}

// The numbers of a change, after its second comma.
fn read_numbers(word: Word, label: u64, rest: &[u8]) -> Line
    ensures { result ≡ numbers_form word label (fields_of rest.now) }
{
    let c = place_of(rest, COMMA);
    if rest.len() <= c {
        return Line::Malformed;
    }
    let Some(item) = read_number(&rest[0..c]) else {
        return Line::Malformed;
    };
    read_span(word, label, item, &rest[c + 1..])
}

// A change's tuple, after its first comma.
fn read_change(word: Word, rest: &[u8]) -> Line
    ensures { result ≡ change_form word (fields_of rest.now) }
{
    let c = place_of(rest, COMMA);
    if rest.len() <= c {
        return Line::Malformed;
    }
    let Some(label) = label::read_label(&rest[0..c]) else {
        return Line::Malformed;
    };
    read_numbers(word, label, &rest[c + 1..])
}

// The line with these bytes before its byte 10.
pub fn read_line(line: &[u8]) -> Line
    ensures { result ≡ line_of line.now }
{
    if LINE_LENGTH < line.len() {
        return Line::Malformed;
    }
    let c = place_of(line, COMMA);
    if line.len() <= c {
        return Line::Malformed;
    }
    let word = &line[0..c];
    let rest = &line[c + 1..];
    if word == b"lane".as_slice() {
        return read_lane(rest);
    }
    if word == b"least".as_slice() {
        return read_least(rest);
    }
    if word == b"drawin".as_slice() {
        return read_change(Word::DrawIn, rest);
    }
    if word == b"drawout".as_slice() {
        return read_change(Word::DrawOut, rest);
    }
    if word == b"spotin".as_slice() {
        return read_change(Word::SpotIn, rest);
    }
    if word == b"spotout".as_slice() {
        return read_change(Word::SpotOut, rest);
    }
    Line::Malformed
}
