// The program's text (document 01, "Lines and the program"): the input comes in parts of any size, and each part gives
// the refusals of the lines that it finishes; the end of the input gives the rest. No system calls.
//
// Nothing has to be checked before calling: `take` and `finish` answer for any reading, bytes, words and lengths. A
// refusal changes nothing. The definitions are in specs/: Input (lines), Taking and Finishing (what the calls answer
// and leave); the text of a refusal is in crate `refusal_text`, the pieces of the end in `text_end`. That what is
// written for all parts is the text of the input is a theorem of crate `program_text`. Cost: that of the session's
// steps; each byte is compared once, and copied once where it is kept.
#![tactic(auto)]

ghost use Rattle.std.specs.Prelude.{◌≡◌, ◌+◌, ◌*◌, ◌≤◌, length};
ghost use Rattle.checks.specs.Stores.{stores};
ghost use Rattle.refusal_text.specs.Refusals.{refusal_room};
ghost use Rattle.stream.specs.Taking.{kept_most, between_lines, at_start, with_bytes, LineEnded, PartTaken, TakenBy};
ghost use Rattle.stream.specs.Finishing.{FinishedBy};

use lines::{LINE_END, LINE_LENGTH};
use refusal::Refusal;
use refusal_text::REFUSAL_BYTES;
use report::{HEAD_BYTES, ROW_BYTES};
use session_plan::{PARTITIONS, ROWS, Session};
use text_buffer::put_bytes;
use text_end::Finished;

// The bytes of an unfinished line that are kept: the last of them tells that the line is too long.
const KEPT_BYTES: usize = LINE_LENGTH + 1;

// The bytes that the end of the text surely fits in: a refusal, and the report of all lanes, each full of rows.
pub const FINISH_BYTES: usize = REFUSAL_BYTES
    + HEAD_BYTES
    + ROW_BYTES * (PARTITIONS * ROWS) as usize;

// What was read: the session after the finished lines, how many they are, and the first bytes of the next one. Bytes and
// a count, since there is no heap.
#[derive(Clone, Copy)]
pub struct Reading {
    pub session: Session,
    pub lines: u64,
    pub kept: usize,
    pub line: [u8; KEPT_BYTES],
}

// What a part gets that is taken: the reading after it, and how many bytes of text there are.
#[derive(Clone, Copy)]
pub struct Taken {
    pub reading: Reading,
    pub bytes: usize,
}

// After `lines` finished lines, with no byte of the next one.
fn between_lines(session: Session, lines: u64) -> Reading
    ensures { result ≡ between_lines session lines }
{
    Reading {
        session,
        lines,
        kept: 0,
        line: [0u8; KEPT_BYTES],
    }
}

// Before the first byte.
pub fn start() -> Reading
    ensures { result ≡ at_start }
{
    between_lines(session_plan::start(), 0)
}

// The reading with more bytes of its unfinished line, kept as far as there is room.
fn keep(s: Reading, bytes: &[u8]) -> Reading
    requires { s.kept ≤ kept_most }
    ensures { result ≡ with_bytes s bytes.now }
{
    let kept = s.kept;
    let mut line = s.line;
    let n = (KEPT_BYTES - kept).min(bytes.len());
    put_bytes(&mut line, kept, &bytes[..n]);
    Reading {
        kept: kept + n,
        line,
        ..s
    }
}

// A finished line: the session's work on its bytes, and its refusal.
fn end_line(
    s: Reading,
    outer: &mut [u64],
    inner: &mut [u64],
    rows: &mut [u64],
    out: &mut [u8],
    at: usize,
) -> Taken
    requires kept_le_kept_most { s.kept ≤ kept_most }
    requires refusal_room_in_bounds { at + refusal_room ≤ length out.old }
    ensures { LineEnded s at
        out.old (stores outer.old inner.old rows.old)
        out.new (stores outer.new inner.new rows.new) result }
{
    let before = s.session;
    let kept = s.kept;
    let line = s.line;
    let stepped = session::step(before, &line[..kept], outer, inner, rows);
    let lines = refusal_text::next_line(s.lines);
    let bytes = refusal_text::put_answer(out, at, lines, refusal::answer_number(stepped));
    let reading = between_lines(stepped.unwrap_or(before), lines);
    Taken { reading, bytes }
}

// The lines that a part finishes, one after the other, and what is kept of the next one.
fn take_lines(
    s: Reading,
    part: &[u8],
    outer: &mut [u64],
    inner: &mut [u64],
    rows: &mut [u64],
    out: &mut [u8],
) -> Taken
    requires kept_le_kept_most { s.kept ≤ kept_most }
    requires part_in_bounds { refusal_room * length part.now ≤ length out.old }
    ensures { PartTaken s part.now
        out.old (stores outer.old inner.old rows.old)
        out.new (stores outer.new inner.new rows.new) result }
{
    let mut read = s;
    let mut at: usize = 0;
    let mut from: usize = 0;
    let mut end = lines::place_of(part, LINE_END);
    // From one line end to the next: no counter bounds it.
    while end < part.len() {
        let whole = keep(read, &part[from..end]);
        let taken = end_line(whole, outer, inner, rows, out, at);
        let next = taken.reading;
        read = next;
        at = taken.bytes;
        from = end + 1;
        end = from + lines::place_of(&part[from..], LINE_END);
    }
    let reading = keep(read, &part[from..]);
    Taken { reading, bytes: at }
}

// A part of the input: the refusals of the lines that it finishes, as text in `out`.
pub fn take(
    s: Reading,
    part: &[u8],
    outer: &mut [u64],
    inner: &mut [u64],
    rows: &mut [u64],
    out: &mut [u8],
) -> Result<Taken, Refusal>
    ensures { TakenBy s part.now
        out.old (stores outer.old inner.old rows.old)
        out.new (stores outer.new inner.new rows.new) result }
{
    let kept = s.kept;
    if KEPT_BYTES < kept {
        return Err(Refusal::Length);
    }
    if out.len() / REFUSAL_BYTES < part.len() {
        return Err(Refusal::Length);
    }
    Ok(take_lines(s, part, outer, inner, rows, out))
}

// The end of the input: the refusal of an unfinished last line and the report, as text in `out`.
pub fn finish(s: Reading, rows: &mut [u64], out: &mut [u8]) -> Finished
    ensures { FinishedBy s
        rows.old out.old rows.new out.new result }
{
    if out.len() < FINISH_BYTES {
        return Err(Refusal::Length);
    }
    // Bytes and a count, since there is no heap.
    let mut rest = [0u8; REFUSAL_BYTES];
    let n = text_end::put_rest(s.lines, s.kept, &mut rest);
    let session = s.session;
    if session.complete {
        return text_end::finish_report(session, &rest[..n], rows, out);
    }
    Ok(text_end::finish_plain(&rest[..n], out))
}
