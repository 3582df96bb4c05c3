// The text of a refused line (document 01: "A refused line prints `refused,LINE,NUMBER`, lines counted from 1."), put
// into a lent buffer as `text_buffer` does it: a writer is given the place to start and answers the place after what it
// wrote. Every other byte of the buffer keeps its contents. The definitions are in specs/Refusals.antt.
// Cost: each byte once.
#![tactic(auto)]

ghost use Rattle.std.specs.Prelude.{◌≡◌, ◌+◌, ◌≤◌, length};
ghost use Rattle.text_buffer.specs.Buffer.{Put};
ghost use Rattle.refusal_text.specs.Refusals.{refusal_room, refusal_line, answer_text, next_line};

use lines::{COMMA, LINE_END};
use text_buffer::{put_bytes, put_number};

// The bytes that a refusal surely fits in.
pub const REFUSAL_BYTES: usize = 50;

// The number of the line after `lines` lines. The last number of all stays: no input gets there.
pub fn next_line(lines: u64) -> u64
    ensures { result ≡ next_line lines }
{
    if lines == u64::MAX {
        return lines;
    }
    lines + 1
}

// Puts `refused,LINE,NUMBER` and byte 10.
pub fn put_refusal(out: &mut [u8], at: usize, line: u64, number: u64) -> usize
    requires { at + length (refusal_line line number) ≤ length out.old }
    ensures { Put at (refusal_line line number) out.old out.new result }
{
    let word = put_bytes(out, at, b"refused,");
    let next = put_number(out, word, line, COMMA);
    put_number(out, next, number, LINE_END)
}

// Puts a line's refusal, nothing where it was accepted.
pub fn put_answer(out: &mut [u8], at: usize, line: u64, number: u64) -> usize
    requires { at + refusal_room ≤ length out.old }
    ensures { Put at (answer_text line number) out.old out.new result }
{
    if number == 0 {
        return at;
    }
    put_refusal(out, at, line, number)
}
