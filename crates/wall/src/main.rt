// The program `wall` (document 01, "Lines and the program"): it reads standard input in parts, as they come, and writes
// what `stream` answers for each: the refusals of the lines that the part finishes, and at the end the rows. What is
// printed for what was read is a theorem of crate `program_text`; here only the system calls are made. Proved here: it
// is safe and ends, the calls of `stream` are those of the theorem, and none is refused. No contract can say what is
// read or written.
#![tactic(auto)]

mod channel;

ghost use Rattle.std.specs.Prelude.{◌*◌, ◌≤◌, length};
ghost use Rattle.checks.specs.Stores.{stores};
ghost use Rattle.refusal_text.specs.Refusals.{refusal_room};
ghost use Rattle.stream.specs.Finishing.{finish_room};
ghost use Rattle.wall.specs.Run.{Following, FollowingRows, PartFollowed, EndFollowed};

use refusal_text::REFUSAL_BYTES;
use session_plan::{ROW_WORDS, TUPLE_WORDS};
use std::io::{Stderr, Stdin, Stdout};
use stream::{FINISH_BYTES, Reading, Taken};

// The most bytes of a part. The text buffer has room for a refusal for each of them, and for the end of the text.
const PART_BYTES: usize = 4096;

const TEXT_BYTES: usize = REFUSAL_BYTES * PART_BYTES + FINISH_BYTES;

// A part of the input after those before it, with room for its text.
fn take_part(
    reading: Reading,
    part: &[u8],
    outer: &mut [u64],
    inner: &mut [u64],
    rows: &mut [u64],
    text: &mut [u8],
) -> Taken
    requires following { Following reading (stores outer.old inner.old rows.old) }
    requires part_in_bounds { refusal_room * length part.now ≤ length text.old }
    ensures { PartFollowed reading part.now
        text.old (stores outer.old inner.old rows.old)
        text.new (stores outer.new inner.new rows.new) result }
{
    stream::take(reading, part, outer, inner, rows, text).unwrap()
}

// The end of the input after all parts, with room for the end of the text.
fn end_text(reading: Reading, rows: &mut [u64], text: &mut [u8]) -> usize
    requires following_rows { FollowingRows reading rows.old }
    requires finish_room_in_bounds { finish_room ≤ length text.old }
    ensures { EndFollowed reading
        rows.old text.old rows.new text.new result }
{
    stream::finish(reading, rows, text).unwrap()
}

// Reads the input to its end and prints its text, up to a call that fails: then its error number. A proved loop has to
// end, and nothing says that the input does, so the parts are counted up to a number that no run reaches.
fn run(stdin: Stdin, stdout: Stdout, stderr: Stderr) -> Result<(), i32> {
    let mut outer = [0u64; TUPLE_WORDS];
    let mut inner = [0u64; TUPLE_WORDS];
    let mut rows = [0u64; ROW_WORDS];
    let mut part = [0u8; PART_BYTES];
    let mut text = [0u8; TEXT_BYTES];
    let mut reading = stream::start();
    for _ in 0..u64::MAX {
        let n = channel::read_part(stdin, stderr, &mut part)?;
        if n == 0 {
            break;
        }
        let taken = take_part(
            reading,
            &part[..n],
            &mut outer,
            &mut inner,
            &mut rows,
            &mut text,
        );
        let bytes = taken.bytes;
        channel::print(stdout, stderr, &text[..bytes])?;
        let next = taken.reading;
        reading = next;
    }
    let bytes = end_text(reading, &mut rows, &mut text);
    channel::print(stdout, stderr, &text[..bytes])
}

// A failure was told where it came up.
fn main(rt: HostRuntime) {
    let _ = run(rt.stdin(), rt.stdout(), rt.stderr());
}
