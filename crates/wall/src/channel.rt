// Standard input, output and error: a part of the input, a text to the output, and a failure told on standard error by
// one line. Each read and each write of std is one system call, and nothing is buffered. An interrupted call is made
// again. A proved loop has to end, and nothing says that interruptions do, so they are counted up to a number that
// no run uses up.
ghost use Rattle.std.specs.Prelude.{◌≡◌, ◌≤◌, pos, length, ◌≤ℤ◌};
ghost use Rattle.text_buffer.specs.Buffer.{Put};
ghost use Rattle.wall.specs.Channel.{MovedWithin, failure_line};

use lines::LINE_END;
use std::io;
use std::io::{Read, Stderr, Stdin, Stdout, Write};

// The bytes that the line of a failure surely fits in.
const FAILURE_BYTES: usize = 40;

// The system's error number of a call that a signal interrupted, EINTR.
const INTERRUPTED: i32 = 4;

// What a call moved: so many bytes, or it failed, with the system's error number.
type Moved = Result<usize, i32>;

// What a read into or a write of `buffer` answered. An error that is not the system's has no number, and counts as 0:
// the calls made here answer none.
fn answered(got: io::Result<usize>, buffer: &[u8]) -> Moved
    ensures { MovedWithin buffer.now result }
{
    match got {
        Err(error) => Err(error.raw_os_error().unwrap_or(0)),
        Ok(count) => Ok(count.min(buffer.len())),
    }
}

// Reads a part of the input, nothing at its end.
fn read_some<R: Read>(input: &mut R, part: &mut [u8]) -> Moved
    ensures { MovedWithin part.new result }
{
    for _ in 0..u64::MAX {
        let got = input.read(part);
        let moved = answered(got, part);
        if moved != Err(INTERRUPTED) {
            return moved;
        }
    }
    Err(INTERRUPTED)
}

// Writes as much of the text as one call takes.
fn write_some<W: Write>(output: &mut W, text: &[u8]) -> Moved
    ensures { MovedWithin text.now result }
{
    for _ in 0..u64::MAX {
        let got = output.write(text);
        let moved = answered(got, text);
        if moved != Err(INTERRUPTED) {
            return moved;
        }
    }
    Err(INTERRUPTED)
}

// Writes all of the text, by further calls where one takes only a part. A call that takes nothing counts as failed,
// with the number 0: the system gives none.
fn write_all<W: Write>(output: &mut W, text: &[u8]) -> Result<(), i32> {
    let mut from: usize = 0;
    // A call may take only a part: no counter bounds it.
    while from < text.len() {
        let n = write_some(output, &text[from..])?;
        if n == 0 {
            return Err(0);
        }
        from += n;
    }
    Ok(())
}

// Puts what failed, its error number and byte 10; answers how many bytes.
fn put_failure(line: &mut [u8], what: &[u8], error: u64) -> usize
    requires { length (failure_line what.now error) ≤ length line.old }
    ensures { Put 0 (failure_line what.now error) line.old line.new result }
{
    let number = text_buffer::put_bytes(line, 0, what);
    text_buffer::put_number(line, number, error, LINE_END)
}

// An error number to print. The system's are above 0, but nothing says so: one below is printed as 0.
fn error_number(error: i32) -> u64
    ensures { pos 0 ≤ℤ error → pos result ≡ error }
{
    if error < 0 {
        return 0;
    }
    error as u64
}

// Tells on standard error what failed, with its error number. Where that fails too, nothing is left to tell.
fn tell(mut stderr: Stderr, what: &[u8], error: i32)
    requires { length what.now ≤ 19 }
{
    let mut line = [0u8; FAILURE_BYTES];
    let n = put_failure(&mut line, what, error_number(error));
    let _ = write_all(&mut stderr, &line[..n]);
}

// Reads a part of standard input, nothing at its end. A failure is told.
pub(crate) fn read_part(mut stdin: Stdin, stderr: Stderr, part: &mut [u8]) -> Moved
    ensures { MovedWithin part.new result }
{
    let moved = read_some(&mut stdin, part);
    if let Err(error) = moved {
        tell(stderr, b"wall: read: error ", error);
    }
    moved
}

// Prints a text, all of it. A failure is told.
pub(crate) fn print(mut stdout: Stdout, stderr: Stderr, text: &[u8]) -> Result<(), i32> {
    let written = write_all(&mut stdout, text);
    if let Err(error) = written {
        tell(stderr, b"wall: write: error ", error);
    }
    written
}
