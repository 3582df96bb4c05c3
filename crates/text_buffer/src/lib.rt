// Text put into a lent buffer piece by piece: each writer is given the place to start and answers the place after what
// it wrote. Every other byte of the buffer keeps its contents. The definitions are in specs/Buffer.antt.
// Cost: each byte once.
#![tactic(auto)]

ghost use Rattle.std.specs.Prelude.{◌+◌, ◌≤◌, length};
ghost use Rattle.lines.specs.Fields.{digits_of};
ghost use Rattle.text_buffer.specs.Buffer.{ended, Put};

// Puts bytes.
pub fn put_bytes(out: &mut [u8], at: usize, bytes: &[u8]) -> usize
    requires { at + length bytes.now ≤ length out.old }
    ensures { Put at bytes.now out.old out.new result }
{
    let end = at + bytes.len();
    out[at..end].copy_from_slice(bytes);
    end
}

// Puts a number's digits and the byte after them.
pub fn put_number(out: &mut [u8], at: usize, n: u64, after: u8) -> usize
    requires { at + length (ended (digits_of n) after) ≤ length out.old }
    ensures { Put at (ended (digits_of n) after) out.old out.new result }
{
    let mut digits = [0u8; 21];
    digits[20] = after;
    digits[19] = 48 + (n % 10) as u8;
    let mut left = n / 10;
    let mut i: usize = 19;
    // By division until nothing is left: no counter bounds it.
    while left != 0 {
        i -= 1;
        digits[i] = 48 + (left % 10) as u8;
        left = left / 10;
    }
    put_bytes(out, at, &digits[i..])
}
