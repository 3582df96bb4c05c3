// The end of the program's text (document 01, "Lines and the program"): the refusal of an unfinished last line, and the
// report behind it, or `rows,0` where there is no complete plan. The refusal is put into a buffer of its own first, and
// then in front of what follows it. The functions ask for room by a `requires`, which `stream::finish` may not have.
// The definitions are in specs/Ending.antt. Cost: that of the report; each byte of the refusal is copied once.
#![tactic(auto)]

ghost use Rattle.std.specs.Prelude.{◌++◌, ◌+◌, ◌≤◌, length};
ghost use Rattle.text_buffer.specs.Buffer.{Put};
ghost use Rattle.refusal_text.specs.Refusals.{refusal_room};
ghost use Rattle.report.specs.Text.{count_line};
ghost use Rattle.text_end.specs.Ending.{rest_refusal, ReportEnded};

use refusal::Refusal;
use session_plan::Session;
use text_buffer::put_bytes;

// What the end of the input gets: how many bytes of text there are, or the refusal that applies first.
pub type Finished = Result<usize, Refusal>;

// Puts the refusal of an unfinished last line, after `lines` lines; nothing where no byte of it is kept.
pub fn put_rest(lines: u64, kept: usize, rest: &mut [u8]) -> usize
    requires { refusal_room ≤ length rest.old }
    ensures { Put 0 (rest_refusal lines kept) rest.old rest.new result }
{
    if kept == 0 {
        return 0;
    }
    let line = refusal_text::next_line(lines);
    refusal_text::put_refusal(rest, 0, line, Refusal::Malformed.into())
}

// The end of the input without a complete plan: the refusal, and `rows,0`.
pub fn finish_plain(rest: &[u8], out: &mut [u8]) -> usize
    requires { length rest.now + 7 ≤ length out.old }
    ensures { Put 0 (rest.now ++ count_line 0) out.old out.new result }
{
    let at = put_bytes(out, 0, rest);
    put_bytes(out, at, b"rows,0\n")
}

// The end of the input with one: the refusal, and the report of the words in use.
pub fn finish_report(s: Session, rest: &[u8], rows: &mut [u64], out: &mut [u8]) -> Finished
    requires { length rest.now ≤ length out.old }
    ensures { ReportEnded s rest.now
        rows.old out.old rows.new out.new result }
{
    let p = session_plan::plan_of(s);
    let used = session_plan::used_rows(s, rows.len());
    let n = rest.len();
    let bytes = report::write(p, &mut rows[..used], &mut out[n..])?;
    put_bytes(out, 0, rest);
    Ok(n + bytes)
}
