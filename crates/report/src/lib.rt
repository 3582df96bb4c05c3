// The report of a wall's rows (document 01, "Lines and the program"): `rows,COUNT` and the rows in order, as text in
// a lent buffer.
//
// Nothing has to be checked before calling: `write` answers for any words, bytes and lengths. Checks come first and
// read only; a refusal changes no word and no byte. Cost: check 5 reads every word of the store; then each lane is
// sorted in place, at most a swap for each pair of its rows, and each byte of the text is written once. The
// definitions are in specs/: Order (of rows), Text, Report; in Steps what the private functions promise one another.
#![tactic(auto)]

mod order;
mod text;

ghost use Rattle.std.specs.Prelude.{◌≡◌};
ghost use Rattle.refusal.specs.Refusal.{answer_number};
ghost use Rattle.checks.specs.Stores.{SoundStore};
ghost use Rattle.report.specs.Text.{row_count};
ghost use Rattle.report.specs.Report.{report_number, ReportWritten};

use plan::{PartitionIndex, Partitioning};
use refusal::Refusal;

// The bytes that the line `rows,COUNT` surely fits in, and those for a row's line.
pub const HEAD_BYTES: usize = 16;

pub const ROW_BYTES: usize = 48;

// What `write` answers: the length of the text, or the refusal that applies first.
pub type Reported = Result<usize, Refusal>;

// The number of stored rows in all lanes.
fn count_rows(p: Partitioning, rows: &[u64]) -> u64
    requires { SoundStore p rows.now }
    ensures { result ≡ row_count p rows.now }
{
    let room = store::row_room(p);
    let mut count: u64 = 0;
    for i in 0..p.count {
        count += part::count(store::partition(rows, room, PartitionIndex(i)));
    }
    count
}

// The checks: of plan and store (1 to 5 and 18), and of the buffer's length (4).
fn report_number(p: Partitioning, rows: &[u64], room: usize) -> Result<(), Refusal>
    ensures { answer_number result ≡ report_number p rows.now room }
{
    checks::rows_number(p, rows)?;
    if room < HEAD_BYTES + ROW_BYTES * count_rows(p, rows) as usize {
        return Err(Refusal::Length);
    }
    Ok(())
}

// Sorts the rows of each lane in place, and writes the report of them into `out`.
pub fn write(p: Partitioning, rows: &mut [u64], out: &mut [u8]) -> Reported
    ensures { ReportWritten p rows.old out.old rows.new out.new result }
{
    report_number(p, rows, out.len())?;
    order::sort_all(p, rows);
    Ok(text::put_report(p, rows, out))
}
