// The text of a report, put into a buffer piece by piece, as `text_buffer` does it: each writer is given the place to
// start and answers the place after what it wrote.
ghost use Rattle.std.specs.Prelude.{◌+◌, ◌≤◌, length};
ghost use Rattle.label.specs.Label.{letters_of};
ghost use Rattle.interval.specs.Tuple.{row_width};
ghost use Rattle.part.specs.Part.{room_of, counted};
ghost use Rattle.checks.specs.Stores.{SoundStore};
ghost use Rattle.lines.specs.Fields.{comma};
ghost use Rattle.text_buffer.specs.Buffer.{ended, Put};
ghost use Rattle.report.specs.Text.{row_line, partition_text, partitions_text, text_of};

use interval::tuple::Row;
use lines::{COMMA, LINE_END};
use plan::{PartitionIndex, Partitioning};
use text_buffer::{put_bytes, put_number};

// Puts a label's letters and a comma.
fn put_label(out: &mut [u8], at: usize, label: u64) -> usize
    requires { at + length (ended (letters_of label) comma) ≤ length out.old }
    ensures { Put at (ended (letters_of label) comma) out.old out.new result }
{
    let letters = label::letters_of(label);
    let bytes = letters.bytes;
    let count = letters.count as usize;
    let next = put_bytes(out, at, &bytes[..count]);
    put_bytes(out, next, b",")
}

// Puts a row's line.
fn put_row(out: &mut [u8], at: usize, partition: u64, row: Row) -> usize
    requires { at + length (row_line partition row) ≤ length out.old }
    ensures { Put at (row_line partition row) out.old out.new result }
{
    let label = put_number(out, at, partition, COMMA);
    let drawing = put_label(out, label, row.label);
    let spot = put_number(out, drawing, row.outer, COMMA);
    let first = put_number(out, spot, row.inner, COMMA);
    let last = put_number(out, first, row.valid.first.0, COMMA);
    put_number(out, last, row.valid.last.0, LINE_END)
}

// Puts the lines of a partition's rows.
fn put_partition(out: &mut [u8], at: usize, partition: u64, part: &[u64]) -> usize
    requires part_in_bounds { room_of row_width (counted part.now) ≤ length part.now }
    requires part_in_bounds_2 { at + length (partition_text partition part.now) ≤ length out.old }
    ensures { Put at (partition_text partition part.now) out.old out.new result }
{
    let n = part::count(part) as usize;
    let mut next = at;
    for k in 0..n {
        next = put_row(out, next, partition, part::record_at(part, k));
    }
    next
}

// Puts the lines of all rows, lane by lane; lanes are counted from 1.
fn put_partitions(p: Partitioning, rows: &[u64], out: &mut [u8], at: usize) -> usize
    requires sound_store { SoundStore p rows.now }
    requires rows_in_bounds { at + length (partitions_text p rows.now) ≤ length out.old }
    ensures { Put at (partitions_text p rows.now) out.old out.new result }
{
    let room = store::row_room(p);
    let mut next = at;
    for i in 0..p.count {
        next = put_partition(
            out,
            next,
            i + 1,
            store::partition(rows, room, PartitionIndex(i)),
        );
    }
    next
}

// Puts the whole report at the buffer's start.
pub(crate) fn put_report(p: Partitioning, rows: &[u64], out: &mut [u8]) -> usize
    requires sound_store { SoundStore p rows.now }
    requires rows_in_bounds { length (text_of p rows.now) ≤ length out.old }
    ensures { Put 0 (text_of p rows.now) out.old out.new result }
{
    let word = put_bytes(out, 0, b"rows,");
    let next = put_number(out, word, crate::count_rows(p, rows), LINE_END);
    put_partitions(p, rows, out, next)
}
