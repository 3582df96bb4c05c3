// Tuples and rows: their checks 6, 7, 8 and 17; legal rows; their equality. No order of calls, no cost beyond a few
// comparisons. Their words are read and written by the crate `encoding`.
ghost use Rattle.std.specs.Prelude.{◌≡◌};
ghost use Rattle.refusal.specs.Refusal.{answer_number};
ghost use Rattle.label.specs.Label.{label_check};
ghost use Rattle.interval.specs.Tuple.{item_check, valid_check, tuple_number, row_number, legal_row, same_label};
ghost use Rattle.interval.specs.Tuple.{same_tuple, same_row, during};

use crate::time::{CALENDAR_END, Chronon, Interval};
use label::LABEL_END;
use refusal::Refusal;

// The largest item number.
pub const ITEM_END: u64 = 999_999;

// The words of a tuple, and of a row.
pub const TUPLE_WIDTH: usize = 4;

pub const ROW_WIDTH: usize = 5;

// A tuple of document 01: a drawing or a spot (002: a tuple of the outer or the inner relation).
#[derive(Clone, Copy, PartialEq, Eq)]
pub struct Tuple {
    pub label: u64,
    pub item: u64,
    pub valid: Interval,
}

// A row of document 01: a drawing on a spot, while both run.
#[derive(Clone, Copy, PartialEq, Eq)]
pub struct Row {
    pub label: u64,
    pub outer: u64,
    pub inner: u64,
    pub valid: Interval,
}

// The tuple with another interval, all else as it is.
pub fn during(t: Tuple, valid: Interval) -> Tuple
    ensures { result ≡ during t valid }
{
    Tuple { valid, ..t }
}

fn label_check(label: u64) -> Result<(), Refusal>
    ensures { answer_number result ≡ label_check label }
{
    if label < 1 {
        return Err(Refusal::Label);
    }
    if LABEL_END < label {
        return Err(Refusal::Label);
    }
    Ok(())
}

fn item_check(item: u64) -> Result<(), Refusal>
    ensures { answer_number result ≡ item_check item }
{
    if ITEM_END < item {
        return Err(Refusal::Item);
    }
    Ok(())
}

// A span entered backward gets 8, one that runs past the calendar 17, one that does both 8.
fn valid_check(valid: Interval) -> Result<(), Refusal>
    ensures { answer_number result ≡ valid_check valid }
{
    if valid.last.0 < valid.first.0 {
        return Err(Refusal::Backward);
    }
    if CALENDAR_END < valid.last.0 {
        return Err(Refusal::PastCalendar);
    }
    Ok(())
}

// Checks 6, 7, 8 and 17 of a tuple, in that order: the first that applies refuses it.
pub fn tuple_number(t: Tuple) -> Result<(), Refusal>
    ensures { answer_number result ≡ tuple_number t }
{
    label_check(t.label)?;
    item_check(t.item)?;
    valid_check(t.valid)
}

// The same checks of a row: of its label, both item numbers and its interval.
pub fn row_number(row: Row) -> Result<(), Refusal>
    ensures { answer_number result ≡ row_number row }
{
    label_check(row.label)?;
    item_check(row.outer)?;
    item_check(row.inner)?;
    valid_check(row.valid)
}

// Whether a row passes its checks and lasts at least `minimum` minutes.
#[tactic(auto, unfolding(crate::specs::Tuple::legal_row))]
pub fn legal_row(minimum: u64, row: Row) -> bool
    ensures { result ≡ legal_row minimum row }
{
    row_number(row).is_ok() && crate::time::durable(minimum, row.valid)
}

// Two tuples, an outer and an inner one, whose labels are equal.
pub fn same_label(d: Tuple, s: Tuple) -> bool
    ensures { result ≡ same_label d s }
{
    d.label == s.label
}

// Two tuples that are equal in all four words.
#[tactic(auto, unfolding(crate::specs::Tuple::same_tuple, crate::specs::Tuple::same_interval))]
pub fn same_tuple(a: Tuple, b: Tuple) -> bool
    ensures { result ≡ same_tuple a b }
{
    a == b
}

// Two rows that are equal in all five words.
#[tactic(auto, unfolding(crate::specs::Tuple::same_row, crate::specs::Tuple::same_interval))]
pub fn same_row(r: Row, s: Row) -> bool
    ensures { result ≡ same_row r s }
{
    r == s
}
