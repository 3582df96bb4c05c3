// Point queries on the rows store (document 02, (g): a screenful of questions): one question, what a row adds to its
// answer, and what has to be read of the store for a list of them. Crate questions is lent a slice of questions, crate
// question_words the same as a host's words.
//
// The definitions are in specs/: Question (what an answer is, what is read), Steps (what is done for a row).
#![tactic(auto)]

ghost use Rattle.std.specs.Prelude.{◌≡◌, ◌<◌};
ghost use Rattle.plan.specs.Plan.{plan_number};
ghost use Rattle.question.specs.Question.{with_answer};
ghost use Rattle.question.specs.Steps.{answer_end, with_row, no_window, widened_by, scan_of};

use cursor::Scan;
use interval::time::{CALENDAR_END, Chronon, Interval};
use interval::tuple::Row;
use plan::Partitioning;

// A question of document 02: how many rows have that label and contain that minute, and the place for the answer. Label
// and minute are any words.
#[derive(Clone, Copy)]
pub struct Question {
    pub label: u64,
    pub minute: Chronon,
    pub answer: u64,
}

// The question with 0 for its answer.
pub fn cleared(q: Question) -> Question
    ensures { result ≡ with_answer 0 q }
{
    Question { answer: 0, ..q }
}

// The window of no question: it has no chronon, and its first is past the calendar.
pub fn no_window() -> Interval
    ensures { result ≡ no_window }
{
    Interval {
        first: Chronon(CALENDAR_END + 1),
        last: Chronon(0),
    }
}

// The window made wide enough for the question's minute, where that is legal.
pub fn widened(window: Interval, q: Question) -> Interval
    ensures { result ≡ widened_by window q }
{
    if CALENDAR_END < q.minute.0 {
        return window;
    }
    let first = interval::time::earlier(window.first, q.minute);
    let last = interval::time::later(window.last, q.minute);
    Interval { first, last }
}

// The question after one more row was read: its answer one up where the row has its label and contains its minute.
pub fn with_row(q: Question, r: Row) -> Question
    requires { q.answer < answer_end }
    ensures { result ≡ with_row r q }
{
    if r.label != q.label {
        return q;
    }
    if q.minute.0 < r.valid.first.0 {
        return q;
    }
    if r.valid.last.0 < q.minute.0 {
        return q;
    }
    Question {
        answer: q.answer + 1,
        ..q
    }
}

// What is read of the rows store for questions with that window.
pub fn scan_of(p: Partitioning, window: Interval) -> Scan
    requires { plan_number p ≡ 0 }
    ensures { result ≡ scan_of p window }
{
    let room = store::row_room(p);
    let from = plan::home(p, window.first);
    Scan {
        room,
        count: p.count,
        from,
        window,
    }
}
