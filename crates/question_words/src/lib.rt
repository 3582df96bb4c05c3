// A screenful of questions (document 02, (g)) on plain words, for hosts: a question is three words, label, minute and
// answer. The promise rests on the same definitions as crate questions, which has the slice of structs.
//
// Nothing has to be checked before calling, and a refusal changes no word. Checks 1 to 5 of the plan and the rows store
// come first; words that are no whole number of questions fall under 4. Cost: as of crate questions.
// The definitions are in specs/QuestionWords.
#![tactic(auto)]

ghost use Rattle.std.specs.Prelude.{true, map, ◌≡◌, ◌+◌, ◌*◌, ◌≤◌, length};
ghost use Rattle.refusal.specs.Refusal.{answer_number};
ghost use Rattle.cursor.specs.Cursor.{chosen, Scannable};
ghost use Rattle.question.specs.Question.{with_answer};
ghost use Rattle.question.specs.Steps.{room_for, with_row, after_rows, window_of};
ghost use Rattle.question_words.specs.QuestionWords.{question_width, question_at, questions_in, WholeQuestions};
ghost use Rattle.question_words.specs.QuestionWords.{whole_check, words_number, WordsBecame, WordsAnswered};

use checks::{Answer, Counted};
use cursor::Scan;
use interval::time::{Chronon, Interval};
use interval::tuple::Row;
use plan::Partitioning;
use question::Question;
use refusal::Refusal;

// The words of a question.
pub const QUESTION_WIDTH: usize = 3;

// Question i, counted from 0.
fn question_at(ws: &[u64], i: usize) -> Question
    requires { i * question_width + question_width ≤ length ws.now }
    ensures { result ≡ question_at ws.now i }
{
    let at = i * QUESTION_WIDTH;
    Question {
        label: ws[at],
        minute: Chronon(ws[at + 1]),
        answer: ws[at + 2],
    }
}

// Makes every answer 0; answers the window of the questions' legal minutes.
fn begin(ws: &mut [u64]) -> Interval
    requires { WholeQuestions ws.old }
    ensures { WordsBecame (map (with_answer 0) (questions_in ws.old)) ws.old ws.new
        × (result ≡ window_of (questions_in ws.old)) }
{
    let n = ws.len() / QUESTION_WIDTH;
    let mut window = question::no_window();
    for i in 0..n {
        let q = question_at(ws, i);
        window = question::widened(window, q);
        ws[i * QUESTION_WIDTH + 2] = question::cleared(q).answer;
    }
    window
}

// One row, read once, for the whole list of questions. Only a question with the row's label is written: few are.
fn count_row(ws: &mut [u64], r: Row)
    requires whole_questions { WholeQuestions ws.old }
    requires ws_value { room_for 1 (questions_in ws.old) ≡ true }
    ensures { WordsBecame (map (with_row r) (questions_in ws.old))
        ws.old ws.new }
{
    let n = ws.len() / QUESTION_WIDTH;
    for i in 0..n {
        let q = question_at(ws, i);
        if q.label == r.label {
            let next = question::with_row(q, r);
            ws[i * QUESTION_WIDTH + 2] = next.answer;
        }
    }
}

// The rows that a scan hands out, each read once, for the whole list of questions.
fn count_rows(rows: &[u64], scan: Scan, ws: &mut [u64])
    requires whole_questions { WholeQuestions ws.old }
    requires scannable { Scannable scan rows.now }
    requires ws_value { room_for (length (chosen scan rows.now)) (questions_in ws.old) ≡ true }
    ensures { WordsBecame (after_rows (chosen scan rows.now) (questions_in ws.old))
        ws.old ws.new }
{
    let mut at = cursor::first(rows, scan);
    while let Some(c) = at {
        count_row(ws, c.row);
        at = cursor::next(rows, scan, c);
    }
}

// Check 4 of that many words: they are no whole questions.
#[tactic(auto, unfolding(crate::specs::QuestionWords::whole_check))]
fn whole_check(words: usize) -> Result<(), Refusal>
    ensures { answer_number result ≡ whole_check words }
{
    if words % QUESTION_WIDTH == 0 {
        return Ok(());
    }
    Err(Refusal::Length)
}

// Checks 1 to 5, of the rows store and that many words of questions.
fn words_number(p: Partitioning, rows: &[u64], words: usize) -> Result<(), Refusal>
    ensures { answer_number result ≡ words_number p rows.now words }
{
    plan::plan_number(p)?;
    checks::rows_length(p, rows.len())?;
    whole_check(words)?;
    checks::rows_unsound(p, rows)
}

// The answers to a list of questions on words: the call.
pub fn answer(p: Partitioning, rows: &[u64], ws: &mut [u64]) -> Answer
    ensures { WordsAnswered p rows.now ws.old ws.new result }
{
    words_number(p, rows, ws.len())?;
    let scan = question::scan_of(p, begin(ws));
    count_rows(rows, scan, ws);
    Ok(Counted {
        changed: 0,
        examined: cursor::stored(rows, scan),
    })
}
