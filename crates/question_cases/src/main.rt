// Outside cases for the crates questions and question_words: a seeded list of questions on a small rows store, asked as
// a slice of questions and as words. Each answer and every question or word left is taken into a digest, which
// tests/question_cases_expected.py works out in another way, and which asserts that every number and the turns that
// matter are met. A line for each list: its seed, its digest, and the number and the rows read of either form.
//
// All functions answer for any words: what would be too large is made small first (total), and a word past the end of a
// slice is 0. So each is proved safe by little more than its loop's bound.
#![tactic(auto)]

mod asking;
mod digest;
mod draws;
mod plans;
mod screens;
mod stores;
mod total;

use checks::Answer;
use plan::Partitioning;
use question::Question;
use screens::QUESTIONS;
use std::io;
use stores::ROW_WORDS;

// A list and what it is asked of: the plan and the words of the rows store that are lent, how many questions are asked
// and how many words.
#[derive(Clone, Copy)]
struct Case {
    plan: Partitioning,
    rows: [u64; ROW_WORDS],
    length: u64,
    questions: [Question; QUESTIONS],
    asked: u64,
    words: u64,
}

// A length, or by a drawn number one less, or one or two more.
fn bent(length: u64, w: u64) -> u64 {
    let n = length % 1_000;
    let less = (n + 999) % 1_000;
    let words = [less, n + 1, n + 2, n];
    words[total::at_most(w, 3)]
}

// The case by the numbers drawn for it.
fn case_by(d: [u64; 20], state: u64) -> Case {
    let p = plans::drawn(d);
    let mut rows = [0u64; ROW_WORDS];
    let after = stores::fill(&mut rows, p, state, d[13] % 22 + 3);
    let questions = screens::drawn(p, rows, after, screens::earliest(p, d[16], d[12]));
    stores::meddle(&mut rows, p, d);
    let asked = d[14] % 9;
    Case {
        plan: plans::bent(plans::bent(p, d[10] % 100, d[12]), d[11] % 100, d[12]),
        rows,
        length: bent(stores::base(p, p.count), d[15] % 40),
        questions,
        asked,
        words: bent(asked * 3, d[19] % 12),
    }
}

// A number and the text after it.
fn print(rt: &impl Print, n: u64, after: &str) -> io::Result<()> {
    print!(rt; "{n}{after}")
}

// The number of an answer and how many rows were read, 0 where it is refused, and the text after them.
fn answered(rt: &impl Print, answer: Answer, after: &str) -> io::Result<()> {
    print(rt, refusal::answer_number(answer), ",")?;
    match answer {
        Ok(counted) => print(rt, counted.examined, after),
        Err(_) => print(rt, 0, after),
    }
}

// The line of a list.
fn line(rt: &impl Print, seed: u64, digest: u64, one: Answer, other: Answer) -> io::Result<()> {
    print(rt, seed, ",")?;
    print(rt, digest, ",")?;
    answered(rt, one, ",")?;
    answered(rt, other, "\n")
}

// Asks a list in both forms.
fn asked(rt: &impl Print, seed: u64, c: Case) -> io::Result<()> {
    let p = c.plan;
    let rows = c.rows;
    let qs = c.questions;
    let lent = total::lent(&rows, c.length);
    let a = asking::ask(p, lent, qs, total::at_most(c.asked, QUESTIONS));
    let w = asking::ask_words(p, lent, screens::as_words(qs), c.words);
    let one = a.answer;
    let other = w.answer;
    let after = a.questions;
    let left = screens::as_words(after);
    let words = w.words;
    let digest = digest::told(digest::told(seed, one, &left), other, &words);
    line(rt, seed, digest, one, other)
}

// The lists of the seeds from 1 to 700.
fn main(rt: HostRuntime) -> io::Result<()> {
    for seed in 1..=700 {
        let mut d = [0u64; 20];
        let state = draws::fill(seed, &mut d);
        asked(&rt, seed, case_by(d, state))?;
    }
    Ok(())
}
