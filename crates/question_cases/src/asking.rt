// A list asked as a slice of questions, and as a slice of words.
ghost use Rattle.std.specs.Prelude.{◌≤◌};

use crate::screens::{QUESTIONS, WORDS};
use crate::total;
use checks::Answer;
use plan::Partitioning;
use question::Question;

// What the call answered, and the questions after it.
#[derive(Clone, Copy)]
pub(crate) struct Asked {
    pub(crate) answer: Answer,
    pub(crate) questions: [Question; QUESTIONS],
}

// What the call on words answered, and the words after it.
#[derive(Clone, Copy)]
pub(crate) struct AskedWords {
    pub(crate) answer: Answer,
    pub(crate) words: [u64; WORDS],
}

// Asks the first n questions.
pub(crate) fn ask(p: Partitioning, rows: &[u64], qs: [Question; QUESTIONS], n: usize) -> Asked
    requires { n ≤ 8 }
{
    let mut asked = qs;
    let answer = questions::answer(p, rows, &mut asked[0..n]);
    Asked {
        answer,
        questions: asked,
    }
}

// Asks the questions that the first words are, at most so many.
pub(crate) fn ask_words(p: Partitioning, rows: &[u64], ws: [u64; WORDS], n: u64) -> AskedWords {
    let mut words = ws;
    let answer = question_words::answer(p, rows, total::lent_mut(&mut words, n));
    AskedWords { answer, words }
}
