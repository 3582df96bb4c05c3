// Records on words, read and written: the trait `Record`, and tuples and rows, whose words are defined in the crate
// `interval`, specs/Tuple. No other code knows where a word of a tuple or of a row stands. Each method asks by its
// `requires` that the words are there. Cost: a record's words.
#![tactic(auto)]

ghost use Rattle.std.specs.Prelude.{◌≡◌, ◌+◌, ◌≤◌, List, ℕ, length};
ghost use Rattle.std.proofs.Common.{lit≤};
ghost use Rattle.std.proofs.lemmas.List.Edits.{sets};
ghost use Rattle.lists.specs.Words.{part_at};
ghost use Rattle.interval.specs.Tuple.{tuple_width, tuple_of, tuple_words, row_width, row_of, row_words};

use interval::time::{Chronon, Interval};
use interval::tuple::{ROW_WIDTH, Row, TUPLE_WIDTH, Tuple};

// A record that stands on a fixed number of words.
pub trait Record: Copy {
    // How many words a record has.
    const WIDTH: usize;

    ghost WIDTH: { ℕ };

    // The record that these words make, and the words of a record.
    ghost of_words: { List ℕ → Self };

    ghost to_words: { Self → List ℕ };

    // The record whose words stand from place `at` on.
    fn read(words: &[u64], at: usize) -> Self
        requires { at + WIDTH ≤ length words.now }
        ensures { result ≡ of_words (part_at at WIDTH words.now) };

    // Writes the record's words from place `at` on.
    fn write(self, words: &mut [u64], at: usize)
        requires { at + WIDTH ≤ length words.old }
        ensures { words.new ≡ sets words.old at (to_words self) };

    ghost has_words: { 1 ≤ WIDTH };
}

impl Record for Tuple {
    const WIDTH: usize = TUPLE_WIDTH;

    ghost WIDTH = { tuple_width };

    ghost of_words = { tuple_of };

    ghost to_words = { tuple_words };

    ghost has_words = { lit≤ tt };

    fn read(words: &[u64], at: usize) -> Tuple {
        Tuple {
            label: words[at],
            item: words[at + 1],
            valid: Interval {
                first: Chronon(words[at + 2]),
                last: Chronon(words[at + 3]),
            },
        }
    }

    fn write(self, words: &mut [u64], at: usize) {
        words[at] = self.label;
        words[at + 1] = self.item;
        words[at + 2] = self.valid.first.0;
        words[at + 3] = self.valid.last.0;
    }
}

impl Record for Row {
    const WIDTH: usize = ROW_WIDTH;

    ghost WIDTH = { row_width };

    ghost of_words = { row_of };

    ghost to_words = { row_words };

    ghost has_words = { lit≤ tt };

    fn read(words: &[u64], at: usize) -> Row {
        Row {
            label: words[at],
            outer: words[at + 1],
            inner: words[at + 2],
            valid: Interval {
                first: Chronon(words[at + 3]),
                last: Chronon(words[at + 4]),
            },
        }
    }

    fn write(self, words: &mut [u64], at: usize) {
        words[at] = self.label;
        words[at + 1] = self.outer;
        words[at + 2] = self.inner;
        words[at + 3] = self.valid.first.0;
        words[at + 4] = self.valid.last.0;
    }
}
