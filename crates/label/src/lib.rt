// Labels (document 01, 'Minutes, labels, tuples'): the number of a label's letters, taken from a table of weights
// (document 02, (d)), the letters of a number, and the reader of a label field, which may hold small letters (document
// 02, (a)); letters are written as capitals.
//
// Every function takes any number and any bytes. Cost: a few operations for each letter, at most eight letters. The
// definitions that the promises cite are in specs/: Label, Weights. Their laws and the theorems about them are in
// proofs/: Labels, Fields, Weights.
#![tactic(auto)]

ghost use Rattle.std.specs.Prelude.{true, ◌≡◌, ◌∷◌, take};
ghost use Rattle.label.specs.Label.{rank, capital, number_or_none, LabelRead, LettersWritten};
ghost use Rattle.label.specs.Weights.{right_weights};

// The number of the largest label, ZZZZZZZZ.
pub const LABEL_END: u64 = 217_180_147_158;

// The weights of a label's letters, from the last letter's on: the powers of 26 from the zeroth to the seventh.
const WEIGHTS: [u64; 8] = [
    1,
    26,
    676,
    17_576,
    456_976,
    11_881_376,
    308_915_776,
    8_031_810_176,
];

// The letters of a label: the first `count` bytes; the others are 0. Bytes and a count, since there is no heap.
#[derive(Clone, Copy)]
pub struct Letters {
    pub bytes: [u8; 8],
    pub count: u64,
}

// The rank of a letter, from 1 to 26, or 0 for a byte that is no letter, as the definition `rank` has it.
fn rank_of(b: u8) -> u64
    ensures { result ≡ rank b }
{
    if b < 65 {
        return 0;
    }
    if 90 < b {
        return 0;
    }
    u64::from(b) - 64
}

// The capital of a small letter; any other byte is its own.
fn capital_of(b: u8) -> u8
    ensures { result ≡ capital b }
{
    if b < 97 {
        return b;
    }
    if 122 < b {
        return b;
    }
    b - 32
}

// The table, which passes the test of a whole table: the first weight 1, each other 26 times the one before.
fn weight_table() -> [u64; 8]
    ensures { right_weights result ≡ true }
{
    WEIGHTS
}

// The number of 1 to 8 letters, capital or small: each letter's rank times its weight, summed from the last letter on.
// 0 for any other bytes, as the definition `number_or_none` has it, of which the theorem about the weights speaks.
pub fn label_number(letters: &[u8]) -> u64
    ensures { result ≡ number_or_none letters.now }
{
    let len = letters.len();
    if len < 1 {
        return 0;
    }
    if 8 < len {
        return 0;
    }
    let weights = weight_table();
    let mut n: u64 = 0;
    for after in 0..len {
        let i = len - 1 - after;
        let letter = rank_of(capital_of(letters[i]));
        if letter == 0 {
            return 0;
        }
        n += letter * weights[after];
    }
    n
}

// The number of the label field with these bytes; None where they are no label (document 01: 15).
pub fn read_label(field: &[u8]) -> Option<u64>
    ensures { LabelRead field.now result }
{
    let n = label_number(field);
    if n == 0 {
        return None;
    }
    Some(n)
}

// The letters with b in front. There are at most seven of them: the last byte falls away.
fn before(b: u8, after: [u8; 8]) -> [u8; 8]
    ensures { result ≡ b ∷ take 7 after }
{
    [
        b, after[0], after[1], after[2], after[3], after[4], after[5], after[6],
    ]
}

// The letters of a number, for printing. A number of no label has none.
pub fn letters_of(number: u64) -> Letters
    ensures { LettersWritten number result }
{
    let mut bytes = [0u8; 8];
    let mut count: u64 = 0;
    if LABEL_END < number {
        return Letters { bytes, count };
    }
    let mut n = number;
    // By division until nothing is left: no counter bounds it.
    while n != 0 {
        let last = (n - 1) % 26;
        let longer = before(65 + last as u8, bytes);
        bytes = longer;
        count += 1;
        n = (n - 1) / 26;
    }
    Letters { bytes, count }
}
