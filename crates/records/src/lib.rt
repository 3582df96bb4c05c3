// What is written to one partition (document 01: lane), which is lent as its own part of a store: a record appended,
// two swapped, one taken out, every word set to 0. What moves whole records is given their width. Cost: a record's
// words; of `clear`, the words lent. What is read of a part is in the crate `part`, and so are the definitions.
#![tactic(auto)]

ghost use Rattle.std.specs.Prelude.{◌≡◌, ◌+◌, ◌≤◌, ◌<◌, length, replicate};
ghost use Rattle.part.specs.Part.{room_of, counted, appended, copied, swapped, removed};

use encoding::Record;

// Appends a record: the count word one up, the record's words in the first free place.
pub fn append<R: Record>(part: &mut [u64], added: R)
    requires { room_of R.WIDTH (counted part.old + 1) ≤ length part.old }
    ensures { part.new ≡ appended R.WIDTH (R.to_words added) part.old }
{
    let held = part[0];
    part[0] = held + 1;
    added.write(part, 1 + R::WIDTH * (held as usize));
}

// Records a and b, each in the other's place.
pub fn swap(part: &mut [u64], width: usize, a: usize, b: usize)
    requires a_in_bounds { room_of width (a + 1) ≤ length part.old }
    requires b_in_bounds { room_of width (b + 1) ≤ length part.old }
    ensures { part.new ≡ swapped width a b part.old }
{
    let low = 1 + width * a;
    let high = 1 + width * b;
    // Word by word: with the library's `swap`, which tests its two places again, a lane took 1.6 times as long to sort.
    for j in 0..width {
        let below = part[low + j];
        let above = part[high + j];
        part[low + j] = above;
        part[high + j] = below;
    }
}

// Takes record k out: the last record's words go over it and become 0, the count word one down.
pub fn remove(part: &mut [u64], width: usize, k: usize)
    requires k_bound { k < counted part.old }
    requires part_in_bounds { room_of width (counted part.old) ≤ length part.old }
    ensures { part.new ≡ removed width k part.old }
{
    let held = part[0];
    let last = held as usize - 1;
    part[0] = held - 1;
    let at = 1 + width * last;
    let end = at + width;
    part.copy_within(at..end, 1 + width * k);
    part[at..end].fill(0);
}

// Sets every word to 0.
pub fn clear(words: &mut [u64])
    ensures { words.new ≡ replicate (length words.old) 0 }
{
    for i in 0..words.len() {
        words[i] = 0;
    }
}
