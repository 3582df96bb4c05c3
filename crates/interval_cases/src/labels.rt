// Labels: an odometer of letters beside the running numbers 1 to 20,000, the last labels of all, and labels in which a
// letter's place shows.
use crate::report;
use std::io;

// A mileage counter of letters: the first `count` bytes show A to Z, the others are 0.
#[derive(Clone, Copy)]
struct Odometer {
    bytes: [u8; 8],
    count: usize,
}

// The odometer while it is counted up: whether a wheel still has to move.
#[derive(Clone, Copy)]
struct Turning {
    bytes: [u8; 8],
    carry: bool,
}

#[derive(Clone, Copy)]
struct Labels {
    shown: Odometer,
    cases: u64,
    wrong: u64,
}

// One wheel: a letter moves on by one, and Z goes round to A and takes the next wheel with it.
fn turn(t: Turning, wheel: usize, count: usize) -> Turning {
    if !t.carry | (count <= wheel) {
        return t;
    }
    if 8 <= wheel {
        return t;
    }
    let mut bytes = t.bytes;
    let letter = bytes[wheel];
    if letter < 90 {
        bytes[wheel] = letter + 1;
        return Turning {
            bytes,
            carry: false,
        };
    }
    bytes[wheel] = 65;
    Turning { bytes, carry: true }
}

// The wheels from the last to the first.
fn turn_all(o: Odometer) -> Turning {
    let shown = o.bytes;
    let count = o.count;
    let mut t = Turning {
        bytes: shown,
        carry: true,
    };
    for wheel in (0..8).rev() {
        t = turn(t, wheel, count);
    }
    t
}

// One more on the odometer. If every wheel went round, it shows one letter more, an A like the others.
fn tick(o: Odometer) -> Odometer {
    let count = o.count;
    let t = turn_all(o);
    let mut bytes = t.bytes;
    if !t.carry {
        return Odometer { bytes, count };
    }
    if 8 <= count {
        return Odometer { bytes, count };
    }
    bytes[count] = 65;
    Odometer {
        bytes,
        count: count + 1,
    }
}

// The letters of the number are these bytes and no more.
fn spells(number: u64, o: Odometer) -> bool {
    let l = label::letters_of(number);
    let letters = l.bytes;
    let shown = o.bytes;
    if l.count != o.count as u64 {
        return false;
    }
    letters == shown
}

// The number of the first `count` of the bytes, 0 if there are not so many.
fn number_of_first(bytes: &[u8], count: usize) -> u64 {
    if count <= bytes.len() {
        label::label_number(&bytes[0..count])
    } else {
        0
    }
}

// The letters of the number are these, and these letters have that number.
fn agrees(number: u64, o: Odometer) -> bool {
    let shown = o.bytes;
    let count = o.count;
    if number_of_first(&shown, count) != number {
        return false;
    }
    spells(number, o)
}

fn one_label(l: Labels, number: u64) -> Labels {
    let before = l.shown;
    let shown = tick(before);
    Labels {
        shown,
        cases: report::more(l.cases),
        wrong: report::more_unless(agrees(number, shown), l.wrong),
    }
}

fn empty() -> Odometer {
    Odometer {
        bytes: [0u8; 8],
        count: 0,
    }
}

fn all_labels() -> Labels {
    let mut l = Labels {
        shown: empty(),
        cases: 0,
        wrong: 0,
    };
    for number in 1..=20_000 {
        l = one_label(l, number);
    }
    l
}

// The line labels: numbers, numbers that differ.
pub(crate) fn run(rt: &impl Print) -> io::Result<()> {
    let l = all_labels();
    report::name(rt, "labels")?;
    report::number(rt, l.cases)?;
    report::number(rt, l.wrong)?;
    report::end(rt)
}

// Seven Z and a last letter.
fn seven_z_and(letter: u8) -> Odometer {
    Odometer {
        bytes: [90, 90, 90, 90, 90, 90, 90, letter],
        count: 8,
    }
}

// The line ends: five cases at the ends of the range, and how many differ. They are ZZZZZZZY, what the odometer
// shows after it, ZZZZZZZZ, and that the numbers next to the range, one more and 0, have no letters.
pub(crate) fn run_ends(rt: &impl Print) -> io::Result<()> {
    let y = seven_z_and(89);
    let z = seven_z_and(90);
    let a = report::more_unless(agrees(217_180_147_157, y), 0);
    let b = report::more_unless(agrees(217_180_147_158, tick(y)), a);
    let c = report::more_unless(agrees(217_180_147_158, z), b);
    let d = report::more_unless(spells(217_180_147_159, empty()), c);
    let e = report::more_unless(spells(0, empty()), d);
    report::name(rt, "ends")?;
    report::number(rt, 5)?;
    report::number(rt, e)?;
    report::end(rt)
}

// The line places: the numbers of labels of eight letters, A but for a B at one place, from the first place to the
// last, then of eight letters that differ, and of the same from the last to the first.
pub(crate) fn run_places(rt: &impl Print) -> io::Result<()> {
    report::name(rt, "places")?;
    report::number(rt, label::label_number(b"BAAAAAAA"))?;
    report::number(rt, label::label_number(b"ABAAAAAA"))?;
    report::number(rt, label::label_number(b"AABAAAAA"))?;
    report::number(rt, label::label_number(b"AAABAAAA"))?;
    report::number(rt, label::label_number(b"AAAABAAA"))?;
    report::number(rt, label::label_number(b"AAAAABAA"))?;
    report::number(rt, label::label_number(b"AAAAAABA"))?;
    report::number(rt, label::label_number(b"AAAAAAAB"))?;
    report::number(rt, label::label_number(b"SPACEMUG"))?;
    report::number(rt, label::label_number(b"GUMECAPS"))?;
    report::end(rt)
}
