// The plan that lane lines and `least` lines make (document 01, "Lines and the program"; document 02, (f)): the lanes
// taken so far, the plan of them, the words of the lent stores that they use, the checks of a lane line and of a
// `least` line, and the session with one lane more or with another minimum. Nothing has to be checked before calling:
// every answer is a definition's, for any session. No store is read or written: what a line does with the session and
// the stores is in `session`. The definitions are in specs/Lanes.antt.
#![tactic(auto)]

ghost use Rattle.std.specs.Prelude.{◌≡◌, min};
ghost use Rattle.refusal.specs.Refusal.{answer_number};
ghost use Rattle.session_plan.specs.Lanes.{fresh, plan_of, grown, with_minimum, used_partitions, used_tuples};
ghost use Rattle.session_plan.specs.Lanes.{used_rows, lane_check, least_check};

use interval::time::{CALENDAR_END, Chronon};
use interval::tuple::{ROW_WIDTH, TUPLE_WIDTH};
use plan::{PLACES, Partitioning};
use refusal::Refusal;

// The most lanes that the program takes.
pub const PARTITIONS: u64 = 8;

// The tuple capacity and the row capacity of a lane.
pub const TUPLES: u64 = 32;

pub const ROWS: u64 = 64;

// The lanes before the last that there may be.
const BEFORE_LAST: u64 = PARTITIONS - 1;

// The words of a lane of tuples, and of rows: the count and the records.
const TUPLE_ROOM: usize = 1 + TUPLE_WIDTH * TUPLES as usize;

const ROW_ROOM: usize = 1 + ROW_WIDTH * ROWS as usize;

// The words of a tuple store, and of the rows store, for the most lanes.
pub const TUPLE_WORDS: usize = PARTITIONS as usize * TUPLE_ROOM;

pub const ROW_WORDS: usize = PARTITIONS as usize * ROW_ROOM;

// The minimum of a session before its first `least` line.
const FIRST_MINIMUM: u64 = 1;

// The lane lines taken so far, the last minute of each, the fewest minutes of a row, and whether the last lane line
// completed the plan. `complete` stands by itself since `lane_check` and `with_lane` answer for any session, also for one
// whose lanes say otherwise; places and a count, since there is no heap.
#[derive(Clone, Copy)]
pub struct Session {
    pub lanes: u64,
    pub lasts: [Chronon; PLACES],
    pub minimum: u64,
    pub complete: bool,
}

// Before the first line.
pub fn start() -> Session
    ensures { result ≡ fresh }
{
    Session {
        lanes: 0,
        lasts: [Chronon(0); PLACES],
        minimum: FIRST_MINIMUM,
        complete: false,
    }
}

// The plan that the session's lanes make.
pub fn plan_of(s: Session) -> Partitioning
    ensures { result ≡ plan_of s }
{
    let lasts = s.lasts;
    Partitioning {
        count: s.lanes,
        lasts,
        tuples: TUPLES,
        rows: ROWS,
        minimum: s.minimum,
    }
}

// The lanes whose words are in use: the session's, at most the most.
fn used_partitions(s: Session) -> usize
    ensures { result ≡ used_partitions s }
{
    s.lanes.min(PARTITIONS) as usize
}

// The words in use of a tuple store of `len` words: those of the lanes, or all where there are fewer.
pub fn used_tuples(s: Session, len: usize) -> usize
    ensures { result ≡ min (used_tuples s) len }
{
    (used_partitions(s) * TUPLE_ROOM).min(len)
}

// The words in use of a rows store of `len` words: those of the lanes, or all where there are fewer.
pub fn used_rows(s: Session, len: usize) -> usize
    ensures { result ≡ min (used_rows s) len }
{
    (used_partitions(s) * ROW_ROOM).min(len)
}

// The checks of a lane line: 16 once the plan is complete, 2 for one that cannot be the next lane.
pub fn lane_check(s: Session, m: Chronon) -> Result<(), Refusal>
    ensures { answer_number result ≡ lane_check s m.0 }
{
    if s.complete {
        return Err(Refusal::OutOfTurn);
    }
    if PARTITIONS <= s.lanes {
        return Err(Refusal::Cuts);
    }
    if 0 < s.lanes {
        let lasts = s.lasts;
        let at = s.lanes as usize - 1;
        let before = lasts[at];
        if m.0 <= before.0 {
            return Err(Refusal::Cuts);
        }
    }
    if s.lanes < BEFORE_LAST {
        return Ok(());
    }
    if m.0 != CALENDAR_END {
        return Err(Refusal::Cuts);
    }
    Ok(())
}

// The session with one lane more; after the last that there may be there is no further one.
pub fn with_lane(s: Session, m: Chronon) -> Session
    ensures { result ≡ grown s m }
{
    if PARTITIONS <= s.lanes {
        return s;
    }
    let at = s.lanes as usize;
    let mut lasts = s.lasts;
    lasts[at] = m;
    Session {
        lanes: s.lanes + 1,
        lasts,
        complete: m.0 == CALENDAR_END,
        ..s
    }
}

// The checks of a `least` line: 16 once the plan is complete, 18 for a number out of range.
pub fn least_check(s: Session, minimum: u64) -> Result<(), Refusal>
    ensures { answer_number result ≡ least_check s minimum }
{
    let complete = s.complete;
    if complete {
        return Err(Refusal::OutOfTurn);
    }
    plan::minimum_check(minimum)
}

// The session with that minimum.
pub fn with_minimum(s: Session, minimum: u64) -> Session
    ensures { result ≡ with_minimum s minimum }
{
    Session { minimum, ..s }
}
