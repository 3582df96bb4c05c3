// The program's work on one line (document 01, "Lines and the program"): lane lines and `least` lines make the plan,
// the lane with 99999999 opens the wall, and then changes go to the join. Nothing has to be checked before calling:
// every line gets the first number of document 01's table that applies, for any session and any lent words. A refused
// line changes nothing. The lent stores may be longer than the plan needs: the words beyond the plan's lanes are
// neither read nor written. The definitions are in specs/Session.antt; the session, its plan and the checks of a lane
// line and of a `least` line are in `session_plan`. Cost: that of the call on the join.
#![tactic(auto)]

ghost use Rattle.std.specs.Prelude.{◌≡◌};
ghost use Rattle.refusal.specs.Refusal.{answer_number};
ghost use Rattle.checks.specs.Stores.{Stores, stores};
ghost use Rattle.lines.specs.Line.{line_of};
ghost use Rattle.lines.specs.declared.Line.TheVariants.{Lane, Least};
ghost use Rattle.session.specs.Session.{kind_of, side_of, WallOpening, WallChanging, SteppedBy};

use checks::Answer;
use interval::time::{CALENDAR_END, Chronon};
use interval::tuple::Tuple;
use join::Kind;
use lines::{Line, Word};
use refusal::Refusal;
use rows::Side;
use session_plan::Session;

// What a line gets: the session after it, or the refusal that applies first; the session then stays as it was.
pub type Stepped = Result<Session, Refusal>;

// Opens the wall of the session's plan, on the words in use.
fn open_wall(s: Session, outer: &mut [u64], inner: &mut [u64], rows: &mut [u64]) -> Answer
    ensures { WallOpening s
        (stores outer.old inner.old rows.old)
        (stores outer.new inner.new rows.new) (answer_number result) }
{
    let p = session_plan::plan_of(s);
    let a = session_plan::used_tuples(s, outer.len());
    let b = session_plan::used_tuples(s, inner.len());
    let c = session_plan::used_rows(s, rows.len());
    join::open(p, &mut outer[..a], &mut inner[..b], &mut rows[..c])
}

// A lane line.
fn take_lane(
    s: Session,
    m: Chronon,
    outer: &mut [u64],
    inner: &mut [u64],
    rows: &mut [u64],
) -> Stepped
    ensures { SteppedBy s (Lane m)
        (stores outer.old inner.old rows.old)
        (stores outer.new inner.new rows.new) result }
{
    session_plan::lane_check(s, m)?;
    let after = session_plan::with_lane(s, m);
    if m.0 != CALENDAR_END {
        return Ok(after);
    }
    open_wall(after, outer, inner, rows)?;
    Ok(after)
}

// A `least` line: no store is read or written.
fn take_least(s: Session, minimum: u64) -> Stepped
    ensures { (S : Stores) → SteppedBy s (Least minimum) S S result }
{
    session_plan::least_check(s, minimum)?;
    Ok(session_plan::with_minimum(s, minimum))
}

// The kind of change that a word asks for: `in` inserts, `out` deletes.
fn kind_of(word: Word) -> Kind
    ensures { result ≡ kind_of word }
{
    match word {
        Word::DrawIn => Kind::Insert,
        Word::DrawOut => Kind::Delete,
        Word::SpotIn => Kind::Insert,
        Word::SpotOut => Kind::Delete,
    }
}

// The side that it concerns: `draw` the outer, `spot` the inner.
fn side_of(word: Word) -> Side
    ensures { result ≡ side_of word }
{
    match word {
        Word::DrawIn => Side::Outer,
        Word::DrawOut => Side::Outer,
        Word::SpotIn => Side::Inner,
        Word::SpotOut => Side::Inner,
    }
}

// A change, on the words in use.
fn change_on(
    s: Session,
    word: Word,
    t: Tuple,
    outer: &mut [u64],
    inner: &mut [u64],
    rows: &mut [u64],
) -> Answer
    ensures { WallChanging s word t
        (stores outer.old inner.old rows.old)
        (stores outer.new inner.new rows.new) (answer_number result) }
{
    if !s.complete {
        return Err(Refusal::OutOfTurn);
    }
    let kind = kind_of(word);
    let side = side_of(word);
    let p = session_plan::plan_of(s);
    let a = session_plan::used_tuples(s, outer.len());
    let b = session_plan::used_tuples(s, inner.len());
    let c = session_plan::used_rows(s, rows.len());
    join::change(
        kind,
        p,
        side,
        t,
        &mut outer[..a],
        &mut inner[..b],
        &mut rows[..c],
    )
}

// The work on a line that was read.
pub fn step_value(
    s: Session,
    line: Line,
    outer: &mut [u64],
    inner: &mut [u64],
    rows: &mut [u64],
) -> Stepped
    ensures { SteppedBy s line
        (stores outer.old inner.old rows.old)
        (stores outer.new inner.new rows.new) result }
{
    match line {
        Line::Lane(m) => take_lane(s, m, outer, inner, rows),
        Line::Least(minimum) => take_least(s, minimum),
        Line::Change(word, t) => {
            change_on(s, word, t, outer, inner, rows)?;
            Ok(s)
        }
        Line::Malformed => Err(Refusal::Malformed),
    }
}

// The work on a line, given the bytes before its byte 10.
pub fn step(
    s: Session,
    line: &[u8],
    outer: &mut [u64],
    inner: &mut [u64],
    rows: &mut [u64],
) -> Stepped
    ensures { SteppedBy s (line_of line.now)
        (stores outer.old inner.old rows.old)
        (stores outer.new inner.new rows.new) result }
{
    let value = lines::read_line(line);
    step_value(s, value, outer, inner, rows)
}
