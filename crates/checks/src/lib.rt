// The checks of plan, stores and tuple, 1 to 8 and 17: those of one store by themselves, and all in the table's order
// over the three stores; and what a call answers. The definitions are in specs/Stores.
#![tactic(auto)]

ghost use Rattle.std.specs.Prelude.{true, ◌≡◌, length};
ghost use Rattle.refusal.specs.Refusal.{answer_number};
ghost use Rattle.plan.specs.Plan.{plan_number};
ghost use Rattle.store.specs.Store.{fits_tuples, fits_rows};
ghost use Rattle.checks.specs.Stores.{tuples_length, rows_length, tuples_unsound, rows_unsound};
ghost use Rattle.checks.specs.Stores.{stores, lengths_number, store_number, rows_number, given_number};
ghost use Rattle.checks.specs.Stores.{sides_lengths, sides_unsound, sides_number};

use interval::tuple::Tuple;
use plan::Partitioning;
use refusal::Refusal;

// The two counts of an accepted call: of a change the rows added or removed and the tuples looked at, of a sweep the
// rows written and the pairs compared.
#[derive(Clone, Copy, Debug, PartialEq, Eq)]
pub struct Counted {
    pub changed: u64,
    pub examined: u64,
}

// What a call answers: its two counts, or the refusal that applies first.
pub type Answer = Result<Counted, Refusal>;

// Check 4 of a tuple store of that length.
pub fn tuples_length(p: Partitioning, len: usize) -> Result<(), Refusal>
    requires { plan_number p ≡ 0 }
    ensures { answer_number result ≡ tuples_length p len }
{
    if !store::fits_tuples(p, len) {
        return Err(Refusal::Length);
    }
    Ok(())
}

// Check 4 of the rows store.
pub fn rows_length(p: Partitioning, len: usize) -> Result<(), Refusal>
    requires { plan_number p ≡ 0 }
    ensures { answer_number result ≡ rows_length p len }
{
    if !store::fits_rows(p, len) {
        return Err(Refusal::Length);
    }
    Ok(())
}

// Check 5 of a tuple store that passed check 4.
pub fn tuples_unsound(p: Partitioning, ws: &[u64]) -> Result<(), Refusal>
    requires { fits_tuples p (length ws.now) ≡ true }
    ensures { answer_number result ≡ tuples_unsound p ws.now }
{
    if !soundness::sound_tuples(p, ws) {
        return Err(Refusal::Unsound);
    }
    Ok(())
}

// Check 5 of the rows store.
pub fn rows_unsound(p: Partitioning, ws: &[u64]) -> Result<(), Refusal>
    requires { fits_rows p (length ws.now) ≡ true }
    ensures { answer_number result ≡ rows_unsound p ws.now }
{
    if !soundness::sound_rows(p, ws) {
        return Err(Refusal::Unsound);
    }
    Ok(())
}

// Checks 1 to 4 of a call that is lent the two tuple stores alone, of these lengths.
pub fn sides_lengths(p: Partitioning, outer: usize, inner: usize) -> Result<(), Refusal>
    ensures { answer_number result ≡ sides_lengths p outer inner }
{
    plan::plan_number(p)?;
    tuples_length(p, outer)?;
    tuples_length(p, inner)
}

// Check 5 of the two tuple stores, which passed check 4.
pub fn sides_unsound(p: Partitioning, outer: &[u64], inner: &[u64]) -> Result<(), Refusal>
    requires outer_value { fits_tuples p (length outer.now) ≡ true }
    requires inner_value { fits_tuples p (length inner.now) ≡ true }
    ensures { answer_number result ≡ sides_unsound p outer.now inner.now }
{
    tuples_unsound(p, outer)?;
    tuples_unsound(p, inner)
}

// Checks 1 to 4, for stores of these lengths.
pub fn lengths_number(
    p: Partitioning,
    outer: usize,
    inner: usize,
    rows: usize,
) -> Result<(), Refusal>
    ensures { answer_number result ≡ lengths_number p outer inner rows }
{
    sides_lengths(p, outer, inner)?;
    rows_length(p, rows)
}

// Checks 1 to 5.
pub fn store_number(
    p: Partitioning,
    outer: &[u64],
    inner: &[u64],
    rows: &[u64],
) -> Result<(), Refusal>
    ensures { answer_number result ≡ store_number p (stores outer.now inner.now rows.now) }
{
    lengths_number(p, outer.len(), inner.len(), rows.len())?;
    sides_unsound(p, outer, inner)?;
    rows_unsound(p, rows)
}

// Checks 1 to 5 of a call that is lent the two tuple stores alone.
pub fn sides_number(p: Partitioning, outer: &[u64], inner: &[u64]) -> Result<(), Refusal>
    ensures { answer_number result ≡ sides_number p outer.now inner.now }
{
    sides_lengths(p, outer.len(), inner.len())?;
    sides_unsound(p, outer, inner)
}

// Checks 1 to 5 of a call that is lent the rows store alone.
pub fn rows_number(p: Partitioning, rows: &[u64]) -> Result<(), Refusal>
    ensures { answer_number result ≡ rows_number p rows.now }
{
    plan::plan_number(p)?;
    rows_length(p, rows.len())?;
    rows_unsound(p, rows)
}

// The checks of a change that do not go by its kind: those of plan and stores, then those of its tuple.
pub fn given_number(
    p: Partitioning,
    t: Tuple,
    outer: &[u64],
    inner: &[u64],
    rows: &[u64],
) -> Result<(), Refusal>
    ensures { answer_number result ≡ given_number p t (stores outer.now inner.now rows.now) }
{
    store_number(p, outer, inner, rows)?;
    interval::tuple::tuple_number(t)
}
