// The number theoretic transform of δ rows of 256 numbers, forward and inverse, in place, by columns, twist and rows (003 section 3.2.2, algorithms 36
// and 37), for odd moduli below 2^24. The numbers between the steps are below small multiples of q; what comes out are residues.
#![tactic(auto)]

ghost use Rattle.std.specs.Prelude.{◌≡◌, ℕ, ◌+◌, ◌*◌, ◌^◌, ◌≤◌, ◌<◌, length, take};
ghost use Rattle.maths.specs.Vector.{at, AllBelow};
ghost use Rattle.maths.specs.Sum.{sum};
ghost use Rattle.maths.specs.Congruence.{Mod};
ghost use Rattle.maths.specs.Transform.{send, recover};
ghost use Rattle.calls.specs.Region.{region};
ghost use Rattle.ntt_tables.specs.Tables.{Ready, Tables};
ghost use Rattle.ntt.specs.Rows.{RowsReady, RowReplaced, RowGiven, RowTurned, RowAt, RowsGiven, RowsTurned, InverseRows, first_row_at};

use montgomery::Reducer;

// Which transform a row is part of: a forward one, with the scaled form of the factor at its end, or an inverse one.
#[derive(Clone, Copy)]
enum Direction {
    Forward(u32),
    Inverse,
}

// Transforms a row, in place, with the powers of its twist and those of the row.
fn turn_row(x: &mut [u32], twist: &[u32], powers: &[u32], direction: Direction, reducer: Reducer)
    requires { RowGiven reducer.q direction twist.now powers.now x.old }
    ensures { RowTurned reducer.q direction twist.now powers.now x.old x.new }
{
    match direction {
        Direction::Forward(by) => ntt_rows::forward_row(x, twist, powers, by, reducer),
        Direction::Inverse => ntt_rows::inverse_row(x, twist, powers, reducer),
    }
}

// Transforms row `r`, in place.
fn turn_row_at(
    x: &mut [u32],
    tables: &[u32],
    direction: Direction,
    r: usize,
    rows: usize,
    reducer: Reducer,
)
    requires { RowsReady reducer.q rows tables.now x.old × (r < rows)
        × RowGiven reducer.q direction (region tables.now (r * 256) 256) (region tables.now (rows * 256) 264) (region x.old (r * 256) 256) }
    ensures { RowReplaced (RowAt reducer.q direction rows tables.now r) r x.old x.new }
{
    let start = r * 256;
    let end = start + 256;
    let row = rows * 256;
    let row_end = row + 264;
    turn_row(
        &mut x[start..end],
        &tables[start..end],
        &tables[row..row_end],
        direction,
        reducer,
    );
}

// Transforms each row.
fn turn_rows(x: &mut [u32], tables: &[u32], direction: Direction, rows: usize, reducer: Reducer)
    requires { RowsReady reducer.q rows tables.now x.old × RowsGiven reducer.q rows direction x.old }
    ensures { RowsTurned reducer.q direction rows tables.now x.old x.new }
{
    for r in 0..rows {
        turn_row_at(x, tables, direction, r, rows, reducer);
    }
}

// Transforms and twists each row.
pub fn inverse_rows(x: &mut [u32], tables: &[u32], rows: usize, reducer: Reducer)
    requires { RowsReady reducer.q rows tables.now x.old × AllBelow (2 * reducer.q) (rows * 256) x.old }
    ensures { InverseRows reducer.q rows tables.now x.old x.new }
{
    turn_rows(x, tables, Direction::Inverse, rows, reducer);
}

// The transform of the first `m` rows of `x`, with zeros for the others, stored in the order of 003: row `r`, column `c` is value r + δ · c. The twist
// multiplies by powers that are not in scaled form, for which the factor at the end makes up.
pub fn forward(x: &mut [u32], tables: &[u32], m: usize, rows: usize, q: u32)
    requires { Ready q rows tables.now × (m ≤ rows) × (length x.old ≡ rows * 256) × AllBelow q (m * 256) x.old }
    ensures { (w : ℕ) → Tables q rows w tables.now → x.new ≡ send q 256 rows w (take (m * 256) x.old) }
{
    let reducer = Reducer::new(q);
    let by = montgomery::scaled_scale(q);
    let columns = rows * 256 + 264;
    ntt_columns::columns(x, &tables[columns..], m, rows, rows, reducer);
    turn_rows(x, tables, Direction::Forward(by), rows, reducer);
}

// The first `m` rows of what a stored vector was made from: the transform with the inverse of the root it was sent with, scaled by any e of which `by` is
// the residue of e · 2^64. The numbers after them are left in between.
pub fn inverse(x: &mut [u32], tables: &[u32], by: u32, m: usize, rows: usize, q: u32)
    requires { Ready q rows tables.now × (m ≤ rows) × (length x.old ≡ rows * 256) × AllBelow (2 * q) (rows * 256) x.old × (by < q) }
    ensures { (w e : ℕ) → Tables q rows w tables.now → Mod q by (e * 2 ^ 64)
        → take (m * 256) x.new ≡ recover q 256 rows w e (m * 256) x.old }
{
    let reducer = Reducer::new(q);
    let columns = rows * 256 + 264;
    let end = m * 256;
    inverse_rows(x, tables, rows, reducer);
    ntt_columns::columns(x, &tables[columns..], rows, m, rows, reducer);
    ntt_settle::settle(&mut x[0..end], by, reducer);
}

// The sum of the numbers of column `c`.
fn column_total(x: &[u32], c: usize, rows: usize) -> u32
    requires { (c < 256) × (rows ≤ 16) × (length x.now ≡ rows * 256) × AllBelow (2 ^ 25) (rows * 256) x.now }
    ensures { result ≡ sum rows (λ n. at x.now (n * 256 + c)) }
{
    let mut total: u32 = 0;
    for n in 0..rows {
        total += x[n * 256 + c];
    }
    total
}

// Place `c` of the first row of what a stored vector was made from, out of its rows as `inverse_rows` leaves them: what `inverse` writes there.
pub fn first_row_place(x: &[u32], c: usize, by: u32, rows: usize, reducer: Reducer) -> u32
    requires { (by < reducer.q) × (c < 256) × (rows ≤ 16) × (length x.now ≡ rows * 256) × AllBelow (2 * reducer.q) (rows * 256) x.now }
    ensures { result ≡ first_row_at reducer.q by rows x.now c }
{
    let total = column_total(x, c, rows);
    ntt_settle::settle_number(total, by, reducer)
}
