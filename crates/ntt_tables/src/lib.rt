// The tables of a transform with rows of 256 numbers: the powers of the root in the order in which the transform takes them. They are made in place, from
// the powers of the root one after the other.
#![tactic(auto)]

ghost use Rattle.std.specs.Prelude.{◌≡◌, ℕ, ◌+◌, ◌*◌, ◌/◌, ◌%◌, ◌^◌, ◌≤◌, ◌<◌, length};
ghost use Rattle.maths.specs.Vector.{AllBelow};
ghost use Rattle.montgomery.specs.Scaled.{unscale, Odd};
ghost use Rattle.ntt_tables.specs.Tables.{tables_length, Powers, Ready, Tables};
ghost use Rattle.ntt_tables.specs.Inverted.{InvertedTable};
ghost use Rattle.ntt_tables.specs.Steps.{Filled, TwistedRow, Twisted};

use montgomery::Reducer;

// The scaled form of a residue; `by` is the scaled form of 2^32.
fn scaled(x: u32, by: u32, reducer: Reducer) -> u32
    requires { (by ≡ 2 ^ 64 % reducer.q) × (x < reducer.q) }
    ensures { (unscale reducer.q result ≡ x) × (result < reducer.q) }
{
    ntt_settle::settle_number(x, by, reducer)
}

// Writes `n` powers from `start` on, in scaled form: power i is the one that stands, before `start`, at the place that `place` gives for i.
fn fill_powers<F: Fn(usize) -> usize>(
    tables: &mut [u32],
    start: usize,
    n: usize,
    place: F,
    by: u32,
    reducer: Reducer,
)
    requires numbers { (by ≡ 2 ^ 64 % reducer.q) × (start + n ≤ length tables.old) × (start ≤ 8192) × AllBelow reducer.q start tables.old }
    requires callable { (i : ℕ) → i < n → F.pre place i }
    requires before { (i j : ℕ) → i < n → F.post place i j → j < start }
    ensures { (from : ℕ → ℕ) → ((i j : ℕ) → i < n → F.post place i j → j ≡ from i) → Filled reducer.q start n from tables.old tables.new }
{
    for i in 0..n {
        let power = tables[place(i)];
        tables[start + i] = scaled(power, by, reducer);
    }
}

// Writes the powers of the twist of row `r` in its places; all of them stand before that row.
fn twist_row(tables: &mut [u32], r: usize)
    requires { (r < 16) × (r * 256 + 256 ≤ length tables.old) }
    ensures { TwistedRow r tables.old tables.new }
{
    let start = r * 256;
    for c in 0..256 {
        tables[start + c] = tables[r * c];
    }
}

// Writes the powers of the twist of each row, the last row first, so that no power is gone before it is read.
fn twist_rows(tables: &mut [u32], rows: usize)
    requires { (rows ≤ 16) × (rows * 256 ≤ length tables.old) }
    ensures { Twisted rows tables.old tables.new }
{
    for r in (0..rows).rev() {
        twist_row(tables, r);
    }
}

// Makes the tables of a transform out of the powers of its root, which stand at the front.
pub fn fill_tables(tables: &mut [u32], rows: usize, q: u32)
    requires { Odd q × (0 < rows) × (rows ≤ 16) × (length tables.old ≡ tables_length rows) × AllBelow q (rows * 256) tables.old }
    ensures ready { Ready q rows tables.new }
    ensures tables { (w : ℕ) → Powers q rows w tables.old → Tables q rows w tables.new }
{
    let reducer = Reducer::new(q);
    let by = montgomery::scaled_scale(q);
    let size = rows * 256;
    fill_powers(
        tables,
        size,
        256,
        move |i| rows * (i / 16 * (i % 16)),
        by,
        reducer,
    );
    fill_powers(tables, size + 256, 8, move |i| 16 * rows * i, by, reducer);
    fill_powers(tables, size + 264, rows, |i| 256 * i, by, reducer);
    twist_rows(tables, rows);
}

// Turns a table of the powers of a root into that of the powers of its inverse: each place but the first takes the number as far from the end.
pub fn invert_powers(powers: &mut [u32])
    ensures { InvertedTable powers.old powers.new }
{
    if let [_, later @ ..] = powers {
        later.reverse();
    }
}
