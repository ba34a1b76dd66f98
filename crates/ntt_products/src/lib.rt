// Products that go through the transforms, for every parameter set (003 section 3.2; algorithms 40 to 42).
// A vector is lent with the places of a transform; `tables` holds those of its root, or of the inverse of its root.
#![tactic(auto)]

ghost use Rattle.std.specs.Prelude.{◌≡◌, map, ℕ, ◌+◌, ◌≤◌, ◌<◌, length, take};
ghost use Rattle.maths.specs.Root.{power_table};
ghost use Rattle.maths.specs.Transform.{send, recover};
ghost use Rattle.maths.specs.Vector.{AllBelow};
ghost use Rattle.calls.specs.Region.{over};
ghost use Rattle.sets.specs.Table.{Listed};
ghost use Rattle.sets.specs.Derived.{transform_size_of};
ghost use Rattle.sets.specs.Rules.{Rules, ByteRules};
ghost use Rattle.montgomery.specs.Scaled.{scale, Odd};
ghost use Rattle.ntt_products.specs.Stored.{row_count, size_inverse_of, row_scale, inverse_powers, sent, sent_inverse, recovered_inverse, recovered};
ghost use Rattle.ntt_products.specs.Stored.{unscaled, products, accumulated, correlations};
ghost use Rattle.ntt_products.specs.Placed.{Placed, SentScaled, table_length_of, SetLent, SetTables, RootTables, InverseTables};
ghost use Rattle.ntt_products.specs.Placed.{TablesOf, root_of, RowsRecovered};

use montgomery::Reducer;
use sets::Parameters;

// Which root a transform goes with: root number i of a set, or its inverse.
#[derive(Clone, Copy)]
pub enum WhichRoot {
    Own,
    Inverse,
}

// Multiplies each number of `x` by the one that the number of `y` at its place is the scaled form of.
fn multiply(x: &mut [u32], y: &[u32], reducer: Reducer)
    requires { (length y.now ≡ length x.old) × AllBelow reducer.q (length x.old) y.now }
    ensures { x.new ≡ products reducer.q x.old y.now }
{
    for (j, number) in x.iter_mut().enumerate() {
        *number = ntt_settle::settle_number(*number, y[j], reducer);
    }
}

// Adds to each number of `total` the product of the numbers at its place: the one of `y`, and the one that `x` has the scaled form of.
pub fn accumulate(total: &mut [u32], x: &[u32], y: &[u32], reducer: Reducer)
    requires { (length x.now ≡ length total.old) × (length y.now ≡ length total.old)
        × AllBelow reducer.q (length total.old) total.old × AllBelow reducer.q (length total.old) x.now }
    ensures { total.new ≡ accumulated reducer.q total.old (unscaled reducer.q x.now) y.now }
{
    for (j, sum) in total.iter_mut().enumerate() {
        let product = ntt_settle::settle_number(y[j], x[j], reducer);
        *sum = residues::add(*sum, product, reducer.q);
    }
}

// Brings the first `n` numbers of `x` into scaled form.
fn scale_first(x: &mut [u32], n: usize, q: u32)
    requires { Odd q × (n ≤ length x.old) }
    ensures { x.new ≡ over x.old 0 (map (scale q) (take n x.old)) }
{
    let by = montgomery::scaled_scale(q);
    ntt_settle::settle(&mut x[0..n], by, Reducer::new(q));
}

// The rows of transform number i.
pub fn rows_of(p: Parameters, i: usize) -> usize
    requires { Rules p }
    ensures { result ≡ row_count p i }
{
    sets::derived::transform_size(p, i) / p.row
}

// The inverse of the size of transform number i, modulo q.
pub fn size_inverse_of(p: Parameters, i: usize) -> u32
    requires { Rules p }
    ensures { result ≡ size_inverse_of p i }
{
    let size = sets::derived::transform_size(p, i) as u32;
    p.q - (p.q - 1) / size
}

// The same in scaled form: it makes up for products of which one factor was taken for a number in scaled form.
fn scaled_inverse_of(p: Parameters, i: usize) -> u32
    requires { Rules p }
    ensures { result ≡ scale p.q (size_inverse_of p i) }
{
    residues::multiply(size_inverse_of(p, i), montgomery::scaled_one(p.q), p.q)
}

// The inverse of the size with the factor that the rows of an inverse transform leave to its end.
pub fn row_scale_of(p: Parameters, i: usize) -> u32
    requires { Rules p }
    ensures { result ≡ row_scale p i }
{
    ntt_by_row::scaled_twice(size_inverse_of(p, i), p.q)
}

// Fills `out` with the powers of the inverse of root number i of a set.
pub fn load_inverse_powers(p: Parameters, i: usize, out: &mut [u32])
    requires { Listed p × (length out.old ≡ transform_size_of p i) }
    ensures { out.new ≡ inverse_powers p i }
{
    roots::load_powers(p, i, out);
    ntt_tables::invert_powers(out);
}

// How many places the tables of transform number i of a set have.
pub fn table_length(p: Parameters, i: usize) -> usize
    requires { Listed p }
    ensures { result ≡ table_length_of p i }
{
    sets::derived::transform_size(p, i) + 264 + rows_of(p, i)
}

// Fills `out` with the powers of either root.
fn load_powers(p: Parameters, i: usize, which: WhichRoot, out: &mut [u32])
    requires { Listed p × (length out.old ≡ transform_size_of p i) }
    ensures { out.new ≡ power_table p.q (root_of which p i) (transform_size_of p i) }
{
    match which {
        WhichRoot::Own => roots::load_powers(p, i, out),
        WhichRoot::Inverse => load_inverse_powers(p, i, out),
    }
}

// Fills `out` with the tables of root number i of a set, or of its inverse.
pub fn load_tables(p: Parameters, i: usize, which: WhichRoot, out: &mut [u32])
    requires { Listed p × (length out.old ≡ table_length_of p i) }
    ensures { TablesOf which p i out.new }
{
    let size = sets::derived::transform_size(p, i);
    load_powers(p, i, which, &mut out[0..size]);
    ntt_by_row::fill_tables(out, rows_of(p, i), p.row, p.q);
}

// Sends the first `n` numbers of `x`, with zeros for the others, with the root whose tables are lent.
fn send_front(p: Parameters, i: usize, tables: &[u32], x: &mut [u32], n: usize)
    requires { Rules p × SetLent p i tables.now × Placed p i n x.old }
    ensures { (w : ℕ) → SetTables p i w tables.now → x.new ≡ send p.q p.row (row_count p i) w (take n x.old) }
{
    ntt_by_row::forward(x, tables, n, rows_of(p, i), p.row, p.q);
}

// Sends the first `n` numbers of `x` with root number i of a set or with its inverse, whichever the tables are of.
pub fn send_first(p: Parameters, i: usize, tables: &[u32], x: &mut [u32], n: usize)
    requires { Listed p × SetLent p i tables.now × Placed p i n x.old }
    ensures root { RootTables p i tables.now → x.new ≡ sent p i (take n x.old) }
    ensures inverse { InverseTables p i tables.now → x.new ≡ sent_inverse p i (take n x.old) }
{
    send_front(p, i, tables, x, n);
}

// Sends the first `n` numbers of `x` with root number i of a set and leaves them in scaled form, as `accumulate` takes them.
pub fn send_first_scaled(p: Parameters, i: usize, tables: &[u32], x: &mut [u32], n: usize)
    requires { Listed p × RootTables p i tables.now × Placed p i n x.old }
    ensures { SentScaled p i (take n x.old) x.new }
{
    scale_first(x, n, p.q);
    send_first(p, i, tables, x, n);
}

// Recovers the first `m` numbers of a stored vector with the root whose tables are lent, scaled by `e`.
fn recover_front(p: Parameters, i: usize, tables: &[u32], x: &mut [u32], e: u32, m: usize)
    requires { Rules p × SetLent p i tables.now × Placed p i (transform_size_of p i) x.old × (e < p.q) × (m ≤ transform_size_of p i) }
    ensures { (w : ℕ) → SetTables p i w tables.now
        → take m x.new ≡ recover p.q p.row (row_count p i) w e m x.old }
{
    ntt_by_row::inverse(x, tables, e, m, rows_of(p, i), p.row, p.q);
}

// The rows of a vector that is stored with the inverse of root number i of a set, on the way back: the sums of the columns recover its first row.
pub fn recover_rows(p: Parameters, i: usize, tables: &[u32], x: &mut [u32])
    requires { ByteRules p × Listed p × RootTables p i tables.now × Placed p i (transform_size_of p i) x.old }
    ensures { RowsRecovered p i x.old x.new }
{
    ntt::inverse_rows(x, tables, rows_of(p, i), Reducer::new(p.q));
}

// Recovers the first `m` numbers of a vector that is stored with root number i of a set or with its inverse: the tables are of the other of the two.
pub fn recover_first(p: Parameters, i: usize, tables: &[u32], x: &mut [u32], m: usize)
    requires { Listed p × SetLent p i tables.now × Placed p i (transform_size_of p i) x.old
        × (m ≤ transform_size_of p i) }
    ensures root { InverseTables p i tables.now → take m x.new ≡ recovered p i m x.old }
    ensures inverse { RootTables p i tables.now → take m x.new ≡ recovered_inverse p i m x.old }
{
    recover_front(p, i, tables, x, size_inverse_of(p, i), m);
}

// The first `m` correlations of the first `n` numbers of `x` with the vector that is stored with the inverse of root number i of a set.
pub fn correlate(
    p: Parameters,
    i: usize,
    tables: &[u32],
    x: &mut [u32],
    n: usize,
    stored: &[u32],
    m: usize,
)
    requires { Listed p × RootTables p i tables.now × Placed p i n x.old × (0 < n)
        × Placed p i (transform_size_of p i) stored.now × (n + m ≤ transform_size_of p i + 1) }
    ensures { take m x.new
        ≡ correlations p.q (take n x.old)
        (recovered_inverse p i (transform_size_of p i) stored.now) m }
{
    send_front(p, i, tables, x, n);
    multiply(x, stored, Reducer::new(p.q));
    recover_front(p, i, tables, x, scaled_inverse_of(p, i), m);
}
