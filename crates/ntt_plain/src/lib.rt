// The number theoretic transform of any number of rows of any length by written-out sums, for any odd modulus below 2^24: columns, twist and rows (003
// section 3.2.2, algorithms 36 and 37). Rows of other lengths than 256 go this way, those of set 0 among them. Each step divides by 2^32 on the way and keeps
// its numbers below 2 · q; residues are made once, at the end, by a factor that makes up for these divisions.
#![tactic(auto)]

ghost use Rattle.std.specs.Prelude.{◌≡◌, ℕ, ◌*◌, ◌/◌, ◌%◌, ◌^◌, ◌≤◌, ◌<◌, length};
ghost use Rattle.maths.specs.Root.{power_table};
ghost use Rattle.maths.specs.Congruence.{Mod};
ghost use Rattle.maths.specs.Transform.{send, recover};
ghost use Rattle.ntt_plain.specs.Plain.{strided_sum_of, Summable, columns, twisted, rows, Plain, Lazily};

use montgomery::Reducer;

// The sum of `count` numbers, `stride` places apart from `first` on, each times a power of the root; the exponents are `step` apart.
fn strided_sum(
    x: &[u32],
    first: usize,
    stride: usize,
    count: usize,
    powers: &[u32],
    step: usize,
) -> u64
    requires { Summable x.now first stride count powers.now step }
    ensures { result ≡ strided_sum_of x.now first stride count powers.now step }
{
    let mut total: u64 = 0;
    // the place is carried along: a product for each takes 5 to 13 % more instructions
    let mut place = first;
    let mut power: usize = 0;
    for _ in 0..count {
        total += residues::product(x[place], powers[power]);
        place += stride;
        power = residues::advance(power, step, powers.len());
    }
    total
}

// Fills `to` with values of the transforms of the columns of `x`, which has `m` rows; each is divided by 2^32 on the way.
// `s` is the remainder of 2^64 by q, which the reduction needs.
fn fill_columns(
    to: &mut [u32],
    x: &[u32],
    powers: &[u32],
    m: usize,
    row: usize,
    s: u32,
    reducer: Reducer,
)
    requires { Plain reducer.q row powers.now x.now × (length x.now ≡ m * row) × (length to.old ≤ length powers.now)
        × (s ≡ 2 ^ 64 % reducer.q) }
    ensures { Lazily reducer.q (columns reducer.q row m (length to.old) powers.now x.now) to.new }
{
    for (i, number) in to.iter_mut().enumerate() {
        let sum = strided_sum(x, i % row, row, m, powers, i / row * row);
        *number = montgomery::long_step(sum, s, reducer);
    }
}

// The exponent of the twist at a place: its row times its column.
fn twist_exponent(i: usize, row: usize) -> usize
    requires { 0 < row }
    ensures { (result ≡ i / row * (i % row)) × (result ≤ i) }
{
    i / row * (i % row)
}

// Multiplies each number by the power of its row and column; each is divided by 2^32 on the way.
fn twist(x: &mut [u32], powers: &[u32], row: usize, reducer: Reducer)
    requires { Plain reducer.q row powers.now x.old }
    ensures { Lazily reducer.q (twisted reducer.q row powers.now x.old) x.new }
{
    for (i, number) in x.iter_mut().enumerate() {
        let exponent = twist_exponent(i, row);
        *number = montgomery::product(*number, powers[exponent], reducer);
    }
}

// Fills `to` with the transform of each row of `x`; each number is divided by 2^32 on the way, with `s` as above.
fn fill_rows(
    to: &mut [u32],
    x: &[u32],
    powers: &[u32],
    count: usize,
    row: usize,
    s: u32,
    reducer: Reducer,
)
    requires { Plain reducer.q row powers.now x.now × (length x.now ≡ count * row) × (length powers.now ≡ length x.now)
        × (length to.old ≡ length x.now) × (s ≡ 2 ^ 64 % reducer.q) }
    ensures { Lazily reducer.q (rows reducer.q row count powers.now x.now) to.new }
{
    for (i, number) in to.iter_mut().enumerate() {
        let sum = strided_sum(x, i / row * row, 1, row, powers, i % row * count);
        *number = montgomery::long_step(sum, s, reducer);
    }
}

// The factor that the numbers are settled with: `e`, with what makes up for the divisions by 2^32 of three steps and of the settling.
fn settling_factor(e: u32, s: u32, reducer: Reducer) -> u32
    requires { s ≡ 2 ^ 64 % reducer.q }
    ensures { (result < reducer.q) × Mod reducer.q result (e * 2 ^ 128) }
{
    let once = montgomery::product(e, s, reducer);
    let twice = montgomery::product(once, s, reducer);
    let thrice = montgomery::product(twice, s, reducer);
    ntt_settle::settle_number(thrice, s, reducer)
}

// The transform of `m` rows, stored in the order of 003; `between` is lent for what comes before the rows.
pub fn forward_with_buffer(
    out: &mut [u32],
    x: &[u32],
    powers: &[u32],
    m: usize,
    count: usize,
    row: usize,
    q: u32,
    between: &mut [u32],
)
    requires { Plain q row powers.now x.now × (length x.now ≡ m * row) × (m ≤ count) × (length powers.now ≡ count * row)
        × (length out.old ≡ length powers.now) × (length between.old ≡ length powers.now) }
    ensures { (w : ℕ) → powers.now ≡ power_table q w (length powers.now) → Mod q (w ^ length powers.now) 1
        → out.new ≡ send q row count w x.now }
{
    let reducer = Reducer::new(q);
    let s = montgomery::scaled_scale(q);
    let by = settling_factor(1, s, reducer);
    fill_columns(between, x, powers, m, row, s, reducer);
    twist(between, powers, row, reducer);
    fill_rows(out, between, powers, count, row, s, reducer);
    ntt_settle::settle(out, by, reducer);
}

// The first rows of what a stored vector was made from, as many as `out` has, each number times `e`: the transform with the root whose powers are lent.
pub fn inverse_with_buffer(
    out: &mut [u32],
    x: &[u32],
    powers: &[u32],
    e: u32,
    count: usize,
    row: usize,
    q: u32,
    between: &mut [u32],
)
    requires { Plain q row powers.now x.now × (length x.now ≡ count * row) × (length powers.now ≡ length x.now) × (e < q)
        × (length out.old ≤ length x.now) × (length between.old ≡ length x.now) }
    ensures { (w m : ℕ) → powers.now ≡ power_table q w (length powers.now) → Mod q (w ^ length powers.now) 1
        → length out.old ≡ m * row → m ≤ count → out.new ≡ recover q row count w e (m * row) x.now }
{
    let reducer = Reducer::new(q);
    let s = montgomery::scaled_scale(q);
    let by = settling_factor(e, s, reducer);
    fill_rows(between, x, powers, count, row, s, reducer);
    twist(between, powers, row, reducer);
    fill_columns(out, between, powers, count, row, s, reducer);
    ntt_settle::settle(out, by, reducer);
}

// The transform of `m` rows of `row` numbers, with zeros for the others of `count` rows, stored in the order of 003: row `r`, column `c` is value
// r + count · c.
pub fn forward(
    out: &mut [u32],
    x: &[u32],
    powers: &[u32],
    m: usize,
    count: usize,
    row: usize,
    q: u32,
)
    requires { Plain q row powers.now x.now × (length x.now ≡ m * row) × (m ≤ count) × (length powers.now ≡ count * row)
        × (length out.old ≡ length powers.now) }
    ensures { (w : ℕ) → powers.now ≡ power_table q w (length powers.now) → Mod q (w ^ length powers.now) 1
        → out.new ≡ send q row count w x.now }
{
    let mut between = [0u32; 3328];
    let size = powers.len();
    forward_with_buffer(out, x, powers, m, count, row, q, &mut between[0..size]);
}

// The first rows of what a stored vector of `count` rows was made from, as many as `out` has: the transform with the root whose powers are lent, the inverse
// of the one it was sent with, scaled by `e`.
pub fn inverse(out: &mut [u32], x: &[u32], powers: &[u32], e: u32, count: usize, row: usize, q: u32)
    requires { Plain q row powers.now x.now × (length x.now ≡ count * row) × (length powers.now ≡ length x.now) × (e < q)
        × (length out.old ≤ length x.now) }
    ensures { (w m : ℕ) → powers.now ≡ power_table q w (length powers.now) → Mod q (w ^ length powers.now) 1
        → length out.old ≡ m * row → m ≤ count → out.new ≡ recover q row count w e (m * row) x.now }
{
    let mut between = [0u32; 3328];
    let size = x.len();
    inverse_with_buffer(out, x, powers, e, count, row, q, &mut between[0..size]);
}
