// The columns of a transform: sums of at most 16 products for each of the 256 columns (003 section 3.2.2; algorithm 36, the transforms of length δ).
// Four rows are taken at a time, and 64 columns, so that the compiler works on several places at a time.
#![tactic(auto)]

ghost use Rattle.std.specs.Prelude.{◌≡◌, ◌+◌, ◌<◌};
ghost use Rattle.ntt_columns.specs.Columns.{ColumnsReady, Columns};
ghost use Rattle.ntt_columns.specs.Blocks.{four_products_of, FourReady, AddReady, Added, SumsReady, Sums, LoadReady, Loaded, ZerosFrom, BlockReady, Block};

use montgomery::Reducer;

// The sum of four products, of numbers that are 64 places apart.
fn four_products(block: &[u32], at: usize, a: u32, b: u32, c: u32, d: u32) -> u64
    requires { FourReady block.now at a b c d }
    ensures { result ≡ four_products_of block.now at a b c d }
{
    let low = montgomery::whole_product(block[at], a)
        + montgomery::whole_product(block[at + 64], b);
    let high = montgomery::whole_product(block[at + 128], c)
        + montgomery::whole_product(block[at + 192], d);
    low + high
}

// Adds to each of 64 sums four products.
fn add_four(sums: &mut [u32], block: &[u32], a: u32, b: u32, c: u32, d: u32, reducer: Reducer)
    requires { AddReady reducer.q a b c d sums.old block.now }
    ensures { Added reducer.q a b c d block.now sums.old sums.new }
{
    for j in 0..64 {
        sums[j] = sums[j] + montgomery::step(four_products(block, j, a, b, c, d), reducer);
    }
}

// Value `r` of the transforms of 64 columns of `m` numbers; the rows of the block after them are zeros.
fn column_sums(
    sums: &mut [u32],
    block: &[u32],
    factors: &[u32],
    m: usize,
    r: usize,
    rows: usize,
    reducer: Reducer,
)
    requires { SumsReady reducer.q m r rows factors.now block.now sums.old }
    ensures { Sums reducer.q m r rows factors.now block.now sums.new }
{
    let mut place: usize = 0;
    calls::clear(sums);
    for n in (0..m).step_by(4) {
        let second = residues::advance(place, r, rows);
        let third = residues::advance(second, r, rows);
        let fourth = residues::advance(third, r, rows);
        let start = 64 * n;
        let end = start + 256;
        add_four(
            sums,
            &block[start..end],
            factors[place],
            factors[second],
            factors[third],
            factors[fourth],
            reducer,
        );
        place = residues::advance(fourth, r, rows);
    }
}

// Copies 64 columns of the first `m` rows.
fn load_block(block: &mut [u32], x: &[u32], b: usize, m: usize)
    requires { LoadReady b m block.old x.now }
    ensures { Loaded b m x.now block.old block.new }
{
    for n in 0..m {
        let start = 256 * n + 64 * b;
        let end = start + 64;
        calls::copy_in(block, 64 * n, &x[start..end]);
    }
}

// The first `out` values of the transforms of 64 columns of `m` numbers, in place; `block` is lent for these columns, with zeros from row `m` on, which
// stay.
fn column_block(
    x: &mut [u32],
    block: &mut [u32],
    factors: &[u32],
    b: usize,
    m: usize,
    out: usize,
    rows: usize,
    reducer: Reducer,
)
    requires { BlockReady reducer.q m out rows b factors.now x.old × ZerosFrom m block.old }
    ensures result { Block reducer.q m out rows b factors.now x.old x.new }
    ensures lent { ZerosFrom m block.new }
{
    let mut sums = [0u32; 64];
    load_block(block, x, b, m);
    for r in 0..out {
        column_sums(&mut sums, block, factors, m, r, rows, reducer);
        calls::copy_in(x, 256 * r + 64 * b, &sums);
    }
}

// The first `out` values of the transform of each of the 256 columns of `m` numbers, in place. The rows from `m` on are not read and count as zeros;
// those from `out` on are left as they were. `factors` has the powers of the root of a column, in scaled form.
pub fn columns(x: &mut [u32], factors: &[u32], m: usize, out: usize, rows: usize, reducer: Reducer)
    requires { ColumnsReady reducer.q m out rows factors.now x.old }
    ensures { Columns reducer.q m out rows factors.now x.old x.new }
{
    let mut block = [0u32; 1024];
    for b in 0..4 {
        column_block(x, &mut block, factors, b, m, out, rows, reducer);
    }
}
