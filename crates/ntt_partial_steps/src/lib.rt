// The partial transform of a set's size in D1 rows of D2 numbers (003 section 3.2.2, algorithms 36 and 37): rows of 256 numbers go through the transforms that
// the scheme uses, rows of other lengths by written-out sums.
#![tactic(auto)]

ghost use Rattle.std.specs.Prelude.{◌≡◌, ◌*◌, length, take};
ghost use Rattle.maths.specs.Transform.{send, recover};
ghost use Rattle.sets.specs.Table.{Listed};
ghost use Rattle.sets.specs.Derived.{transform_root};
ghost use Rattle.ntt_products.specs.Stored.{root_inverse_of, size_inverse_of, sent, recovered};
ghost use Rattle.ntt_products.specs.Placed.{table_length_of};
ghost use Rattle.ntt_partial_steps.specs.Split.{Split, Wide};

use ntt_products::WhichRoot;
use sets::Parameters;

// The transform of the first `m` rows by written-out sums.
pub fn forward_plain(
    p: Parameters,
    i: usize,
    rows: usize,
    row: usize,
    m: usize,
    input: &[u32],
    out: &mut [u32],
)
    requires { Listed p × Split p i rows row m input.now × (length out.old ≡ rows * row) }
    ensures { out.new ≡ send p.q row rows (transform_root p i) (take (m * row) input.now) }
{
    let end = m * row;
    let powers = roots::powers(p, i);
    ntt_plain::forward(out, &input[0..end], powers, m, rows, row, p.q);
}

// The first `m` rows of what the input was made from, by written-out sums.
pub fn inverse_plain(
    p: Parameters,
    i: usize,
    rows: usize,
    row: usize,
    m: usize,
    input: &[u32],
    out: &mut [u32],
)
    requires { Listed p × Split p i rows row m input.now × (length out.old ≡ m * row) }
    ensures { out.new
        ≡ recover p.q row rows (root_inverse_of p i) (size_inverse_of p i) (m * row) input.now }
{
    let mut room = [0u32; 3328];
    let powers = &mut room[0..input.len()];
    let e = ntt_products::size_inverse_of(p, i);
    ntt_products::load_inverse_powers(p, i, powers);
    ntt_plain::inverse(out, input, powers, e, rows, row, p.q);
}

// The transform of the first `m` rows of 256 numbers, through the transforms that the scheme uses.
pub fn forward_wide(p: Parameters, i: usize, m: usize, input: &[u32], out: &mut [u32])
    requires { Listed p × Wide p i m input.now × (length out.old ≡ length input.now) }
    ensures { out.new ≡ sent p i (take (m * 256) input.now) }
{
    let end = m * 256;
    let mut room = [0u32; 3605];
    let length = ntt_products::table_length(p, i);
    let tables = &mut room[0..length];
    calls::copy_in(out, 0, &input[0..end]);
    ntt_products::load_tables(p, i, WhichRoot::Own, tables);
    ntt_products::send_first(p, i, tables, out, end);
}

// The first `m` rows of 256 numbers of what the input was made from, through the same transforms, which need all places.
pub fn inverse_wide(p: Parameters, i: usize, m: usize, input: &[u32], out: &mut [u32])
    requires { Listed p × Wide p i m input.now × (length out.old ≡ m * 256) }
    ensures { out.new ≡ recovered p i (m * 256) input.now }
{
    let end = m * 256;
    let mut room = [0u32; 3605];
    let mut places = [0u32; 3328];
    let length = ntt_products::table_length(p, i);
    let tables = &mut room[0..length];
    let x = &mut places[0..input.len()];
    calls::copy_in(x, 0, input);
    ntt_products::load_tables(p, i, WhichRoot::Inverse, tables);
    ntt_products::recover_first(p, i, tables, x, end);
    calls::copy_out(out, x, 0);
}
