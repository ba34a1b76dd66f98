// The second part of a ciphertext: c2, the sum of the correlations of the multiplier polynomials with the b_i, and half the modulus times the
// message (003, algorithm 2, lines 8 to 10).
ghost use Rattle.std.specs.Prelude.{◌≡◌, List, ℕ, ◌+◌, ◌*◌, length, replicate};
ghost use Rattle.maths.specs.Vector.{AllBelow};
ghost use Rattle.calls.specs.Region.{vector};
ghost use Rattle.sets.specs.Table.{Listed};
ghost use Rattle.sets.specs.Rules.{ByteRules};
ghost use Rattle.sets.specs.Derived.{transform_size_of};
ghost use Rattle.ntt_products.specs.Stored.{sent, recovered_inverse, totals};
ghost use Rattle.ntt_products.specs.Placed.{table_length_of, RootTables, RowsRecovered};
ghost use Rattle.scheme.specs.Encryption.{second_bytes};
ghost use Rattle.cpa_encrypt.specs.Parts.{Multipliers, KeyResidues, message_added, second_sums, packed_second};

use montgomery::Reducer;
use ntt_products::WhichRoot;
use sets::Parameters;

// Adds up in `total` the products of the multiplier polynomials, sent, and the stored b_i.
fn sum_stored(
    p: Parameters,
    numbers: &[u32],
    multipliers: &[u32],
    tables: &[u32],
    total: &mut [u32],
    x: &mut [u32],
)
    requires { Listed p × KeyResidues p numbers.now × Multipliers p multipliers.now × RootTables p 1 tables.now
        × (total.old ≡ replicate (transform_size_of p 1) 0) × (length x.old ≡ transform_size_of p 1) }
    ensures { total.new ≡ totals p.q (transform_size_of p 1) p.t (λ i. sent p 1 (vector (p.k + 1) multipliers.now i))
        (λ i. vector p.d1 numbers.now i) }
{
    let reducer = Reducer::new(p.q);
    for i in 0..p.t {
        crate::vectors::send_multipliers(p, 1, tables, multipliers, i, x);
        let from = p.d1 * i;
        let end = from + p.d1;
        ntt_products::accumulate(total, x, &numbers[from..end], reducer);
    }
}

// The rows of the inverse transform of the summed products of the multiplier polynomials and the b_i, in `total`; `tables` is lent for those of the root.
fn sum_rows(
    p: Parameters,
    numbers: &[u32],
    multipliers: &[u32],
    tables: &mut [u32],
    total: &mut [u32],
    x: &mut [u32],
)
    requires { ByteRules p × Listed p × KeyResidues p numbers.now × Multipliers p multipliers.now × (length tables.old ≡ table_length_of p 1)
        × (length total.old ≡ transform_size_of p 1) × (length x.old ≡ transform_size_of p 1) }
    ensures { RowsRecovered p 1 (totals p.q (transform_size_of p 1) p.t (λ i. sent p 1 (vector (p.k + 1) multipliers.now i))
        (λ i. vector p.d1 numbers.now i)) total.new }
{
    ntt_products::load_tables(p, 1, WhichRoot::Own, tables);
    calls::clear(total);
    sum_stored(p, numbers, multipliers, tables, total, x);
    ntt_products::recover_rows(p, 1, tables, total);
}

// c2 before it is packed, from these rows, in one walk: each place is the sum of a column, to which its message bit is added.
fn walk(p: Parameters, rows: &[u32], message: &[u8], out: &mut [u32])
    requires { ByteRules p × Listed p × (length rows.now ≡ transform_size_of p 1)
        × AllBelow (2 * p.q) (transform_size_of p 1) rows.now × (length out.old ≡ p.d) }
    ensures { (sums : List ℕ) → RowsRecovered p 1 sums rows.now
        → out.new ≡ message_added p (recovered_inverse p 1 p.d sums) message.now }
{
    let by = ntt_products::row_scale_of(p, 1);
    let half = sets::derived::half_modulus(p);
    let count = ntt_products::rows_of(p, 1);
    let reducer = Reducer::new(p.q);
    c2_walk::fill(out, rows, message, by, half, count, reducer);
}

// c2 before it is packed, with room on the way in lent slices.
fn numbers_with_buffers(
    p: Parameters,
    numbers: &[u32],
    multipliers: &[u32],
    message: &[u8],
    out: &mut [u32],
    tables: &mut [u32],
    total: &mut [u32],
    x: &mut [u32],
)
    requires { ByteRules p × Listed p × KeyResidues p numbers.now × Multipliers p multipliers.now × (length out.old ≡ p.d)
        × (length tables.old ≡ table_length_of p 1) × (length total.old ≡ transform_size_of p 1) × (length x.old ≡ transform_size_of p 1) }
    ensures { out.new ≡ second_sums p numbers.now multipliers.now message.now }
{
    sum_rows(p, numbers, multipliers, tables, total, x);
    walk(p, total, message, out);
}

// Writes c2 before it is packed.
pub fn second_numbers(
    p: Parameters,
    numbers: &[u32],
    multipliers: &[u32],
    message: &[u8],
    out: &mut [u32],
)
    requires { ByteRules p × Listed p × KeyResidues p numbers.now × Multipliers p multipliers.now × (length out.old ≡ p.d) }
    ensures { out.new ≡ second_sums p numbers.now multipliers.now message.now }
{
    let size = sets::derived::transform_size(p, 1);
    let length = ntt_products::table_length(p, 1);
    let mut tables = [0u32; 3605];
    let mut total = [0u32; 3328];
    let mut x = [0u32; 3328];
    numbers_with_buffers(
        p,
        numbers,
        multipliers,
        message,
        out,
        &mut tables[0..length],
        &mut total[0..size],
        &mut x[0..size],
    );
}

// The second part, with c2 before it is packed in a lent slice.
fn second_with_buffers(
    p: Parameters,
    numbers: &[u32],
    multipliers: &[u32],
    message: &[u8],
    out: &mut [u8],
    sums: &mut [u32],
)
    requires { ByteRules p × Listed p × KeyResidues p numbers.now × Multipliers p multipliers.now
        × (length out.old ≡ second_bytes p) × (length sums.old ≡ p.d) }
    ensures { out.new ≡ packed_second p numbers.now multipliers.now message.now }
{
    second_numbers(p, numbers, multipliers, message, sums);
    packing::pack_dropping(sums, p.width, p.cmp, out);
}

// Writes the second part of a ciphertext.
pub fn encrypt_second(
    p: Parameters,
    numbers: &[u32],
    multipliers: &[u32],
    message: &[u8],
    out: &mut [u8],
)
    requires { ByteRules p × Listed p × KeyResidues p numbers.now × Multipliers p multipliers.now × (length out.old ≡ second_bytes p) }
    ensures { out.new ≡ packed_second p numbers.now multipliers.now message.now }
{
    let d = p.d;
    let mut sums = [0u32; 256];
    second_with_buffers(p, numbers, multipliers, message, out, &mut sums[0..d]);
}
