// The first part of a ciphertext: ĉ1, the sum of the products of the multiplier polynomials and the public polynomials, as it is stored
// (003, algorithm 2, lines 3 to 7).
ghost use Rattle.std.specs.Prelude.{◌≡◌, not, List, ℕ, ◌+◌, ◌^◌, ◌<◌, length, replicate};
ghost use Rattle.calls.specs.Outcome.{outcome, leaves, refuse, accepted};
ghost use Rattle.calls.specs.Region.{vector};
ghost use Rattle.sets.specs.Table.{Listed};
ghost use Rattle.sets.specs.Rules.{ByteRules};
ghost use Rattle.sets.specs.Derived.{transform_size_of};
ghost use Rattle.draws.specs.Uniform.{taken};
ghost use Rattle.byte_source.specs.Source.{state_at};
ghost use Rattle.samplers.specs.Blocks.{onward, uniform, uniform_answer};
ghost use Rattle.samplers.specs.Seeded.{public_drawn};
ghost use Rattle.ntt_products.specs.Stored.{sent, totals};
ghost use Rattle.ntt_products.specs.Placed.{table_length_of, RootTables};
ghost use Rattle.scheme.specs.Answers.{all_taken};
ghost use Rattle.scheme.specs.Encryption.{public_polynomial, first_bytes_of};
ghost use Rattle.cpa_encrypt.specs.Parts.{Multipliers, packed_first};

use calls::Answer;
use montgomery::Reducer;
use ntt_products::WhichRoot;
use samplers::Advance;
use sets::Parameters;

// Draws one public polynomial from the output of `counter` on and sends it.
fn send_drawn(
    p: Parameters,
    tables: &[u32],
    seed: &[u8; 32],
    counter: u32,
    y: &mut [u32],
) -> Advance
    requires { ByteRules p × Listed p × RootTables p 2 tables.now × (counter < 2 ^ 31) × (length y.old ≡ transform_size_of p 2) }
    ensures answer { onward seed.now result ≡ uniform_answer p (state_at seed.now counter) p.bytpca p.n }
    ensures result { (xs : List ℕ) → (uniform p (state_at seed.now counter) p.bytpca p.n).drawn ≡ taken xs → y.new ≡ sent p 2 xs }
{
    let n = p.n;
    let next = samplers::residues_from(p, seed, p.bytpca, counter, &mut y[0..n])?;
    ntt_products::send_first(p, 2, tables, y, n);
    Ok(next)
}

// Adds up in `total` the products of the multiplier polynomials and the public polynomials, all of them sent; the first draw that is refused decides.
fn sum_products(
    p: Parameters,
    seed: &[u8; 32],
    multipliers: &[u32],
    tables: &[u32],
    total: &mut [u32],
    x: &mut [u32],
    y: &mut [u32],
) -> Answer
    requires { ByteRules p × Listed p × Multipliers p multipliers.now × RootTables p 2 tables.now
        × (total.old ≡ replicate (transform_size_of p 2) 0) × (length x.old ≡ transform_size_of p 2) × (length y.old ≡ transform_size_of p 2) }
    ensures answer { outcome result ≡ refuse (not (all_taken p.t (public_drawn p seed.now))) 5 0 accepted }
    ensures result { outcome result ≡ accepted
        → total.new ≡ totals p.q (transform_size_of p 2) p.t (λ i. sent p 2 (vector (p.k + 1) multipliers.now i))
        (λ i. sent p 2 (public_polynomial p seed.now i)) }
{
    let reducer = Reducer::new(p.q);
    let mut counter: u32 = 0;
    for i in 0..p.t {
        crate::vectors::send_multipliers(p, 2, tables, multipliers, i, x);
        counter = send_drawn(p, tables, seed, counter, y)?;
        ntt_products::accumulate(total, x, y, reducer);
    }
    Ok(())
}

// The first part, with the tables of the root and the vectors on the way in lent slices.
fn first_with_buffers(
    p: Parameters,
    seed: &[u8; 32],
    multipliers: &[u32],
    out: &mut [u8],
    tables: &mut [u32],
    total: &mut [u32],
    x: &mut [u32],
    y: &mut [u32],
) -> Answer
    requires { ByteRules p × Listed p × Multipliers p multipliers.now × (length out.old ≡ first_bytes_of p)
        × (length tables.old ≡ table_length_of p 2) × (length total.old ≡ transform_size_of p 2) × (length x.old ≡ transform_size_of p 2)
        × (length y.old ≡ transform_size_of p 2) }
    ensures answer { outcome result ≡ refuse (not (all_taken p.t (public_drawn p seed.now))) 5 0 accepted }
    ensures left { out.new ≡ leaves (refuse (not (all_taken p.t (public_drawn p seed.now))) 5 0 accepted)
        (packed_first p seed.now multipliers.now) out.old }
{
    ntt_products::load_tables(p, 2, WhichRoot::Own, tables);
    calls::clear(total);
    sum_products(p, seed, multipliers, tables, total, x, y)?;
    packing::pack_into(total, p.width, out);
    Ok(())
}

// Writes the first part of a ciphertext, where no draw of a public polynomial is refused.
pub fn encrypt_first(p: Parameters, seed: &[u8; 32], multipliers: &[u32], out: &mut [u8]) -> Answer
    requires { ByteRules p × Listed p × Multipliers p multipliers.now × (length out.old ≡ first_bytes_of p) }
    ensures answer { outcome result ≡ refuse (not (all_taken p.t (public_drawn p seed.now))) 5 0 accepted }
    ensures left { out.new ≡ leaves (refuse (not (all_taken p.t (public_drawn p seed.now))) 5 0 accepted)
        (packed_first p seed.now multipliers.now) out.old }
{
    let size = sets::derived::transform_size(p, 2);
    let length = ntt_products::table_length(p, 2);
    let mut tables = [0u32; 3605];
    let mut total = [0u32; 3328];
    let mut x = [0u32; 3328];
    let mut y = [0u32; 3328];
    first_with_buffers(
        p,
        seed,
        multipliers,
        out,
        &mut tables[0..length],
        &mut total[0..size],
        &mut x[0..size],
        &mut y[0..size],
    )
}
