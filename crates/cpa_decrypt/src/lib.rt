// Decryption of Titanium-CPA, for sets 1 to 12 (003, algorithm 3, worked as in algorithm 42).
#![tactic(auto)]

ghost use Rattle.std.specs.Prelude.{◌≡◌, ◌+◌, ◌*◌, ◌^◌, ◌≤◌, ◌<◌, length, take};
ghost use Rattle.calls.specs.Outcome.{outcome, leaves};
ghost use Rattle.maths.specs.Vector.{AllBelow};
ghost use Rattle.sets.specs.Table.{Listed};
ghost use Rattle.sets.specs.Rules.{Rules, ByteRules};
ghost use Rattle.sets.specs.Derived.{transform_size_of, cpa_ciphertext_bytes_of};
ghost use Rattle.packing.specs.Digits.{unpack};
ghost use Rattle.ntt_products.specs.Stored.{recovered};
ghost use Rattle.ntt_products.specs.Placed.{Placed, table_length_of};
ghost use Rattle.scheme.specs.Encryption.{first_bytes_of, cipher_first, decrypted_message};
ghost use Rattle.scheme.specs.Answers.{work_length_of, only_residues, secret_draw};
ghost use Rattle.cpa_decrypt.specs.Decrypted.{reduced, first_correlations, difference_bit_of, difference_bits, decrypted_bits_from, decrypted_message_from};

use calls::Answer;
use ntt_products::WhichRoot;
use sets::Parameters;

// Takes each number modulo q; all of them are below 2 · q.
fn reduce_all(xs: &mut [u32], q: u32)
    requires { AllBelow (2 * q) (length xs.old) xs.old × (q < 2 ^ 24) }
    ensures { xs.new ≡ reduced q xs.old }
{
    for x in xs.iter_mut() {
        *x = residues::reduce_once(*x, q);
    }
}

// How many numbers c1' has.
fn first_count(p: Parameters) -> usize
    requires { Listed p }
    ensures { result ≡ p.n + p.k }
{
    p.n + p.k
}

// Recovers c1', the first numbers of what the packed ĉ1 stores; numbers of q or more count modulo q.
fn recover_first(p: Parameters, packed: &[u8], tables: &mut [u32], x: &mut [u32])
    requires { ByteRules p × Listed p × (length tables.old ≡ table_length_of p 2) × (length x.old ≡ transform_size_of p 2) }
    ensures { take (p.n + p.k) x.new ≡ recovered p 2 (p.n + p.k) (unpack p.width (transform_size_of p 2) packed.now) }
{
    packing::unpack_into(packed, p.width, x);
    reduce_all(x, p.q);
    ntt_products::load_tables(p, 2, WhichRoot::Inverse, tables);
    ntt_products::recover_first(p, 2, tables, x, first_count(p));
}

// How many bytes the packed ĉ1 takes.
fn first_bytes(p: Parameters) -> usize
    requires { ByteRules p × Listed p }
    ensures { (result ≡ first_bytes_of p) × (result ≤ cpa_ciphertext_bytes_of p) }
{
    sets::derived::packed_bytes(p.d2, p.width as usize)
}

// Fills the first d places of `x` with the correlations of c1' with the secret that `stored` stores; `tables` is lent for the tables of both transforms.
fn correlate_first(
    p: Parameters,
    ciphertext: &[u8],
    stored: &[u32],
    tables: &mut [u32],
    x: &mut [u32],
)
    requires { ByteRules p × Listed p × (length ciphertext.now ≡ cpa_ciphertext_bytes_of p) × Placed p 3 (transform_size_of p 3) stored.now
        × (length tables.old ≡ table_length_of p 3) × (length x.old ≡ transform_size_of p 3) }
    ensures { take p.d x.new ≡ first_correlations p stored.now ciphertext.now }
{
    let end = first_bytes(p);
    let size = p.d2;
    let room = ntt_products::table_length(p, 2);
    recover_first(
        p,
        &ciphertext[0..end],
        &mut tables[0..room],
        &mut x[0..size],
    );
    ntt_products::load_tables(p, 3, WhichRoot::Own, tables);
    ntt_products::correlate(p, 3, tables, x, first_count(p), stored, p.d);
}

// The bit that a number of c2 is read as, given the correlation at its place.
fn difference_bit(p: Parameters, x: u32, y: u32) -> u32
    requires { Rules p × ByteRules p × (x < 2 * p.q) × (y < p.q) }
    ensures { result ≡ difference_bit_of p x y }
{
    let h = sets::derived::half_modulus(p);
    let reduced = residues::reduce_once(x, p.q);
    residues::threshold_bit(h, residues::subtract(reduced, y, p.q))
}

// Reads each number of c2 as a bit, given the correlations.
fn read_differences(p: Parameters, second: &mut [u32], correlations: &[u32])
    requires { ByteRules p × Listed p × (length second.old ≡ p.d) × (p.d ≤ length correlations.now)
        × AllBelow (2 * p.q) p.d second.old × AllBelow p.q p.d correlations.now }
    ensures { second.new ≡ difference_bits p second.old correlations.now }
{
    for (j, number) in second.iter_mut().enumerate() {
        *number = difference_bit(p, *number, correlations[j]);
    }
}

// Reads the bits of a ciphertext with the stored secret; `tables` and `x` are lent for the transforms.
fn read_bits(
    p: Parameters,
    ciphertext: &[u8],
    stored: &[u32],
    tables: &mut [u32],
    x: &mut [u32],
    bits: &mut [u32],
)
    requires { ByteRules p × Listed p × (length ciphertext.now ≡ cpa_ciphertext_bytes_of p) × Placed p 3 (transform_size_of p 3) stored.now
        × (length tables.old ≡ table_length_of p 3) × (length x.old ≡ transform_size_of p 3) × (length bits.old ≡ p.d) }
    ensures { bits.new ≡ decrypted_bits_from p stored.now ciphertext.now }
{
    let from = first_bytes(p);
    packing::unpack_dropped(&ciphertext[from..], p.width, p.cmp, bits);
    correlate_first(p, ciphertext, stored, tables, x);
    read_differences(p, bits, x);
}

// Reads the message of a ciphertext with the stored secret.
fn read_with_buffers(
    p: Parameters,
    ciphertext: &[u8],
    stored: &[u32],
    tables: &mut [u32],
    x: &mut [u32],
    bits: &mut [u32],
    message: &mut [u8; 32],
)
    requires { ByteRules p × Listed p × (length ciphertext.now ≡ cpa_ciphertext_bytes_of p) × Placed p 3 (transform_size_of p 3) stored.now
        × (length tables.old ≡ table_length_of p 3) × (length x.old ≡ transform_size_of p 3) × (length bits.old ≡ p.d) }
    ensures { message.new ≡ decrypted_message_from p stored.now ciphertext.now }
{
    read_bits(p, ciphertext, stored, tables, x, bits);
    packing::bytes_of_bits(bits, message);
}

// Reads the message of a ciphertext with the stored secret, with room for the transforms and the bits.
fn read(p: Parameters, ciphertext: &[u8], stored: &[u32], message: &mut [u8; 32])
    requires { ByteRules p × Listed p × (length ciphertext.now ≡ cpa_ciphertext_bytes_of p) × Placed p 3 (transform_size_of p 3) stored.now }
    ensures { message.new ≡ decrypted_message_from p stored.now ciphertext.now }
{
    let mut tables = [0u32; 3605];
    let mut x = [0u32; 3328];
    let mut bits = [0u32; 256];
    let room = ntt_products::table_length(p, 3);
    let size = stored.len();
    read_with_buffers(
        p,
        ciphertext,
        stored,
        &mut tables[0..room],
        &mut x[0..size],
        &mut bits[0..256],
        message,
    );
}

// Reads the message of a ciphertext with the seed of the secret; the work slice is lent for the stored secret.
pub fn decrypt(
    p: Parameters,
    seed: &[u8; 32],
    ciphertext: &[u8],
    message: &mut [u8; 32],
    work: &mut [u32],
) -> Answer
    requires { ByteRules p × Listed p × (length ciphertext.now ≡ cpa_ciphertext_bytes_of p) × (length work.old ≡ work_length_of p) }
    ensures answer { outcome result ≡ secret_draw p seed.now }
    ensures read { message.new
        ≡ leaves (secret_draw p seed.now) (decrypted_message p seed.now ciphertext.now) message.old }
{
    let size = p.d3;
    samplers::residues_from(p, seed, p.bytpcs, 0, &mut work[0..size])?;
    read(p, ciphertext, &work[0..size], message);
    Ok(())
}

// Whether each number of ĉ1 is below q; the work slice is lent for the numbers.
pub fn first_below(p: Parameters, ciphertext: &[u8], work: &mut [u32]) -> bool
    requires { ByteRules p × Listed p × (length ciphertext.now ≡ cpa_ciphertext_bytes_of p) × (length work.old ≡ work_length_of p) }
    ensures { result ≡ only_residues p.q (cipher_first p ciphertext.now) }
{
    let end = first_bytes(p);
    let count = p.d2;
    packing::unpack_into(&ciphertext[0..end], p.width, &mut work[0..count]);
    calls::first_at_least(&work[0..count], p.q) >= count
}
