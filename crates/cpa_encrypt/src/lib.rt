// The encryption of Titanium-CPA (003, section 2.2.3, algorithm 2), worked through the transforms as in algorithm 41.
#![tactic(auto)]

ghost use Rattle.std.specs.Prelude.{◌≡◌, true, not, ◌++◌, length};
ghost use Rattle.calls.specs.Outcome.{outcome, leaves, refuse, accepted};
ghost use Rattle.sets.specs.Rules.{Rules, ByteRules};
ghost use Rattle.sets.specs.Table.{Listed};
ghost use Rattle.sets.specs.Derived.{public_key_bytes_of, cpa_ciphertext_bytes_of};
ghost use Rattle.packing.specs.Digits.{unpack};
ghost use Rattle.samplers.specs.Seeded.{public_drawn};
ghost use Rattle.scheme.specs.Answers.{work_length_of, all_taken, only_residues, encrypt_draws};
ghost use Rattle.scheme.specs.Encryption as scheme;
ghost use Rattle.cpa_encrypt.specs.Parts.{Multipliers, KeyResidues, Loaded, packed_first, packed_second};

use calls::{Answer, Refusal};
use sets::Parameters;

mod first;
mod second;
mod vectors;

// Unpacks the numbers of a public key into all of `numbers`; false where one of them is q or more.
fn read_key(p: Parameters, bytes: &[u8], numbers: &mut [u32]) -> bool
    requires { Rules p × ByteRules p }
    ensures answer { result ≡ only_residues p.q (unpack p.width (length numbers.old) bytes.now) }
    ensures result { numbers.new ≡ unpack p.width (length numbers.old) bytes.now }
{
    packing::unpack_into(bytes, p.width, numbers);
    let first = calls::first_at_least(numbers, p.q);
    !(first < numbers.len())
}

// Writes both parts of a ciphertext, where no draw of a public polynomial is refused.
fn encrypt_numbers(
    p: Parameters,
    seed: &[u8; 32],
    numbers: &[u32],
    multipliers: &[u32],
    message: &[u8],
    ciphertext: &mut [u8],
) -> Answer
    requires { ByteRules p × Listed p × KeyResidues p numbers.now × Multipliers p multipliers.now
        × (length ciphertext.old ≡ cpa_ciphertext_bytes_of p) }
    ensures answer { outcome result ≡ refuse (not (all_taken p.t (public_drawn p seed.now))) 5 0 accepted }
    ensures sealed { ciphertext.new ≡ leaves (refuse (not (all_taken p.t (public_drawn p seed.now))) 5 0 accepted)
        (packed_first p seed.now multipliers.now ++ packed_second p numbers.now multipliers.now
        message.now) ciphertext.old }
{
    let middle = sets::derived::packed_bytes(p.d2, p.width as usize);
    first::encrypt_first(p, seed, multipliers, &mut ciphertext[0..middle])?;
    let end = ciphertext.len();
    second::encrypt_second(
        p,
        numbers,
        multipliers,
        message,
        &mut ciphertext[middle..end],
    );
    Ok(())
}

// Holds the numbers of a public key and the multipliers of a seed, one after the other, in the work slice; false where a number of the key is q or more.
fn load(p: Parameters, key: &[u8], seed: &[u8; 32], work: &mut [u32]) -> bool
    requires { ByteRules p × Listed p × (length key.now ≡ public_key_bytes_of p) × (length work.old ≡ work_length_of p) }
    ensures answer { result ≡ only_residues p.q (scheme.key_numbers p key.now) }
    ensures held { Loaded p key.now seed.now work.new }
{
    let keys = p.d1 * p.t;
    let end = keys + sets::derived::multiplier_count(p);
    let bytes = key.len();
    let below = read_key(p, &key[32..bytes], &mut work[0..keys]);
    samplers::multipliers_from(p, seed, &mut work[keys..end]);
    below
}

// Seals a message for a public key with the multipliers of a seed.
pub fn encrypt(
    p: Parameters,
    key: &[u8],
    message: &[u8; 32],
    seed: &[u8; 32],
    ciphertext: &mut [u8],
    work: &mut [u32],
) -> Answer
    requires { ByteRules p × Listed p × (length key.now ≡ public_key_bytes_of p)
        × (length ciphertext.old ≡ cpa_ciphertext_bytes_of p) × (length work.old ≡ work_length_of p) }
    ensures answer { outcome result ≡ encrypt_draws p key.now }
    ensures sealed { ciphertext.new ≡ leaves (encrypt_draws p key.now)
        (scheme.ciphertext p key.now message.now seed.now) ciphertext.old }
{
    let keys = p.d1 * p.t;
    let end = keys + sets::derived::multiplier_count(p);
    if !load(p, key, seed, work) {
        return Err(Refusal::OutOfRange(0));
    }
    encrypt_numbers(
        p,
        key.first_chunk().unwrap(),
        &work[0..keys],
        &work[keys..end],
        message,
        ciphertext,
    )
}

// Writes c2 before it is packed, for a public key whose numbers are all below q.
pub fn numbers_before_packing(
    p: Parameters,
    key: &[u8],
    message: &[u8],
    seed: &[u8; 32],
    out: &mut [u32],
    work: &mut [u32],
)
    requires { ByteRules p × Listed p × (length key.now ≡ public_key_bytes_of p) × (only_residues p.q (scheme.key_numbers p key.now) ≡ true)
        × (length out.old ≡ p.d) × (length work.old ≡ work_length_of p) }
    ensures { out.new ≡ scheme.encrypted_numbers p key.now message.now seed.now }
{
    let keys = p.d1 * p.t;
    let end = keys + sets::derived::multiplier_count(p);
    load(p, key, seed, work);
    second::second_numbers(p, &work[0..keys], &work[keys..end], message, out);
}

// Whether each number of a public key is below q; the work slice is lent for the numbers.
pub fn key_below(p: Parameters, key: &[u8], work: &mut [u32]) -> bool
    requires { ByteRules p × Listed p × (length key.now ≡ public_key_bytes_of p) × (length work.old ≡ work_length_of p) }
    ensures { result ≡ only_residues p.q (scheme.key_numbers p key.now) }
{
    let keys = p.d1 * p.t;
    let bytes = key.len();
    read_key(p, &key[32..bytes], &mut work[0..keys])
}
