// Key generation of Titanium-CPA for sets 1 to 12 (003, algorithm 1, as algorithm 40 works it).
#![tactic(auto)]

ghost use Rattle.std.specs.Prelude.{◌≡◌, true, not, map, ◌*◌, ◌^◌, ◌<◌, length};
ghost use Rattle.maths.specs.Integer.{residue};
ghost use Rattle.calls.specs.Outcome.{outcome, accepted, refuse, leaves};
ghost use Rattle.calls.specs.Region.{region, over, joined};
ghost use Rattle.sets.specs.Table.{Listed};
ghost use Rattle.sets.specs.Rules.{ByteRules};
ghost use Rattle.sets.specs.Derived.{public_key_bytes_of};
ghost use Rattle.byte_source.specs.Source.{state_at};
ghost use Rattle.samplers.specs.Blocks.{onward, answer_of};
ghost use Rattle.samplers.specs.Seeded.{secret_drawn, secret_state, public_drawn, errors_drawn};
ghost use Rattle.ntt_products.specs.Stored.{sent_inverse};
ghost use Rattle.scheme.specs.Encryption.{secret_seed as secret_seed_of, stored_secret, public_vector, public_key as public_key_of};
ghost use Rattle.scheme.specs.Answers.{work_length_of, is_taken, all_taken, key_draws};
ghost use Rattle.cpa_keygen.specs.Held.{vectors_start_of, SecretHeld};

use calls::Answer;
use samplers::Advance;
use sets::Parameters;

mod bytes;
mod vectors;

// Draws the stored secret into the front of the work slice.
fn draw_stored(p: Parameters, seed: &[u8; 32], work: &mut [u32]) -> Advance
    requires { ByteRules p × Listed p × (length work.old ≡ work_length_of p) }
    ensures answer { onward seed.now result ≡ answer_of (secret_drawn p seed.now) (secret_state p seed.now) }
    ensures result { is_taken (secret_drawn p seed.now) ≡ true → work.new ≡ over work.old 0 (stored_secret p seed.now) }
{
    let end = p.d3;
    samplers::residues_from(p, seed, p.bytpcs, 0, &mut work[0..end])
}

// Draws the errors into the places after the stored secret.
fn draw_errors(p: Parameters, seed: &[u8; 32], counter: u32, work: &mut [u32])
    requires { ByteRules p × Listed p × (length work.old ≡ work_length_of p) × (counter < 2 ^ 31) }
    ensures { work.new ≡ over work.old p.d3 (map (residue p.q) (errors_drawn p (state_at seed.now counter))) }
{
    let start = p.d3;
    let end = vectors::vectors_start(p);
    samplers::errors_from(p, seed, counter, &mut work[start..end]);
}

// Draws the stored secret and the errors.
fn draw_secret(p: Parameters, seed: &[u8; 32], work: &mut [u32]) -> Answer
    requires { ByteRules p × Listed p × (length work.old ≡ work_length_of p) }
    ensures answer { outcome result ≡ refuse (not (is_taken (secret_drawn p seed.now))) 5 0 accepted }
    ensures result { is_taken (secret_drawn p seed.now) ≡ true → SecretHeld p seed.now work.new }
{
    let next = draw_stored(p, seed, work)?;
    draw_errors(p, seed, next, work);
    Ok(())
}

// Draws the secret, the errors and the public polynomials, and stores the vectors of the public key in the work slice.
fn store_key(p: Parameters, seedsk: &[u8; 32], seedpk: &[u8; 32], work: &mut [u32]) -> Answer
    requires { ByteRules p × Listed p × (length work.old ≡ work_length_of p) }
    ensures answer { outcome result ≡ refuse (not (is_taken (secret_drawn p seedsk.now))) 5 0
        (refuse (not (all_taken p.t (public_drawn p seedpk.now))) 5 0 accepted) }
    ensures result { outcome result ≡ accepted → region work.new (vectors_start_of p) (p.d1 * p.t)
        ≡ joined p.t (λ i. sent_inverse p 1 (public_vector p seedsk.now seedpk.now i)) }
{
    draw_secret(p, seedsk, work)?;
    vectors::store_vectors(p, seedpk, work)
}

// Makes a key by way of the two seeds, which are lent room.
fn keygen_with_buffers(
    p: Parameters,
    seed: &[u8; 32],
    public_key: &mut [u8],
    secret_seed: &mut [u8; 32],
    work: &mut [u32],
    seedsk: &mut [u8; 32],
    seedpk: &mut [u8; 32],
) -> Answer
    requires { ByteRules p × Listed p × (length public_key.old ≡ public_key_bytes_of p)
        × (length work.old ≡ work_length_of p) }
    ensures answer { outcome result ≡ key_draws p seed.now }
    ensures public { public_key.new ≡ leaves (key_draws p seed.now) (public_key_of p seed.now) public_key.old }
    ensures secret { secret_seed.new ≡ leaves (key_draws p seed.now) (secret_seed_of p seed.now) secret_seed.old }
{
    let next = byte_source::source_bytes(p, seed, 0, seedsk);
    byte_source::source_bytes(p, seed, next, seedpk);
    store_key(p, seedsk, seedpk, work)?;
    bytes::write_public_key(p, seedpk, work, public_key);
    calls::copy_in(secret_seed, 0, seedsk);
    Ok(())
}

// Makes the public key and the secret seed of a key seed.
pub fn keygen(
    p: Parameters,
    seed: &[u8; 32],
    public_key: &mut [u8],
    secret_seed: &mut [u8; 32],
    work: &mut [u32],
) -> Answer
    requires { ByteRules p × Listed p × (length public_key.old ≡ public_key_bytes_of p)
        × (length work.old ≡ work_length_of p) }
    ensures answer { outcome result ≡ key_draws p seed.now }
    ensures public { public_key.new ≡ leaves (key_draws p seed.now) (public_key_of p seed.now) public_key.old }
    ensures secret { secret_seed.new ≡ leaves (key_draws p seed.now) (secret_seed_of p seed.now) secret_seed.old }
{
    let mut seedsk = [0u8; 32];
    let mut seedpk = [0u8; 32];
    keygen_with_buffers(
        p,
        seed,
        public_key,
        secret_seed,
        work,
        &mut seedsk,
        &mut seedpk,
    )
}
