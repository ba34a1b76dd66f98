// The noise of every place of a sealing, as exact whole numbers (01, Noise; crates/scheme/specs/Noise.antt), for sets 1 to 12.
#![tactic(auto)]

ghost use Rattle.std.specs.Prelude.{◌≡◌, true, ℕ, ◌^◌, ◌<◌, pos, nat_abs, length, get_or};
ghost use Rattle.maths.specs.Vector.{at};
ghost use Rattle.sets.specs.Rules.{Rules, ByteRules};
ghost use Rattle.sets.specs.Table.{Listed};
ghost use Rattle.sets.specs.Derived.{multiplier_count_of, error_count_of};
ghost use Rattle.draws.specs.Calls.{in_turn};
ghost use Rattle.samplers.specs.Seeded.{secret_drawn};
ghost use Rattle.scheme.specs.Answers.{work_length_of, is_taken};
ghost use Rattle.scheme.specs.Encryption.{secret_seed, public_key};
ghost use Rattle.scheme.specs.Noise as scheme;
ghost use Rattle.sheet_noise.specs.Centred.{Residues, ErrorsHeld, Held, centred_noise, drawn_noise};

use sets::Parameters;

mod whole;

// The noise at a place, from the multipliers and the errors as residues and the number of c2 before packing at the place.
fn noise_at(p: Parameters, multipliers: &[u32], errors: &[u32], before: u32, j: usize) -> i64
    requires { Rules p × ByteRules p × (length multipliers.now ≡ multiplier_count_of p) × (length errors.now ≡ error_count_of p)
        × Residues p.q multipliers.now × Residues p.q errors.now × (before < p.q) × (j < p.d) }
    ensures { result ≡ centred_noise p multipliers.now errors.now before j }
{
    let half = sets::derived::half_modulus(p);
    let product = whole::product_noise(p, half, multipliers, errors, j);
    let dropped = whole::dropped_noise(p, half, before);
    whole::plus(product, dropped)
}

// Writes the noise of every place.
fn fill(p: Parameters, multipliers: &[u32], errors: &[u32], before: &[u32], noise: &mut [i64])
    requires { Rules p × ByteRules p × (length multipliers.now ≡ multiplier_count_of p) × (length errors.now ≡ error_count_of p)
        × Residues p.q multipliers.now × Residues p.q errors.now × Residues p.q before.now × (length before.now ≡ p.d)
        × (length noise.old ≡ p.d) }
    ensures { noise.new
        ≡ in_turn (λ j. centred_noise p multipliers.now errors.now (at before.now j) j) 0 p.d }
{
    for (j, number) in noise.iter_mut().enumerate() {
        *number = noise_at(p, multipliers, errors, before[j], j);
    }
}

// Draws the errors of a secret seed into the front of the work slice.
fn draw_errors(p: Parameters, secret: &[u8; 32], work: &mut [u32])
    requires { ByteRules p × Listed p × (is_taken (secret_drawn p secret.now) ≡ true)
        × (length work.old ≡ work_length_of p) }
    ensures { ErrorsHeld p secret.now work.new }
{
    let size = p.d3;
    let count = sets::derived::error_count(p);
    let Ok(counter) = samplers::residues_from(p, secret, p.bytpcs, 0, &mut work[0..size]) else {
        return;
    };
    samplers::errors_from(p, secret, counter, &mut work[0..count]);
}

// Draws the errors and, after them, the multipliers.
fn draw(p: Parameters, secret: &[u8; 32], sealing: &[u8; 32], work: &mut [u32])
    requires { ByteRules p × Listed p × (is_taken (secret_drawn p secret.now) ≡ true)
        × (length work.old ≡ work_length_of p) }
    ensures { Held p secret.now sealing.now work.new }
{
    let start = sets::derived::error_count(p);
    let end = start + sets::derived::multiplier_count(p);
    draw_errors(p, secret, work);
    samplers::multipliers_from(p, sealing, &mut work[start..end]);
}

// The noise from c2 before packing and the secret seed.
fn noise_from(
    p: Parameters,
    secret: &[u8; 32],
    sealing: &[u8; 32],
    before: &[u32],
    noise: &mut [i64],
    work: &mut [u32],
)
    requires { ByteRules p × Listed p × (is_taken (secret_drawn p secret.now) ≡ true)
        × Residues p.q before.now × (length before.now ≡ p.d) × (length noise.old ≡ p.d)
        × (length work.old ≡ work_length_of p) }
    ensures { noise.new ≡ in_turn (drawn_noise p secret.now sealing.now before.now) 0 p.d }
{
    let start = sets::derived::error_count(p);
    let end = start + sets::derived::multiplier_count(p);
    draw(p, secret, sealing, work);
    fill(p, &work[start..end], &work[0..start], before, noise);
}

// The noise, with room for the secret seed and for c2 before packing in lent slices.
fn noise_with_buffers(
    p: Parameters,
    seed: &[u8; 32],
    message: &[u8; 32],
    sealing: &[u8; 32],
    public: &[u8],
    noise: &mut [i64],
    work: &mut [u32],
    secret: &mut [u8; 32],
    before: &mut [u32],
)
    requires { ByteRules p × Listed p
        × (public.now ≡ public_key p seed.now) × (is_taken (secret_drawn p (secret_seed p seed.now)) ≡ true)
        × (length noise.old ≡ p.d) × (length work.old ≡ work_length_of p)
        × (length before.old ≡ p.d) }
    ensures { noise.new
        ≡ in_turn (scheme.noise p seed.now message.now sealing.now) 0 p.d }
{
    byte_source::source_bytes(p, seed, 0, secret);
    cpa_encrypt::numbers_before_packing(p, public, message, sealing, before, work);
    noise_from(p, secret, sealing, before, noise, work);
}

// Writes the noise of every place of the sealing of a message; `public` is the public key of the key seed, and `work` is lent for the way: its
// caller clears it.
pub fn noise_of(
    p: Parameters,
    seed: &[u8; 32],
    message: &[u8; 32],
    sealing: &[u8; 32],
    public: &[u8],
    noise: &mut [i64],
    work: &mut [u32],
)
    requires { ByteRules p × Listed p
        × (public.now ≡ public_key p seed.now) × (is_taken (secret_drawn p (secret_seed p seed.now)) ≡ true)
        × (length noise.old ≡ p.d) × (length work.old ≡ work_length_of p) }
    ensures values { noise.new ≡ in_turn (scheme.noise p seed.now message.now sealing.now) 0 p.d }
    ensures sizes { (j : ℕ) → nat_abs (get_or noise.new j (pos 0)) < 2 ^ 62 }
{
    let d = p.d;
    let mut secret = [0u8; 32];
    let mut before = [0u32; 256];
    noise_with_buffers(
        p,
        seed,
        message,
        sealing,
        public,
        noise,
        work,
        &mut secret,
        &mut before[0..d],
    );
}
