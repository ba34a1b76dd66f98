// The keys of a seed (003, algorithm 29).
ghost use Rattle.std.specs.Prelude.{◌≡◌, ◌+◌, length};
ghost use Rattle.calls.specs.Outcome.{outcome, leaves};
ghost use Rattle.sets.specs.Table.{Listed};
ghost use Rattle.sets.specs.Rules.{ByteRules};
ghost use Rattle.sets.specs.Derived.{public_key_bytes_of};
ghost use Rattle.scheme.specs.Exchange.{inner_seed, exchange_public_key, exchange_secret_key};
ghost use Rattle.scheme.specs.Answers.{work_length_of, key_draws};

use calls::Answer;
use sets::Parameters;

// Makes the keys of a seed; `expanded` is lent for the inner seed and the reject bytes, `inner` for the inner secret key.
fn keygen_with_buffers(
    p: Parameters,
    seed: &[u8; 32],
    public: &mut [u8],
    secret: &mut [u8],
    work: &mut [u32],
    expanded: &mut [u8; 64],
    inner: &mut [u8; 32],
) -> Answer
    requires { ByteRules p × Listed p × (length public.old ≡ public_key_bytes_of p)
        × (length secret.old ≡ 32 + public_key_bytes_of p) × (length work.old ≡ work_length_of p) }
    ensures answer { outcome result ≡ key_draws p (inner_seed p seed.now) }
    ensures given { public.new ≡ leaves (key_draws p (inner_seed p seed.now))
        (exchange_public_key p seed.now) public.old }
    ensures kept { secret.new ≡ leaves (key_draws p (inner_seed p seed.now))
        (exchange_secret_key p seed.now) secret.old }
{
    byte_source::source_bytes(p, seed, 0, expanded);
    cpa_keygen::keygen(p, expanded.first_chunk().unwrap(), public, inner, work)?;
    cca_bytes::write_both(secret, seed, public);
    Ok(())
}

// Makes the keys of a seed.
pub fn keygen(
    p: Parameters,
    seed: &[u8; 32],
    public: &mut [u8],
    secret: &mut [u8],
    work: &mut [u32],
) -> Answer
    requires { ByteRules p × Listed p × (length public.old ≡ public_key_bytes_of p)
        × (length secret.old ≡ 32 + public_key_bytes_of p) × (length work.old ≡ work_length_of p) }
    ensures answer { outcome result ≡ key_draws p (inner_seed p seed.now) }
    ensures given { public.new ≡ leaves (key_draws p (inner_seed p seed.now))
        (exchange_public_key p seed.now) public.old }
    ensures kept { secret.new ≡ leaves (key_draws p (inner_seed p seed.now))
        (exchange_secret_key p seed.now) secret.old }
{
    let mut expanded = [0u8; 64];
    let mut inner = [0u8; 32];
    keygen_with_buffers(p, seed, public, secret, work, &mut expanded, &mut inner)
}
