// The ciphertext of a message with its check bytes, and the shared key (003, algorithm 30).
ghost use Rattle.std.specs.Prelude.{◌≡◌, ◌+◌, length};
ghost use Rattle.calls.specs.Outcome.{outcome, leaves};
ghost use Rattle.sets.specs.Table.{Listed};
ghost use Rattle.sets.specs.Rules.{ByteRules};
ghost use Rattle.sets.specs.Derived.{public_key_bytes_of, cpa_ciphertext_bytes_of};
ghost use Rattle.sponge.specs.Sponge.{shake256};
ghost use Rattle.scheme.specs.Exchange.{encapsulated, shared_key};
ghost use Rattle.scheme.specs.Answers.{work_length_of, encrypt_draws};

use calls::Answer;
use sets::Parameters;

// Encrypts a message with the seed in the first half of `digest`, and writes the second half after it.
fn encapsulate_digest(
    p: Parameters,
    public: &[u8],
    message: &[u8; 32],
    digest: &[u8; 64],
    ciphertext: &mut [u8],
    work: &mut [u32],
) -> Answer
    requires { ByteRules p × Listed p × (length public.now ≡ public_key_bytes_of p)
        × (digest.now ≡ shake256 message.now 64)
        × (length ciphertext.old ≡ cpa_ciphertext_bytes_of p + 32) × (length work.old ≡ work_length_of p) }
    ensures answer { outcome result ≡ encrypt_draws p public.now }
    ensures given { ciphertext.new ≡ leaves (encrypt_draws p public.now)
        (encapsulated p public.now message.now) ciphertext.old }
{
    let n = ciphertext.len() - 32;
    cpa_encrypt::encrypt(
        p,
        public,
        message,
        digest.first_chunk().unwrap(),
        &mut ciphertext[0..n],
        work,
    )?;
    calls::copy_in(ciphertext, n, &digest[32..64]);
    Ok(())
}

// Encrypts a message with the seed that G makes of it; `digest` is lent for what G gives.
fn encapsulate_with_buffers(
    p: Parameters,
    public: &[u8],
    message: &[u8; 32],
    ciphertext: &mut [u8],
    work: &mut [u32],
    digest: &mut [u8; 64],
) -> Answer
    requires { ByteRules p × Listed p × (length public.now ≡ public_key_bytes_of p)
        × (length ciphertext.old ≡ cpa_ciphertext_bytes_of p + 32) × (length work.old ≡ work_length_of p) }
    ensures answer { outcome result ≡ encrypt_draws p public.now }
    ensures given { ciphertext.new ≡ leaves (encrypt_draws p public.now)
        (encapsulated p public.now message.now) ciphertext.old }
{
    sponge::shake256_into(message, digest);
    encapsulate_digest(p, public, message, digest, ciphertext, work)
}

// Encrypts a message with the seed that G makes of it, and writes the check bytes after it.
pub fn encapsulate(
    p: Parameters,
    public: &[u8],
    message: &[u8; 32],
    ciphertext: &mut [u8],
    work: &mut [u32],
) -> Answer
    requires { ByteRules p × Listed p × (length public.now ≡ public_key_bytes_of p)
        × (length ciphertext.old ≡ cpa_ciphertext_bytes_of p + 32) × (length work.old ≡ work_length_of p) }
    ensures answer { outcome result ≡ encrypt_draws p public.now }
    ensures given { ciphertext.new ≡ leaves (encrypt_draws p public.now)
        (encapsulated p public.now message.now) ciphertext.old }
{
    let mut digest = [0u8; 64];
    encapsulate_with_buffers(p, public, message, ciphertext, work, &mut digest)
}

// Encapsulates a message, and hashes it with the ciphertext into the shared key.
pub fn encapsulated_key(
    p: Parameters,
    public: &[u8],
    message: &[u8; 32],
    ciphertext: &mut [u8],
    shared: &mut [u8; 32],
    work: &mut [u32],
) -> Answer
    requires { ByteRules p × Listed p × (length public.now ≡ public_key_bytes_of p)
        × (length ciphertext.old ≡ cpa_ciphertext_bytes_of p + 32) × (length work.old ≡ work_length_of p) }
    ensures answer { outcome result ≡ encrypt_draws p public.now }
    ensures given { ciphertext.new ≡ leaves (encrypt_draws p public.now)
        (encapsulated p public.now message.now) ciphertext.old }
    ensures agreed { shared.new ≡ leaves (encrypt_draws p public.now)
        (shared_key p public.now message.now) shared.old }
{
    encapsulate(p, public, message, ciphertext, work)?;
    cca_bytes::shared_key_of(message, ciphertext, shared);
    Ok(())
}
