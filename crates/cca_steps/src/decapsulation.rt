// What a ciphertext is read as with a secret key, and the shared key (003, algorithm 31).
ghost use Rattle.std.specs.Prelude.{◌≡◌, ◌+◌, length, take, drop};
ghost use Rattle.calls.specs.Outcome.{outcome, leaves};
ghost use Rattle.sets.specs.Table.{Listed};
ghost use Rattle.sets.specs.Rules.{ByteRules};
ghost use Rattle.sets.specs.Derived.{public_key_bytes_of, cpa_ciphertext_bytes_of};
ghost use Rattle.scheme.specs.Encryption.{secret_seed};
ghost use Rattle.scheme.specs.Exchange.{expanded_seed, inner_seed, decapsulated_message, decapsulated};
ghost use Rattle.scheme.specs.Answers.{work_length_of, encrypt_draws, decapsulate_draws};
ghost use Rattle.cca_steps.specs.Steps.{inner_draw, key_of_message_of};

use calls::{Answer, Refusal};
use sets::Parameters;

// Expands a seed into the inner seed and the reject bytes, and the inner seed into the seed of the secret.
fn expand_seed(p: Parameters, seed: &[u8; 32], expanded: &mut [u8; 64], inner: &mut [u8; 32])
    ensures halves { expanded.new ≡ expanded_seed p seed.now }
    ensures secret { inner.new ≡ secret_seed p (inner_seed p seed.now) }
{
    byte_source::source_bytes(p, seed, 0, expanded);
    byte_source::source_bytes(p, &expanded[0..32], 0, inner);
}

// Decrypts a ciphertext; `inner` is lent for the seed of the secret.
fn decrypt_with_buffers(
    p: Parameters,
    secret: &[u8],
    ciphertext: &[u8],
    expanded: &mut [u8; 64],
    message: &mut [u8; 32],
    work: &mut [u32],
    inner: &mut [u8; 32],
) -> Answer
    requires { ByteRules p × Listed p × (length secret.now ≡ 32 + public_key_bytes_of p)
        × (length ciphertext.now ≡ cpa_ciphertext_bytes_of p + 32) × (length work.old ≡ work_length_of p) }
    ensures answer { outcome result ≡ inner_draw p secret.now }
    ensures halves { expanded.new ≡ expanded_seed p (take 32 secret.now) }
    ensures read { message.new ≡ leaves (inner_draw p secret.now)
        (decapsulated_message p secret.now ciphertext.now) message.old }
{
    expand_seed(p, secret.first_chunk().unwrap(), expanded, inner);
    let n = ciphertext.len() - 32;
    cpa_decrypt::decrypt(p, inner, &ciphertext[0..n], message, work)
}

// Decrypts a ciphertext with the seed in a secret key, and expands that seed.
fn decrypt(
    p: Parameters,
    secret: &[u8],
    ciphertext: &[u8],
    expanded: &mut [u8; 64],
    message: &mut [u8; 32],
    work: &mut [u32],
) -> Answer
    requires { ByteRules p × Listed p × (length secret.now ≡ 32 + public_key_bytes_of p)
        × (length ciphertext.now ≡ cpa_ciphertext_bytes_of p + 32) × (length work.old ≡ work_length_of p) }
    ensures answer { outcome result ≡ inner_draw p secret.now }
    ensures halves { expanded.new ≡ expanded_seed p (take 32 secret.now) }
    ensures read { message.new ≡ leaves (inner_draw p secret.now)
        (decapsulated_message p secret.now ciphertext.now) message.old }
{
    let mut inner = [0u8; 32];
    decrypt_with_buffers(p, secret, ciphertext, expanded, message, work, &mut inner)
}

// Encapsulates the message read again, and hashes it, or the reject bytes, into the shared key; `again` is lent for the ciphertext.
fn key_of_message<'a>(
    p: Parameters,
    secret: &[u8],
    ciphertext: &[u8],
    expanded: &'a [u8; 64],
    message: &'a [u8; 32],
    again: &mut [u8],
    shared: &mut [u8; 32],
    work: &mut [u32],
) -> Answer
    requires { ByteRules p × Listed p × (length secret.now ≡ 32 + public_key_bytes_of p)
        × (length ciphertext.now ≡ cpa_ciphertext_bytes_of p + 32)
        × (length again.old ≡ cpa_ciphertext_bytes_of p + 32) × (length work.old ≡ work_length_of p) }
    ensures answer { outcome result ≡ encrypt_draws p (drop 32 secret.now) }
    ensures agreed { shared.new ≡ leaves (encrypt_draws p (drop 32 secret.now))
        (key_of_message_of p (drop 32 secret.now) message.now (drop 32 expanded.now) ciphertext.now)
        shared.old }
{
    crate::encapsulation::encapsulate(p, &secret[32..], message, again, work)?;
    let agrees = cca_bytes::same_bytes(again, ciphertext);
    let part = cca_bytes::hashed_part(agrees, message, expanded);
    cca_bytes::shared_key_of(part, ciphertext, shared);
    Ok(())
}

// The shared key of a ciphertext, with room for what is made on the way.
fn decapsulated_with_buffers(
    p: Parameters,
    secret: &[u8],
    ciphertext: &[u8],
    shared: &mut [u8; 32],
    work: &mut [u32],
    expanded: &mut [u8; 64],
    message: &mut [u8; 32],
    again: &mut [u8],
) -> Answer
    requires { ByteRules p × Listed p × (length secret.now ≡ 32 + public_key_bytes_of p)
        × (length ciphertext.now ≡ cpa_ciphertext_bytes_of p + 32) × (length work.old ≡ work_length_of p)
        × (length again.old ≡ cpa_ciphertext_bytes_of p + 32) }
    ensures answer { outcome result ≡ decapsulate_draws p secret.now }
    ensures agreed { shared.new ≡ leaves (decapsulate_draws p secret.now)
        (decapsulated p secret.now ciphertext.now) shared.old }
{
    if !cpa_encrypt::key_below(p, &secret[32..], work) {
        return Err(Refusal::OutOfRange(0));
    }
    decrypt(p, secret, ciphertext, expanded, message, work)?;
    key_of_message(
        p, secret, ciphertext, expanded, message, again, shared, work,
    )
}

// The shared key of a ciphertext.
pub fn decapsulated_key(
    p: Parameters,
    secret: &[u8],
    ciphertext: &[u8],
    shared: &mut [u8; 32],
    work: &mut [u32],
) -> Answer
    requires { ByteRules p × Listed p × (length secret.now ≡ 32 + public_key_bytes_of p)
        × (length ciphertext.now ≡ cpa_ciphertext_bytes_of p + 32) × (length work.old ≡ work_length_of p) }
    ensures answer { outcome result ≡ decapsulate_draws p secret.now }
    ensures agreed { shared.new ≡ leaves (decapsulate_draws p secret.now)
        (decapsulated p secret.now ciphertext.now) shared.old }
{
    let mut expanded = [0u8; 64];
    let mut message = [0u8; 32];
    let mut again = [0u8; 8352];
    let n = ciphertext.len();
    decapsulated_with_buffers(
        p,
        secret,
        ciphertext,
        shared,
        work,
        &mut expanded,
        &mut message,
        &mut again[0..n],
    )
}
