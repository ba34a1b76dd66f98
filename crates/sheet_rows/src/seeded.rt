// The rows of an encryption set: key, sealing and reading of Titanium-CPA in turn, from the seeds and the message of an input, and the noise of the sealing.
ghost use Rattle.std.specs.Prelude.{◌≡◌, length};
ghost use Rattle.calls.specs.Outcome.{outcome, accepted};
ghost use Rattle.sets.specs.Table.{Listed};
ghost use Rattle.sets.specs.Rules.{ByteRules};
ghost use Rattle.sets.specs.Derived.{public_key_bytes_of, cpa_ciphertext_bytes_of};
ghost use Rattle.scheme.specs.Encryption.{public_key};
ghost use Rattle.scheme.specs.Bits.{message_read};
ghost use Rattle.scheme.specs.Answers.{key_draws, work_length_of};
ghost use Rattle.sheet_rows.specs.Rows.{SeededRows};

use calls::Answer;
use sets::Parameters;

// The keys of a seed, the ciphertext of the message under the public key, and the message read from it with the secret seed.
fn read_message(
    p: Parameters,
    seed: &[u8; 32],
    message: &[u8; 32],
    sealing: &[u8; 32],
    public: &mut [u8],
    secret: &mut [u8; 32],
    ciphertext: &mut [u8],
    opened: &mut [u8; 32],
    work: &mut [u32],
) -> Answer
    requires { ByteRules p × Listed p
        × (length public.old ≡ public_key_bytes_of p) × (length ciphertext.old ≡ cpa_ciphertext_bytes_of p)
        × (length work.old ≡ work_length_of p) }
    ensures answer { outcome result ≡ key_draws p seed.now }
    ensures key { outcome result ≡ accepted → public.new ≡ public_key p seed.now }
    ensures read { outcome result ≡ accepted
        → opened.new ≡ message_read p seed.now message.now sealing.now }
{
    cpa_keygen::keygen(p, seed, public, secret, work)?;
    // neither refuses: a key that keygen gives holds residues alone, and its draws, which encrypt and decrypt make again, are the ones that keygen made
    let _ = cpa_encrypt::encrypt(p, public, message, sealing, ciphertext, work);
    let _ = cpa_decrypt::decrypt(p, secret, ciphertext, opened, work);
    Ok(())
}

// Writes the rows, with slices for the keys, the ciphertext and the message read.
fn rows_with_buffers(
    p: Parameters,
    seed: &[u8; 32],
    message: &[u8; 32],
    sealing: &[u8; 32],
    public: &mut [u8],
    secret: &mut [u8; 32],
    ciphertext: &mut [u8],
    opened: &mut [u8; 32],
    noise: &mut [i64],
    sent: &mut [u32],
    read: &mut [u32],
    work: &mut [u32],
) -> Answer
    requires { ByteRules p × Listed p
        × (length public.old ≡ public_key_bytes_of p) × (length ciphertext.old ≡ cpa_ciphertext_bytes_of p)
        × (length noise.old ≡ p.d) × (length sent.old ≡ p.d) × (length read.old ≡ p.d)
        × (length work.old ≡ work_length_of p) }
    ensures answer { outcome result ≡ key_draws p seed.now }
    ensures rows { outcome result ≡ accepted
        → SeededRows p seed.now message.now sealing.now noise.new sent.new
        read.new }
{
    read_message(
        p, seed, message, sealing, public, secret, ciphertext, opened, work,
    )?;
    sheet_noise::noise_of(p, seed, message, sealing, public, noise, work);
    packing::bits_of(message, sent);
    packing::bits_of(opened, read);
    Ok(())
}

// Writes the rows of a key seed, a message and a sealing seed.
pub fn seeded_rows(
    p: Parameters,
    seed: &[u8; 32],
    message: &[u8; 32],
    sealing: &[u8; 32],
    noise: &mut [i64],
    sent: &mut [u32],
    read: &mut [u32],
    work: &mut [u32],
) -> Answer
    requires { ByteRules p × Listed p
        × (length noise.old ≡ p.d) × (length sent.old ≡ p.d) × (length read.old ≡ p.d)
        × (length work.old ≡ work_length_of p) }
    ensures answer { outcome result ≡ key_draws p seed.now }
    ensures rows { outcome result ≡ accepted
        → SeededRows p seed.now message.now sealing.now noise.new sent.new
        read.new }
{
    let key_size = sets::derived::public_key_bytes(p);
    let ciphertext_size = sets::derived::cpa_ciphertext_bytes(p);
    let mut public = [0u8; 26912];
    let mut secret = [0u8; 32];
    let mut ciphertext = [0u8; 8320];
    let mut opened = [0u8; 32];
    rows_with_buffers(
        p,
        seed,
        message,
        sealing,
        &mut public[0..key_size],
        &mut secret,
        &mut ciphertext[0..ciphertext_size],
        &mut opened,
        noise,
        sent,
        read,
        work,
    )
}
