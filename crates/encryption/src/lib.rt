// The encryption scheme as open calls for sets 1 to 6: key, encrypt and decrypt (01, How each call answers: Encryption scheme).
// Each writes its three steps out, checks, draws and clearing, since a closure for the middle one would hold two slices that it writes.
#![tactic(auto)]

ghost use Rattle.std.specs.Prelude.{◌≡◌, length};
ghost use Rattle.calls.specs.Outcome.{outcome, leaves};
ghost use Rattle.sets.specs.Table.{Listed};
ghost use Rattle.sets.specs.Rules.{ByteRules};
ghost use Rattle.sets.specs.Derived.{cpa_ciphertext_bytes_of};
ghost use Rattle.scheme.specs.Encryption.{decrypted_message};
ghost use Rattle.scheme.specs.Answers.{work_length_of, decrypt_draws};
ghost use Rattle.scheme.specs.Answers.{encryption_key_answer, encryption_public_left, encryption_secret_left, encryption_key_work};
ghost use Rattle.scheme.specs.Answers.{encrypt_answer, ciphertext_left, encrypt_work, decrypt_answer, message_left, decrypt_work};

use calls::{Answer, Refusal};
use sets::Parameters;

// The keys of a seed.
pub fn key(
    set: usize,
    seed: &[u8],
    public: &mut [u8],
    secret: &mut [u8],
    work: &mut [u32],
) -> Answer
    ensures answer { outcome result ≡ encryption_key_answer set seed.now
        (length public.old) (length secret.old) (length work.old) }
    ensures given { public.new ≡ encryption_public_left set seed.now
        public.old secret.old work.old }
    ensures kept { secret.new ≡ encryption_secret_left set seed.now
        public.old secret.old work.old }
    ensures cleared { work.new ≡ encryption_key_work set seed.now
        public.old secret.old work.old }
{
    let p = scheme_checks::key_checked(
        sets::ENCRYPTION,
        set,
        seed.len(),
        public.len(),
        secret.len(),
        work.len(),
    )?;
    let answer = cpa_keygen::keygen(
        p,
        seed.as_array().unwrap(),
        public,
        secret.as_mut_array().unwrap(),
        work,
    );
    calls::clear(work);
    answer
}

// The ciphertext of a message under a public key and a sealing seed.
pub fn encrypt(
    set: usize,
    public: &[u8],
    message: &[u8],
    seed: &[u8],
    ciphertext: &mut [u8],
    work: &mut [u32],
) -> Answer
    ensures answer { outcome result ≡ encrypt_answer set public.now message.now seed.now
        (length ciphertext.old) (length work.old) }
    ensures given { ciphertext.new ≡ ciphertext_left set public.now message.now seed.now
        ciphertext.old work.old }
    ensures cleared { work.new ≡ encrypt_work set public.now message.now seed.now
        ciphertext.old work.old }
{
    let p = scheme_checks::encrypt_checked(
        sets::ENCRYPTION,
        set,
        public.len(),
        message.len(),
        seed.len(),
        ciphertext.len(),
        work.len(),
    )?;
    let answer = cpa_encrypt::encrypt(
        p,
        public,
        message.as_array().unwrap(),
        seed.as_array().unwrap(),
        ciphertext,
        work,
    );
    calls::clear(work);
    answer
}

// Refused with 3 when a number of c1 is q or more, else reads the message.
fn decrypt_if_below(
    p: Parameters,
    secret: &[u8; 32],
    ciphertext: &[u8],
    message: &mut [u8; 32],
    work: &mut [u32],
) -> Answer
    requires { ByteRules p × Listed p × (length ciphertext.now ≡ cpa_ciphertext_bytes_of p) × (length work.old ≡ work_length_of p) }
    ensures answer { outcome result ≡ decrypt_draws p secret.now ciphertext.now }
    ensures read { message.new ≡ leaves (decrypt_draws p secret.now ciphertext.now)
        (decrypted_message p secret.now ciphertext.now) message.old }
{
    if !cpa_decrypt::first_below(p, ciphertext, work) {
        return Err(Refusal::OutOfRange(0));
    }
    cpa_decrypt::decrypt(p, secret, ciphertext, message, work)
}

// The message that a ciphertext is read as, with the secret key.
pub fn decrypt(
    set: usize,
    secret: &[u8],
    ciphertext: &[u8],
    message: &mut [u8],
    work: &mut [u32],
) -> Answer
    ensures answer { outcome result ≡ decrypt_answer set secret.now ciphertext.now
        (length message.old) (length work.old) }
    ensures read { message.new ≡ message_left set secret.now ciphertext.now
        message.old work.old }
    ensures cleared { work.new ≡ decrypt_work set secret.now ciphertext.now
        message.old work.old }
{
    let p = scheme_checks::decrypt_checked(
        sets::ENCRYPTION,
        set,
        secret.len(),
        ciphertext.len(),
        message.len(),
        work.len(),
    )?;
    let answer = decrypt_if_below(
        p,
        secret.as_array().unwrap(),
        ciphertext,
        message.as_mut_array().unwrap(),
        work,
    );
    calls::clear(work);
    answer
}
