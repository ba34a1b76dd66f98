// The key exchange as open calls for sets 7 to 12: key, encapsulate and decapsulate (01, How each call answers: Key exchange).
// Each writes its three steps out, checks, draws and clearing, since a closure for the middle one would hold two slices that it writes.
#![tactic(auto)]

ghost use Rattle.std.specs.Prelude.{◌≡◌, length};
ghost use Rattle.calls.specs.Outcome.{outcome};
ghost use Rattle.scheme.specs.Answers.{exchange_key_answer, exchange_public_left, exchange_secret_left, exchange_key_work};
ghost use Rattle.scheme.specs.Answers.{encapsulate_answer, encapsulated_left, shared_key_left, encapsulate_work};
ghost use Rattle.scheme.specs.Answers.{decapsulate_answer, decapsulated_left, decapsulate_work};

use calls::Answer;
use cca_steps::{decapsulation, encapsulation, keygen};

// The keys of a seed.
pub fn key(
    set: usize,
    seed: &[u8],
    public: &mut [u8],
    secret: &mut [u8],
    work: &mut [u32],
) -> Answer
    ensures answer { outcome result ≡ exchange_key_answer set seed.now
        (length public.old) (length secret.old) (length work.old) }
    ensures given { public.new ≡ exchange_public_left set seed.now
        public.old secret.old work.old }
    ensures kept { secret.new ≡ exchange_secret_left set seed.now
        public.old secret.old work.old }
    ensures cleared { work.new ≡ exchange_key_work set seed.now
        public.old secret.old work.old }
{
    let p = scheme_checks::key_checked(
        sets::EXCHANGE,
        set,
        seed.len(),
        public.len(),
        secret.len(),
        work.len(),
    )?;
    let answer = keygen::keygen(p, seed.as_array().unwrap(), public, secret, work);
    calls::clear(work);
    answer
}

// The ciphertext of a message under a public key, and the shared key.
pub fn encapsulate(
    set: usize,
    public: &[u8],
    message: &[u8],
    ciphertext: &mut [u8],
    shared: &mut [u8],
    work: &mut [u32],
) -> Answer
    ensures answer { outcome result ≡ encapsulate_answer set public.now (length message.now)
        (length ciphertext.old) (length shared.old) (length work.old) }
    ensures given { ciphertext.new ≡ encapsulated_left set public.now message.now
        ciphertext.old shared.old work.old }
    ensures agreed { shared.new ≡ shared_key_left set public.now message.now
        ciphertext.old shared.old work.old }
    ensures cleared { work.new ≡ encapsulate_work set public.now message.now
        ciphertext.old shared.old work.old }
{
    let p = scheme_checks::encrypt_checked(
        sets::EXCHANGE,
        set,
        public.len(),
        message.len(),
        shared.len(),
        ciphertext.len(),
        work.len(),
    )?;
    let answer = encapsulation::encapsulated_key(
        p,
        public,
        message.as_array().unwrap(),
        ciphertext,
        shared.as_mut_array().unwrap(),
        work,
    );
    calls::clear(work);
    answer
}

// The shared key of a ciphertext with a secret key, which holds the public key; the reject key where the ciphertext is not what encapsulating again gives.
pub fn decapsulate(
    set: usize,
    secret: &[u8],
    ciphertext: &[u8],
    shared: &mut [u8],
    work: &mut [u32],
) -> Answer
    ensures answer { outcome result ≡ decapsulate_answer set secret.now (length ciphertext.now)
        (length shared.old) (length work.old) }
    ensures agreed { shared.new ≡ decapsulated_left set secret.now ciphertext.now
        shared.old work.old }
    ensures cleared { work.new ≡ decapsulate_work set secret.now ciphertext.now
        shared.old work.old }
{
    let p = scheme_checks::decrypt_checked(
        sets::EXCHANGE,
        set,
        secret.len(),
        ciphertext.len(),
        shared.len(),
        work.len(),
    )?;
    let answer = decapsulation::decapsulated_key(
        p,
        secret,
        ciphertext,
        shared.as_mut_array().unwrap(),
        work,
    );
    calls::clear(work);
    answer
}
