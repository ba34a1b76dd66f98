// The key exchange, sets 7 to 12, as functions for callers in C (include/titanium.h).
// Functions of their own beside those of the encryption scheme, since the C interface has both.
#![tactic(auto)]

ghost use Rattle.std.specs.Prelude.{◌≡◌, length};
ghost use Rattle.scheme.specs.Answers.{exchange_key_answer, exchange_public_left, exchange_secret_left, exchange_key_work};
ghost use Rattle.scheme.specs.Answers.{encapsulate_answer, encapsulated_left, shared_key_left, encapsulate_work};
ghost use Rattle.scheme.specs.Answers.{decapsulate_answer, decapsulated_left, decapsulate_work};
ghost use Rattle.c_answer.specs.Coded.{coded};

use c_answer::code;

// The keys of a seed.
#[unsafe(no_mangle)]
pub extern "C" fn titanium_keypair(
    set: usize,
    seed: &[u8],
    public: &mut [u8],
    secret: &mut [u8],
    work: &mut [u32],
) -> u64
    ensures answer { result ≡ coded (exchange_key_answer set seed.now
        (length public.old) (length secret.old) (length work.old)) }
    ensures given { public.new ≡ exchange_public_left set seed.now
        public.old secret.old work.old }
    ensures kept { secret.new ≡ exchange_secret_left set seed.now
        public.old secret.old work.old }
    ensures cleared { work.new ≡ exchange_key_work set seed.now
        public.old secret.old work.old }
{
    code(exchange::key(set, seed, public, secret, work))
}

// The ciphertext of a message under a public key, and the shared key.
#[unsafe(no_mangle)]
pub extern "C" fn titanium_encapsulate(
    set: usize,
    public: &[u8],
    message: &[u8],
    ciphertext: &mut [u8],
    shared: &mut [u8],
    work: &mut [u32],
) -> u64
    ensures answer { result ≡ coded (encapsulate_answer set public.now (length message.now)
        (length ciphertext.old) (length shared.old) (length work.old)) }
    ensures given { ciphertext.new ≡ encapsulated_left set public.now message.now
        ciphertext.old shared.old work.old }
    ensures agreed { shared.new ≡ shared_key_left set public.now message.now
        ciphertext.old shared.old work.old }
    ensures cleared { work.new ≡ encapsulate_work set public.now message.now
        ciphertext.old shared.old work.old }
{
    code(exchange::encapsulate(set, public, message, ciphertext, shared, work))
}

// The shared key of a ciphertext, or the reject key.
#[unsafe(no_mangle)]
pub extern "C" fn titanium_decapsulate(
    set: usize,
    secret: &[u8],
    ciphertext: &[u8],
    shared: &mut [u8],
    work: &mut [u32],
) -> u64
    ensures answer { result ≡ coded (decapsulate_answer set secret.now (length ciphertext.now)
        (length shared.old) (length work.old)) }
    ensures agreed { shared.new ≡ decapsulated_left set secret.now ciphertext.now
        shared.old work.old }
    ensures cleared { work.new ≡ decapsulate_work set secret.now ciphertext.now
        shared.old work.old }
{
    code(exchange::decapsulate(set, secret, ciphertext, shared, work))
}
