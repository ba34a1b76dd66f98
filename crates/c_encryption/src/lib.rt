// The encryption scheme, sets 1 to 6, as functions for callers in C (include/titanium.h).
// Functions of their own beside those of the key exchange, since the C interface has both.
#![tactic(auto)]

ghost use Rattle.std.specs.Prelude.{◌≡◌, length};
ghost use Rattle.scheme.specs.Answers.{encryption_key_answer, encryption_public_left, encryption_secret_left, encryption_key_work};
ghost use Rattle.scheme.specs.Answers.{encrypt_answer, ciphertext_left, encrypt_work, decrypt_answer, message_left, decrypt_work};
ghost use Rattle.c_answer.specs.Coded.{coded};

use c_answer::code;

// The keys of a seed.
#[unsafe(no_mangle)]
pub extern "C" fn titanium_encryption_keypair(
    set: usize,
    seed: &[u8],
    public: &mut [u8],
    secret: &mut [u8],
    work: &mut [u32],
) -> u64
    ensures answer { result ≡ coded (encryption_key_answer set seed.now
        (length public.old) (length secret.old) (length work.old)) }
    ensures given { public.new ≡ encryption_public_left set seed.now
        public.old secret.old work.old }
    ensures kept { secret.new ≡ encryption_secret_left set seed.now
        public.old secret.old work.old }
    ensures cleared { work.new ≡ encryption_key_work set seed.now
        public.old secret.old work.old }
{
    code(encryption::key(set, seed, public, secret, work))
}

// The ciphertext of a message under a public key and a sealing seed.
#[unsafe(no_mangle)]
pub extern "C" fn titanium_encrypt(
    set: usize,
    public: &[u8],
    message: &[u8],
    seed: &[u8],
    ciphertext: &mut [u8],
    work: &mut [u32],
) -> u64
    ensures answer { result ≡ coded (encrypt_answer set public.now message.now seed.now
        (length ciphertext.old) (length work.old)) }
    ensures given { ciphertext.new ≡ ciphertext_left set public.now message.now seed.now
        ciphertext.old work.old }
    ensures cleared { work.new ≡ encrypt_work set public.now message.now seed.now
        ciphertext.old work.old }
{
    code(encryption::encrypt(set, public, message, seed, ciphertext, work))
}

// The message that a ciphertext is read as, with the secret key.
#[unsafe(no_mangle)]
pub extern "C" fn titanium_decrypt(
    set: usize,
    secret: &[u8],
    ciphertext: &[u8],
    message: &mut [u8],
    work: &mut [u32],
) -> u64
    ensures answer { result ≡ coded (decrypt_answer set secret.now ciphertext.now
        (length message.old) (length work.old)) }
    ensures read { message.new ≡ message_left set secret.now ciphertext.now
        message.old work.old }
    ensures cleared { work.new ≡ decrypt_work set secret.now ciphertext.now
        message.old work.old }
{
    code(encryption::decrypt(set, secret, ciphertext, message, work))
}
