// Key, encrypt and decrypt in one call, the self-test of a delivery, as a function for callers in C (include/titanium.h).
#![tactic(auto)]

ghost use Rattle.std.specs.Prelude.{◌≡◌};
ghost use Rattle.seal_and_read.specs.Answers.{seal_and_read_answer, seal_and_read_public, seal_and_read_secret, seal_and_read_ciphertext};
ghost use Rattle.seal_and_read.specs.Answers.{seal_and_read_message, seal_and_read_work};
ghost use Rattle.c_answer.specs.Coded.{coded};

use c_answer::code;

// The keys of a seed, the ciphertext of a message, and the message read from it, for sets 1 to 6.
#[unsafe(no_mangle)]
pub extern "C" fn titanium_seal_and_read(
    set: usize,
    seed: &[u8],
    message: &[u8],
    sealing: &[u8],
    public: &mut [u8],
    secret: &mut [u8],
    sealed: &mut [u8],
    read: &mut [u8],
    work: &mut [u32],
) -> u64
    ensures answer { result ≡ coded (seal_and_read_answer set seed.now message.now sealing.now
        public.old secret.old sealed.old read.old work.old) }
    ensures given { public.new ≡ seal_and_read_public set seed.now message.now sealing.now
        public.old secret.old sealed.old read.old work.old }
    ensures kept { secret.new ≡ seal_and_read_secret set seed.now message.now sealing.now
        public.old secret.old sealed.old read.old work.old }
    ensures sent { sealed.new ≡ seal_and_read_ciphertext set seed.now message.now sealing.now
        public.old secret.old sealed.old read.old work.old }
    ensures opened { read.new ≡ seal_and_read_message set seed.now message.now sealing.now
        public.old secret.old sealed.old read.old work.old }
    ensures cleared { work.new ≡ seal_and_read_work set seed.now message.now sealing.now
        public.old secret.old sealed.old read.old work.old }
{
    code(seal_and_read::seal_and_read(
        set, seed, message, sealing, public, secret, sealed, read, work,
    ))
}
