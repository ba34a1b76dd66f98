// Key, encapsulate and decapsulate in one call, the self-test of a delivery, as a function for callers in C (include/titanium.h).
#![tactic(auto)]

ghost use Rattle.std.specs.Prelude.{◌≡◌};
ghost use Rattle.share_a_key.specs.Answers.{share_a_key_answer, share_a_key_public, share_a_key_secret, share_a_key_ciphertext};
ghost use Rattle.share_a_key.specs.Answers.{share_a_key_sent, share_a_key_received, share_a_key_work};
ghost use Rattle.c_answer.specs.Coded.{coded};

use c_answer::code;

// The keys of a seed, the ciphertext and the shared key of a message, and the shared key that decapsulation gives, for sets 7 to 12.
#[unsafe(no_mangle)]
pub extern "C" fn titanium_share_a_key(
    set: usize,
    seed: &[u8],
    message: &[u8],
    public: &mut [u8],
    secret: &mut [u8],
    sealed: &mut [u8],
    sent: &mut [u8],
    received: &mut [u8],
    work: &mut [u32],
) -> u64
    ensures answer { result ≡ coded (share_a_key_answer set seed.now message.now public.old
        secret.old sealed.old sent.old received.old work.old) }
    ensures given { public.new ≡ share_a_key_public set seed.now message.now public.old
        secret.old sealed.old sent.old received.old work.old }
    ensures kept { secret.new ≡ share_a_key_secret set seed.now message.now public.old
        secret.old sealed.old sent.old received.old work.old }
    ensures closed { sealed.new ≡ share_a_key_ciphertext set seed.now message.now public.old
        secret.old sealed.old sent.old received.old work.old }
    ensures agreed { sent.new ≡ share_a_key_sent set seed.now message.now public.old
        secret.old sealed.old sent.old received.old work.old }
    ensures opened { received.new ≡ share_a_key_received set seed.now message.now public.old
        secret.old sealed.old sent.old received.old work.old }
    ensures cleared { work.new ≡ share_a_key_work set seed.now message.now public.old
        secret.old sealed.old sent.old received.old work.old }
{
    code(share_a_key::share_a_key(
        set, seed, message, public, secret, sealed, sent, received, work,
    ))
}
