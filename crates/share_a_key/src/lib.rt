// Key, encapsulate and decapsulate of the key exchange in one call, for sets 7 to 12, with demand 3 on what they give (01, What demand 3 speaks of): the
// self-test of a delivery.
// A call of its own beside `seal_and_read`, since the C interface has both, with other slices.
#![tactic(auto)]

ghost use Rattle.std.specs.Prelude.{◌≡◌};
ghost use Rattle.calls.specs.Outcome.{outcome, accepted, leaves};
ghost use Rattle.sets.specs.Table.{set_of};
ghost use Rattle.scheme.specs.Exchange.{exchange_public_key, exchange_secret_key, encapsulated};
ghost use Rattle.claim.specs.Claim.{exchange, held, given, Demand3};
ghost use Rattle.share_a_key.specs.Answers.{share_a_key_answer, share_a_key_work};

use calls::Answer;

// The keys of a seed, the ciphertext and the shared key of the message under the public key so given, and the shared key of that ciphertext with the
// secret key so given.
// Where it is accepted, demand 3 holds of this seed and this message (`claim`): both shared keys are equal where twice the size of the noise is below h
// at every place.
pub fn share_a_key(
    set: usize,
    seed: &[u8],
    message: &[u8],
    public: &mut [u8],
    secret: &mut [u8],
    sealed: &mut [u8],
    sent: &mut [u8],
    received: &mut [u8],
    work: &mut [u32],
) -> Answer
    ensures answer { outcome result ≡ share_a_key_answer set seed.now message.now
        public.old secret.old sealed.old sent.old received.old work.old }
    ensures given { public.new ≡ leaves (outcome result) (exchange_public_key (set_of set) seed.now) public.old }
    ensures kept { secret.new ≡ leaves (outcome result) (exchange_secret_key (set_of set) seed.now) secret.old }
    ensures closed { sealed.new ≡ leaves (outcome result)
        (encapsulated (set_of set) (exchange_public_key (set_of set) seed.now) message.now) sealed.old }
    ensures agreed { sent.new ≡ leaves (outcome result) (held set (exchange seed.now message.now)) sent.old }
    ensures opened { received.new ≡ leaves (outcome result) (given set (exchange seed.now message.now)) received.old }
    ensures cleared { work.new ≡ share_a_key_work set seed.now message.now
        public.old secret.old sealed.old sent.old received.old work.old }
    ensures claim { outcome result ≡ accepted → Demand3 set (exchange seed.now message.now) }
{
    scheme_checks::round_trip_checked(
        sets::EXCHANGE,
        set,
        seed.len(),
        message.len(),
        sent.len(),
        received.len(),
        public.len(),
        secret.len(),
        sealed.len(),
        work.len(),
    )?;
    exchange::key(set, seed, public, secret, work)?;
    exchange::encapsulate(set, public, message, sealed, sent, work)?;
    exchange::decapsulate(set, secret, sealed, received, work)
}
