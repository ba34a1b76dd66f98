// Key, encrypt and decrypt of the encryption scheme in one call, for sets 1 to 6, with demand 3 on what they give (01, What demand 3 speaks of): the self-test
// of a delivery.
// A call of its own beside `share_a_key`, since the C interface has both, with other slices.
#![tactic(auto)]

ghost use Rattle.std.specs.Prelude.{◌≡◌};
ghost use Rattle.calls.specs.Outcome.{outcome, accepted, leaves};
ghost use Rattle.sets.specs.Table.{set_of};
ghost use Rattle.scheme.specs.Encryption.{secret_seed, public_key, ciphertext};
ghost use Rattle.claim.specs.Claim.{encryption, given, Demand3};
ghost use Rattle.seal_and_read.specs.Answers.{seal_and_read_answer, seal_and_read_work};

use calls::Answer;

// The keys of a seed, the ciphertext of the message under the public key so given, and the message read from both with the secret key so given.
// Where it is accepted, demand 3 holds of these seeds and this message (`claim`): of the bits in the message read, which is what it calls `given`.
pub fn seal_and_read(
    set: usize,
    seed: &[u8],
    message: &[u8],
    sealing: &[u8],
    public: &mut [u8],
    secret: &mut [u8],
    sealed: &mut [u8],
    read: &mut [u8],
    work: &mut [u32],
) -> Answer
    ensures answer { outcome result ≡ seal_and_read_answer set seed.now message.now sealing.now
        public.old secret.old sealed.old read.old work.old }
    ensures given { public.new ≡ leaves (outcome result) (public_key (set_of set) seed.now) public.old }
    ensures kept { secret.new ≡ leaves (outcome result) (secret_seed (set_of set) seed.now) secret.old }
    ensures sent { sealed.new ≡ leaves (outcome result)
        (ciphertext (set_of set) (public_key (set_of set) seed.now) message.now sealing.now) sealed.old }
    ensures opened { read.new ≡ leaves (outcome result)
        (given set (encryption seed.now message.now sealing.now)) read.old }
    ensures cleared { work.new ≡ seal_and_read_work set seed.now message.now sealing.now
        public.old secret.old sealed.old read.old work.old }
    ensures claim { outcome result ≡ accepted → Demand3 set (encryption seed.now message.now sealing.now) }
{
    scheme_checks::round_trip_checked(
        sets::ENCRYPTION,
        set,
        seed.len(),
        message.len(),
        sealing.len(),
        read.len(),
        public.len(),
        secret.len(),
        sealed.len(),
        work.len(),
    )?;
    encryption::key(set, seed, public, secret, work)?;
    encryption::encrypt(set, public, message, sealing, sealed, work)?;
    encryption::decrypt(set, secret, sealed, read, work)
}
