// The checks of set and lengths that come before the draws of a call, the same for both schemes (01, How each call answers: Encryption scheme, Key
// exchange; 02, No. 1). They give the set's record, so that a call looks it up once.
#![tactic(auto)]

ghost use Rattle.std.specs.Prelude.{◌≡◌, not, Err, MatchResult};
ghost use Rattle.calls.specs.Outcome.{outcome, accepted, refuse};
ghost use Rattle.sets.specs.Table.{set_of};
ghost use Rattle.sets.specs.Rules.{Rules};
ghost use Rattle.sets.specs.Derived.{is_of};
ghost use Rattle.scheme.specs.Answers.{refuse_set, key_checks, encrypt_checks, decrypt_checks, round_trip_checks};
ghost use Rattle.scheme_checks.specs.Checked.{Checked};

use calls::{Answer, Refusal};
use sets::Parameters;

// The record of a set; refused with 1 when the set is not 1 to 12, with 8 when it is not one of the scheme with this number.
fn set_checked(number: u32, set: usize) -> Result<Parameters, Refusal>
    ensures { MatchResult result (λ p. (p ≡ set_of set) × (accepted ≡ refuse_set (is_of number) set accepted) × Rules p)
        (λ refusal. outcome (Err refusal) ≡ refuse_set (is_of number) set accepted) }
{
    if set < 1 {
        return Err(Refusal::NoSuchSet);
    }
    if sets::LAST < set {
        return Err(Refusal::NoSuchSet);
    }
    let p = sets::parameters_of(set);
    if p.scheme != number {
        return Err(Refusal::OtherScheme);
    }
    Ok(p)
}

// Refused with 2 when seeds, messages, keys or shared keys do not fit, then with 9 when the ciphertext does not, then with 10 when the work slice does not.
fn lengths_checked(slices: bool, ciphertext: bool, work: bool) -> Answer
    ensures { outcome result ≡ refuse (not slices) 2 0 (refuse (not ciphertext) 9 0 (refuse (not work) 10 0 accepted)) }
{
    if !slices {
        return Err(Refusal::Length);
    }
    if !ciphertext {
        return Err(Refusal::CiphertextLength);
    }
    if !work {
        return Err(Refusal::WorkLength);
    }
    Ok(())
}

// The checks of key, which has no ciphertext.
pub fn key_checked(
    number: u32,
    set: usize,
    seed: usize,
    public: usize,
    secret: usize,
    work: usize,
) -> Result<Parameters, Refusal>
    ensures { Checked set (key_checks (is_of number) set seed public secret work) result }
{
    let p = set_checked(number, set)?;
    let slices = (seed == 32)
        & (public == sets::derived::public_key_bytes(p))
        & (secret == sets::derived::secret_key_bytes(p));
    lengths_checked(slices, true, work == scheme::work_length(p))?;
    Ok(p)
}

// The checks of encrypt and of encapsulate; `other` is the sealing seed of one, the shared key of the other.
pub fn encrypt_checked(
    number: u32,
    set: usize,
    public: usize,
    message: usize,
    other: usize,
    ciphertext: usize,
    work: usize,
) -> Result<Parameters, Refusal>
    ensures { Checked set (encrypt_checks (is_of number) set public message other ciphertext work) result }
{
    let p = set_checked(number, set)?;
    let slices = (public == sets::derived::public_key_bytes(p)) & (message == 32) & (other == 32);
    lengths_checked(
        slices,
        ciphertext == sets::derived::ciphertext_bytes(p),
        work == scheme::work_length(p),
    )?;
    Ok(p)
}

// The checks of decrypt and of decapsulate, which give a message or a shared key.
pub fn decrypt_checked(
    number: u32,
    set: usize,
    secret: usize,
    ciphertext: usize,
    given: usize,
    work: usize,
) -> Result<Parameters, Refusal>
    ensures { Checked set (decrypt_checks (is_of number) set secret ciphertext given work) result }
{
    let p = set_checked(number, set)?;
    let slices = (secret == sets::derived::secret_key_bytes(p)) & (given == 32);
    lengths_checked(
        slices,
        ciphertext == sets::derived::ciphertext_bytes(p),
        work == scheme::work_length(p),
    )?;
    Ok(p)
}

// The checks of key, sealing and reading in one call: all their slices before the ciphertext, and that before the work slice.
pub fn round_trip_checked(
    number: u32,
    set: usize,
    seed: usize,
    message: usize,
    other: usize,
    given: usize,
    public: usize,
    secret: usize,
    ciphertext: usize,
    work: usize,
) -> Result<Parameters, Refusal>
    ensures { Checked set (round_trip_checks (is_of number) set seed message other given public secret ciphertext work) result }
{
    let p = set_checked(number, set)?;
    let fixed = (seed == 32) & (message == 32) & (other == 32) & (given == 32);
    let slices = fixed
        & (public == sets::derived::public_key_bytes(p))
        & (secret == sets::derived::secret_key_bytes(p));
    lengths_checked(
        slices,
        ciphertext == sets::derived::ciphertext_bytes(p),
        work == scheme::work_length(p),
    )?;
    Ok(p)
}
