// The open calls on bytes: SHAKE256, KMAC256 and KMACXOF256, each refused where a slice is longer than 65,536 (01, How each call answers).
#![tactic(auto)]

ghost use Rattle.std.specs.Prelude.{◌≡◌, [], ◌∷◌};
ghost use Rattle.calls.specs.Outcome.{outcome};
ghost use Rattle.hashes.specs.Calls.{within, shake_answer, shake_left, kmac_answer, kmac_left, kmacxof_left};

use calls::{Answer, Refusal};

// The longest slice that an open call accepts.
const LIMIT: usize = 65536;

// SHAKE256 as an open call.
pub fn shake256(input: &[u8], out: &mut [u8]) -> Answer
    ensures answer { outcome result ≡ shake_answer input.now out.old }
    ensures result { out.new ≡ shake_left input.now out.old }
{
    if LIMIT < input.len() {
        return Err(Refusal::Size);
    }
    if LIMIT < out.len() {
        return Err(Refusal::Size);
    }
    sponge::shake256_into(input, out);
    Ok(())
}

// Whether none of the four lengths is above the limit.
fn all_within(key: usize, input: usize, customization: usize, out: usize) -> bool
    ensures { result ≡ within (key ∷ input ∷ customization ∷ out ∷ []) }
{
    if LIMIT < key {
        return false;
    }
    if LIMIT < input {
        return false;
    }
    if LIMIT < customization {
        return false;
    }
    if LIMIT < out {
        return false;
    }
    true
}

// KMAC256 as an open call.
pub fn kmac256(key: &[u8], input: &[u8], customization: &[u8], out: &mut [u8]) -> Answer
    ensures answer { outcome result ≡ kmac_answer key.now input.now customization.now out.old }
    ensures result { out.new ≡ kmac_left key.now input.now customization.now out.old }
{
    if !all_within(key.len(), input.len(), customization.len(), out.len()) {
        return Err(Refusal::Size);
    }
    sponge::kmac256_into(key, input, customization, out);
    Ok(())
}

// KMACXOF256 as an open call. It stands beside `kmac256`, as both names are called from C, and each is one test and one call.
pub fn kmacxof256(key: &[u8], input: &[u8], customization: &[u8], out: &mut [u8]) -> Answer
    ensures answer { outcome result ≡ kmac_answer key.now input.now customization.now out.old }
    ensures result { out.new ≡ kmacxof_left key.now input.now customization.now out.old }
{
    if !all_within(key.len(), input.len(), customization.len(), out.len()) {
        return Err(Refusal::Size);
    }
    sponge::kmacxof256_into(key, input, customization, out);
    Ok(())
}
