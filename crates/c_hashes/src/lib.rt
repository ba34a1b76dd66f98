// The sponge functions as functions for callers in C (include/titanium.h).
#![tactic(auto)]

ghost use Rattle.std.specs.Prelude.{◌≡◌};
ghost use Rattle.hashes.specs.Calls.{shake_answer, shake_left, kmac_answer, kmac_left, kmacxof_left};
ghost use Rattle.c_answer.specs.Coded.{coded};

use c_answer::code;

// SHAKE256.
#[unsafe(no_mangle)]
pub extern "C" fn titanium_shake256(input: &[u8], out: &mut [u8]) -> u64
    ensures answer { result ≡ coded (shake_answer input.now out.old) }
    ensures result { out.new ≡ shake_left input.now out.old }
{
    code(hashes::shake256(input, out))
}

// KMAC256.
#[unsafe(no_mangle)]
pub extern "C" fn titanium_kmac256(
    key: &[u8],
    input: &[u8],
    customization: &[u8],
    out: &mut [u8],
) -> u64
    ensures answer { result ≡ coded (kmac_answer key.now input.now customization.now out.old) }
    ensures result { out.new ≡ kmac_left key.now input.now customization.now out.old }
{
    code(hashes::kmac256(key, input, customization, out))
}

// KMACXOF256.
#[unsafe(no_mangle)]
pub extern "C" fn titanium_kmacxof256(
    key: &[u8],
    input: &[u8],
    customization: &[u8],
    out: &mut [u8],
) -> u64
    ensures answer { result ≡ coded (kmac_answer key.now input.now customization.now out.old) }
    ensures result { out.new ≡ kmacxof_left key.now input.now customization.now out.old }
{
    code(hashes::kmacxof256(key, input, customization, out))
}
