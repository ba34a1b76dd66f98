// The lengths of a set's slices as functions for callers in C (include/titanium.h); 0 where there is no such set.
#![tactic(auto)]

ghost use Rattle.std.specs.Prelude.{◌≡◌, true, false, MatchOption};
ghost use Rattle.sets.specs.Table.{set_of, no_set};
ghost use Rattle.sets.specs.Rules.{Rules};
ghost use Rattle.sets.specs.Derived.{public_key_bytes_of, secret_key_bytes_of, ciphertext_bytes_of};
ghost use Rattle.scheme.specs.Answers.{work_length_of};
ghost use Rattle.c_lengths.specs.Lengths.{length_of};

use sets::Parameters;

// The record of a set, where there is such a set.
fn record_of(set: usize) -> Option<Parameters>
    ensures { MatchOption result (no_set set ≡ true) (λ p. (no_set set ≡ false) × (p ≡ set_of set) × Rules p) }
{
    if sets::LAST < set {
        return None;
    }
    Some(sets::parameters_of(set))
}

// Bytes of a public key.
#[unsafe(no_mangle)]
pub extern "C" fn titanium_public_key_bytes(set: usize) -> usize
    ensures { result ≡ length_of (λ number. public_key_bytes_of (set_of number)) set }
{
    record_of(set).map_or(0, sets::derived::public_key_bytes)
}

// Bytes of a secret key.
#[unsafe(no_mangle)]
pub extern "C" fn titanium_secret_key_bytes(set: usize) -> usize
    ensures { result ≡ length_of secret_key_bytes_of set }
{
    record_of(set).map_or(0, sets::derived::secret_key_bytes)
}

// Bytes of a ciphertext.
#[unsafe(no_mangle)]
pub extern "C" fn titanium_ciphertext_bytes(set: usize) -> usize
    ensures { result ≡ length_of ciphertext_bytes_of set }
{
    record_of(set).map_or(0, sets::derived::ciphertext_bytes)
}

// Numbers of the work slice.
#[unsafe(no_mangle)]
pub extern "C" fn titanium_work_numbers(set: usize) -> usize
    ensures { result ≡ length_of (λ number. work_length_of (set_of number)) set }
{
    record_of(set).map_or(0, scheme::work_length)
}
