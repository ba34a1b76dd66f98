// Numbers that follow from a set's parameters (specs/Derived.antt). A set's own parameters keep the rules that these functions require.
ghost use Rattle.std.specs.Prelude.{◌≡◌, ◌*◌, ◌<◌, ◌≤◌, ◌^◌};
ghost use Rattle.sets.specs.Rules.{Rules};
ghost use Rattle.sets.specs.Derived.{half_modulus_of, transform_size_of, multiplier_count_of, error_count_of, multiplier_bits_of, multiplier_bytes_of};
ghost use Rattle.sets.specs.Derived.{packed_bytes_of, public_key_bytes_of, cpa_ciphertext_bytes_of, secret_bytes, sealed_bytes};

use crate::Parameters;

// The half modulus h.
pub fn half_modulus(p: Parameters) -> u32
    requires { Rules p }
    ensures { result ≡ half_modulus_of p }
{
    (p.q - 1) / 2
}

// The size of transform number i. A number, since 003 numbers its transforms and the function holds for any number.
pub fn transform_size(p: Parameters, i: usize) -> usize
    ensures { result ≡ transform_size_of p i }
{
    match i {
        1 => p.d1,
        2 => p.d2,
        _ => p.d3,
    }
}

// N_dec: how many multipliers one sealing draws.
pub fn multiplier_count(p: Parameters) -> usize
    requires { Rules p }
    ensures { result ≡ multiplier_count_of p }
{
    p.t * (p.k + 1)
}

// How many errors one key has.
pub fn error_count(p: Parameters) -> usize
    requires { Rules p }
    ensures { (result ≡ error_count_of p) × (result ≤ 12790) }
{
    p.t * (p.d + p.k)
}

// The bits that the size of a multiplier is drawn from at a position.
pub fn multiplier_bits(p: Parameters, position: usize) -> u32
    ensures { result ≡ multiplier_bits_of p position }
{
    if position < p.ndec1 { p.b1 } else { p.b2 }
}

// Zbbytes: the bytes that the size of one multiplier is drawn from.
pub fn multiplier_bytes(p: Parameters) -> usize
    requires { Rules p }
    ensures { result ≡ multiplier_bytes_of p }
{
    (p.b2 as usize + 7) / 8
}

// The bytes that hold some numbers of some bits each.
pub fn packed_bytes(count: usize, bits: usize) -> usize
    requires { count * bits ≤ 2 ^ 32 }
    ensures { result ≡ packed_bytes_of count bits }
{
    (count * bits + 7) / 8
}

// The bytes of a public key.
pub fn public_key_bytes(p: Parameters) -> usize
    requires { Rules p }
    ensures { result ≡ public_key_bytes_of p }
{
    32 + packed_bytes(p.d1 * p.t, p.width as usize)
}

// The bytes of a ciphertext of the encryption scheme.
pub fn cpa_ciphertext_bytes(p: Parameters) -> usize
    requires { Rules p }
    ensures { result ≡ cpa_ciphertext_bytes_of p }
{
    packed_bytes(p.d2, p.width as usize) + packed_bytes(p.d, (p.width - p.cmp) as usize)
}

// The bytes of a secret key.
pub fn secret_key_bytes(p: Parameters) -> usize
    requires { Rules p }
    ensures { result ≡ secret_bytes p }
{
    if p.scheme == crate::EXCHANGE {
        32 + public_key_bytes(p)
    } else {
        32
    }
}

// The bytes of a ciphertext of a set's own scheme.
pub fn ciphertext_bytes(p: Parameters) -> usize
    requires { Rules p }
    ensures { result ≡ sealed_bytes p }
{
    let sealed = cpa_ciphertext_bytes(p);
    if p.scheme == crate::EXCHANGE {
        sealed + 32
    } else {
        sealed
    }
}
