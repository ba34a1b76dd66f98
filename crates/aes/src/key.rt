// The key schedule of AES-256 (FIPS 197, section 5.2; specs/Key.antt).
ghost use Rattle.std.specs.Prelude.{◌≡◌, ◌≤◌, ◌<◌, length, take};
ghost use Rattle.aes.specs.Key.{sub_word_of, rcon, temp, next_word_of, key_expansion};
ghost use Rattle.aes_tables.specs.Words.{word, schedule, SubstitutionTable};

use aes_tables::tables::substituted;
use aes_tables::word::{rotate, word_at};

// SubWord.
fn sub_word(sub: &[u8], w: u32) -> u32
    requires { SubstitutionTable sub.now }
    ensures { word result ≡ sub_word_of (word w) }
{
    substituted(sub, w, w, w, w)
}

// The round constant Rcon[j].
fn round_constant(j: usize) -> u32
    requires { (1 ≤ j) × (j < 8) }
    ensures { word result ≡ rcon j }
{
    let constants = [0u32, 1, 2, 4, 8, 16, 32, 64];
    constants[j]
}

// What is added to the word eight places before word i, from the word before it.
fn temp(sub: &[u8], previous: u32, i: usize) -> u32
    requires { SubstitutionTable sub.now × (8 ≤ i) × (i < 60) }
    ensures { word result ≡ temp (word previous) i }
{
    if i % 8 == 0 {
        return sub_word(sub, rotate(previous, 3)) ^ round_constant(i / 8);
    }
    if i % 8 == 4 {
        return sub_word(sub, previous);
    }
    previous
}

// Word i, from the key and the words before it.
fn next_word(sub: &[u8], key: &[u8], w: &[u32], i: usize) -> u32
    requires { SubstitutionTable sub.now × (length key.now ≡ 32) × (length w.now ≡ 60) × (i < 60) }
    ensures { word result ≡ next_word_of key.now (schedule (take i w.now)) i }
{
    if i < 8 {
        return word_at(key, 4 * i);
    }
    w[i - 8] ^ temp(sub, w[i - 1], i)
}

// The key schedule of a key of 32 bytes.
pub fn expand(sub: &[u8], key: &[u8]) -> [u32; 60]
    requires { SubstitutionTable sub.now × (length key.now ≡ 32) }
    ensures { schedule result ≡ key_expansion key.now }
{
    let mut w = [0u32; 60];
    for i in 0..60 {
        w[i] = next_word(sub, key, &w, i);
    }
    w
}
