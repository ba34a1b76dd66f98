// The rounds of AES-256 (FIPS 197, section 5.1; specs/Cipher.antt).
ghost use Rattle.std.specs.Prelude.{◌≡◌, [], ◌∷◌, ◌+◌, ◌*◌, ◌<◌, length};
ghost use Rattle.maths.specs.Vector.{at};
ghost use Rattle.aes_tables.specs.Substitution.{sbox};
ghost use Rattle.aes_tables.specs.State.{four};
ghost use Rattle.aes.specs.Cipher.{sub_bytes, shift_rows, mix_column, mix_columns, add_round_key, cipher};
ghost use Rattle.aes_tables.specs.State.{add_words};
ghost use Rattle.aes_tables.specs.Words.{byte_of, word, columns, schedule, SubstitutionTable, RoundTable};

use aes_tables::tables::{round_entry, substituted};
use aes_tables::word::rotate;

// A column of a round: row i is taken from the i-th of four columns, substituted and mixed, and the word k of the round key is added.
fn round_column(table: &[u32], a: u32, b: u32, c: u32, d: u32, k: u32) -> u32
    requires { RoundTable table.now }
    ensures { word result ≡ add_words (mix_column (sbox (byte_of 0 a)) (sbox (byte_of 1 b)) (sbox (byte_of 2 c)) (sbox (byte_of 3 d))) (word k) }
{
    let first = round_entry(table, a % 256);
    let second = rotate(round_entry(table, b / 256 % 256), 1);
    let third = rotate(round_entry(table, c / 256 / 256 % 256), 2);
    let fourth = rotate(round_entry(table, d / 256 / 256 / 256 % 256), 3);
    first ^ second ^ third ^ fourth ^ k
}

// One round.
fn round(table: &[u32], s: [u32; 4], k: [u32; 4]) -> [u32; 4]
    requires { RoundTable table.now }
    ensures { columns result ≡ add_round_key (mix_columns (shift_rows (sub_bytes (columns s)))) (columns k) }
{
    [
        round_column(table, s[0], s[1], s[2], s[3], k[0]),
        round_column(table, s[1], s[2], s[3], s[0], k[1]),
        round_column(table, s[2], s[3], s[0], s[1], k[2]),
        round_column(table, s[3], s[0], s[1], s[2], k[3]),
    ]
}

// A column of the last round, which has no MixColumns.
fn last_column(sub: &[u8], a: u32, b: u32, c: u32, d: u32, k: u32) -> u32
    requires { SubstitutionTable sub.now }
    ensures { word result ≡ add_words (sbox (byte_of 0 a) ∷ sbox (byte_of 1 b) ∷ sbox (byte_of 2 c) ∷ sbox (byte_of 3 d) ∷ []) (word k) }
{
    substituted(sub, a, b, c, d) ^ k
}

// The last round.
fn last_round(sub: &[u8], s: [u32; 4], k: [u32; 4]) -> [u32; 4]
    requires { SubstitutionTable sub.now }
    ensures { columns result ≡ add_round_key (shift_rows (sub_bytes (columns s))) (columns k) }
{
    [
        last_column(sub, s[0], s[1], s[2], s[3], k[0]),
        last_column(sub, s[1], s[2], s[3], s[0], k[1]),
        last_column(sub, s[2], s[3], s[0], s[1], k[2]),
        last_column(sub, s[3], s[0], s[1], s[2], k[3]),
    ]
}

// A round key is added.
fn add_key(s: [u32; 4], k: [u32; 4]) -> [u32; 4]
    ensures { columns result ≡ add_round_key (columns s) (columns k) }
{
    [s[0] ^ k[0], s[1] ^ k[1], s[2] ^ k[2], s[3] ^ k[3]]
}

// The words of round n.
fn round_key(keys: &[u32], n: usize) -> [u32; 4]
    requires { (length keys.now ≡ 60) × (n < 15) }
    ensures { result ≡ four (λ c. at keys.now (4 * n + c)) }
{
    let at = 4 * n;
    [keys[at], keys[at + 1], keys[at + 2], keys[at + 3]]
}

// The cipher: a state under a key schedule, with both tables.
pub fn encrypt(sub: &[u8], table: &[u32], keys: &[u32], block: [u32; 4]) -> [u32; 4]
    requires { SubstitutionTable sub.now × RoundTable table.now × (length keys.now ≡ 60) }
    ensures { columns result ≡ cipher (schedule keys.now) (columns block) }
{
    let mut s = add_key(block, round_key(keys, 0));
    for n in 1..14 {
        let t = round(table, s, round_key(keys, n));
        s = t;
    }
    last_round(sub, s, round_key(keys, 14))
}
