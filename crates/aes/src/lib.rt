// AES-256 (FIPS 197). A state is four words, one for each column.
#![tactic(auto)]

ghost use Rattle.std.specs.Prelude.{◌≡◌, length};
ghost use Rattle.aes.specs.Key.{aes256};

pub mod cipher;
pub mod key;

// AES-256 of a block under a key.
pub fn encrypt_block(key: &[u8], block: &[u8]) -> [u8; 16]
    requires { (length key.now ≡ 32) × (length block.now ≡ 16) }
    ensures { result ≡ aes256 key.now block.now }
{
    let sub = aes_tables::tables::substitution();
    let table = aes_tables::tables::round_table(&sub);
    let keys = key::expand(&sub, key);
    let state = cipher::encrypt(&sub, &table, &keys, aes_tables::word::columns_of(block));
    aes_tables::word::block_of(state)
}
