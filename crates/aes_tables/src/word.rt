// Words as numbers of 32 bits (specs/Words.antt).
ghost use Rattle.std.specs.Prelude.{◌≡◌, [], ◌∷◌, ◌+◌, ◌-◌, ◌%◌, ◌<◌, ◌≤◌, length};
ghost use Rattle.maths.specs.Vector.{at};
ghost use Rattle.aes_tables.specs.State.{four, state_of, block_of};
ghost use Rattle.aes_tables.specs.Words.{byte_of, word, columns};

// The word of four bytes.
pub fn word_of(b0: u8, b1: u8, b2: u8, b3: u8) -> u32
    ensures { word result ≡ b0 ∷ b1 ∷ b2 ∷ b3 ∷ [] }
{
    u32::from_le_bytes([b0, b1, b2, b3])
}

// Four bytes of a slice as a word.
pub fn word_at(bytes: &[u8], start: usize) -> u32
    requires { start + 4 ≤ length bytes.now }
    ensures { word result ≡ four (λ i. at bytes.now (start + i)) }
{
    word_of(
        bytes[start],
        bytes[start + 1],
        bytes[start + 2],
        bytes[start + 3],
    )
}

// The state of a block.
pub fn columns_of(block: &[u8]) -> [u32; 4]
    requires { length block.now ≡ 16 }
    ensures { columns result ≡ state_of block.now }
{
    [
        word_at(block, 0),
        word_at(block, 4),
        word_at(block, 8),
        word_at(block, 12),
    ]
}

// A word whose bytes move up by some places, the last ones to the front.
pub fn rotate(w: u32, places: u32) -> u32
    requires { (0 < places) × (places < 4) }
    ensures { word result ≡ four (λ i. byte_of ((i + (4 - places)) % 4) w) }
{
    w.rotate_left(8 * places)
}

// The block of a state.
pub fn block_of(s: [u32; 4]) -> [u8; 16]
    ensures { result ≡ block_of (columns s) }
{
    let a = s[0].to_le_bytes();
    let b = s[1].to_le_bytes();
    let c = s[2].to_le_bytes();
    let d = s[3].to_le_bytes();
    [
        a[0], a[1], a[2], a[3], b[0], b[1], b[2], b[3], c[0], c[1], c[2], c[3], d[0], d[1], d[2],
        d[3],
    ]
}
