// Lanes and bytes: a lane of 64 bits stands for eight bytes, the lowest first.
ghost use Rattle.std.specs.Prelude.{◌≡◌, ◌+◌, ◌≤◌, length};
ghost use Rattle.maths.specs.Vector.{at};
ghost use Rattle.keccak.specs.Lane.{◌⊕◌, five};
ghost use Rattle.sponge.specs.Sponge.{lane_of, mixed, lanes};

use calls::copy_in;

// Lane i of a block, and 0 past the block's end.
fn lane_of(block: &[u8], i: usize) -> u64
    requires { length block.now ≡ 136 }
    ensures { result ≡ lane_of block.now i }
{
    if 17 <= i {
        return 0;
    }
    let j = 8 * i;
    u64::from_le_bytes([
        block[j],
        block[j + 1],
        block[j + 2],
        block[j + 3],
        block[j + 4],
        block[j + 5],
        block[j + 6],
        block[j + 7],
    ])
}

// A row of the state with five lanes of the block, from lane `first` on, mixed in.
fn mix_row(a: [u64; 5], block: &[u8], first: usize) -> [u64; 5]
    requires { (length block.now ≡ 136) × (first ≤ 20) }
    ensures { result ≡ five (λ x. at a x ⊕ lane_of block.now (x + first)) }
{
    [
        a[0] ^ lane_of(block, 0 + first),
        a[1] ^ lane_of(block, 1 + first),
        a[2] ^ lane_of(block, 2 + first),
        a[3] ^ lane_of(block, 3 + first),
        a[4] ^ lane_of(block, 4 + first),
    ]
}

// The state with a block mixed in.
pub fn mix(a: [[u64; 5]; 5], block: &[u8]) -> [[u64; 5]; 5]
    requires { length block.now ≡ 136 }
    ensures { result ≡ mixed a block.now }
{
    [
        mix_row(a[0], block, 0),
        mix_row(a[1], block, 5),
        mix_row(a[2], block, 10),
        mix_row(a[3], block, 15),
        mix_row(a[4], block, 20),
    ]
}

// The first 17 lanes of the state as a block of bytes.
pub fn lane_block(a: [[u64; 5]; 5]) -> [u8; 136]
    ensures { result ≡ lanes a 17 }
{
    let mut block = [0u8; 136];
    for i in 0..17 {
        copy_in(&mut block, 8 * i, &a[i / 5][i % 5].to_le_bytes());
    }
    block
}
