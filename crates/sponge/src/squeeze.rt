// Giving bytes out: the state is permuted before each block of output.
ghost use Rattle.std.specs.Prelude.{◌≡◌, ◌+◌, ◌/◌, length, take};
ghost use Rattle.keccak.specs.Keccak.{keccak_f};
ghost use Rattle.sponge.specs.Sponge.{squeezed};

use crate::lanes::lane_block;
use calls::copy_in;

// Fills `out` from a state whose last permutation is still to be done.
pub fn squeeze(state: [[u64; 5]; 5], out: &mut [u8])
    ensures { out.new ≡ take (length out.old) (squeezed (keccak_f state) (length out.old / 136 + 1)) }
{
    let mut a = state;
    // By the number of the block: tried with `chunks_mut`, and of what a loop writes through it a proof knows the length alone.
    for turn in 0..out.len().div_ceil(136) {
        let next = keccak::permute(a);
        a = next;
        let block = lane_block(a);
        let start = 136 * turn;
        let n = (out.len() - start).min(136);
        copy_in(out, start, &block[0..n]);
    }
}
