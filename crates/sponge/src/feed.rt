// A sponge that takes bytes in: they wait in a block, and each block that is full goes into the state.
ghost use Rattle.std.specs.Prelude.{◌≡◌, List, [], ℕ, ◌+◌, ◌-◌, ◌%◌, ◌<◌, ◌≤◌, length, replicate};
ghost use Rattle.keccak.specs.Keccak.{keccak_f};
ghost use Rattle.sponge.specs.Sponge.{mixed, sponge};
ghost use Rattle.sponge.specs.Taken.{Holds, TakesIn};

use crate::block::pad_at;
use crate::lanes::mix;
use crate::squeeze::squeeze;
use crate::state::Sponge;
use calls::copy_in;

impl Sponge {
    // A sponge that has taken nothing in.
    pub fn new() -> Sponge
        ensures { Holds [] result }
    {
        Sponge {
            state: [[0; 5]; 5],
            block: [0; 136],
            waiting: 0,
        }
    }

    // The block, which is full, goes into the state.
    fn absorb(&mut self)
        ensures { (self.new.state ≡ keccak_f (mixed self.old.state self.old.block)) × (self.new.block ≡ self.old.block) × (self.new.waiting ≡ 0) }
    {
        let mixed = mix(self.state, &self.block);
        let next = keccak::permute(mixed);
        self.state = next;
        self.waiting = 0;
    }

    // Takes a piece in for which the block has room; a block that it fills goes into the state.
    fn take(&mut self, piece: &[u8])
        requires { self.old.waiting + length piece.now ≤ 136 }
        ensures { TakesIn self.old piece.now self.new }
    {
        let at = self.waiting;
        let end = at + piece.len();
        copy_in(&mut self.block, at, piece);
        if end < 136 {
            self.waiting = end;
            return;
        }
        self.absorb();
    }

    // Takes bytes in: what the block has room for, and then block by block.
    pub fn feed(&mut self, bytes: &[u8])
        ensures { TakesIn self.old bytes.now self.new }
    {
        let first = bytes.len().min(136 - self.waiting);
        let (head, rest) = bytes.split_at(first);
        self.take(head);
        for piece in rest.chunks(136) {
            self.take(piece);
        }
    }

    // Takes zeros in, up to the end of the block.
    pub fn fill_up(&mut self)
        ensures { TakesIn self.old (replicate ((136 - self.old.waiting) % 136) 0) self.new }
    {
        if self.waiting > 0 {
            let at = self.waiting;
            self.block[at..136].fill(0);
            self.absorb();
        }
    }

    // Pads what waits, and fills `out` with the sponge's bytes for all that was taken in.
    pub fn finish(mut self, suffix: u8, out: &mut [u8])
        requires { suffix < 128 }
        ensures { (m : List ℕ) → Holds m self → out.new ≡ sponge suffix m (length out.old) }
    {
        let at = self.waiting;
        pad_at(&mut self.block, at, suffix);
        squeeze(mix(self.state, &self.block), out);
    }
}
