// A sponge between two calls.
ghost use Rattle.std.specs.Prelude.{◌<◌};

// The state, and a block of which the first bytes wait.
#[derive(Drop)]
pub struct Sponge {
    pub state: [[u64; 5]; 5],
    pub block: [u8; 136],
    pub waiting: usize,
    ghost room: { waiting < 136 },
}
