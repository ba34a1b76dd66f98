// Key, sealing and reading in one call of either scheme. A line has the set, which lengths were changed, and the length of each slice of the call. The outputs
// are filled with patterns before, and the checksums cover what lies behind them too.
use crate::patterns::filled;
use crate::store;
use calls::Answer;
use report::script::Line;
use report::{Hex, checksum, front_mut, part};
use std::io;

// What the slices of a call lie in. A sender's shared key is given by the key exchange alone: of the other scheme its pattern stays.
#[derive(Drop)]
struct Outputs {
    public: [u8; 26945],
    secret: [u8; 26945],
    sealed: [u8; 8353],
    sent: [u8; 33],
    received: [u8; 33],
    work: [u32; 25081],
}

impl Outputs {
    fn new() -> Outputs {
        Outputs {
            public: filled(1),
            secret: filled(2),
            sealed: filled(3),
            sent: filled(4),
            received: filled(5),
            work: [7; 25081],
        }
    }

    // Prints the line of a call: its answer, checksums of the keys, the ciphertext and the work slice, and the message or the two shared keys themselves.
    fn print(&self, rt: &impl Print, line: Line, answer: Answer) -> io::Result<()> {
        let [set, change, ..] = line.operands;
        report::call(rt, b"whole", set, change)?;
        report::answer(rt, answer)?;
        let public = checksum(report::front(&self.public, 26913));
        let secret = checksum(&self.secret);
        let sealed = checksum(&self.sealed);
        print!(rt; " {public} {secret} {sealed}")?;
        println!(rt;
            " {} {} {}",
            Hex(&self.sent),
            Hex(&self.received),
            checksum(&self.work)
        )
    }
}

// The encryption scheme.
pub fn seal_and_read(rt: &impl Print, line: Line, store: &[u8]) -> io::Result<()> {
    let [
        set,
        _,
        seed,
        message,
        sealing,
        public,
        secret,
        sealed,
        received,
        work,
        ..
    ] = line.operands;
    let mut outputs = Outputs::new();
    let answer = seal_and_read::seal_and_read(
        set,
        part(store, store::SEED, seed),
        part(store, store::MESSAGE, message),
        part(store, store::SEALING, sealing),
        front_mut(&mut outputs.public, public),
        front_mut(&mut outputs.secret, secret),
        front_mut(&mut outputs.sealed, sealed),
        front_mut(&mut outputs.received, received),
        front_mut(&mut outputs.work, work),
    );
    outputs.print(rt, line, answer)
}

// The key exchange, which has no sealing seed.
pub fn share_a_key(rt: &impl Print, line: Line, store: &[u8]) -> io::Result<()> {
    let [
        set,
        _,
        seed,
        message,
        public,
        secret,
        sealed,
        sent,
        received,
        work,
        ..
    ] = line.operands;
    let mut outputs = Outputs::new();
    let answer = share_a_key::share_a_key(
        set,
        part(store, store::SEED, seed),
        part(store, store::MESSAGE, message),
        front_mut(&mut outputs.public, public),
        front_mut(&mut outputs.secret, secret),
        front_mut(&mut outputs.sealed, sealed),
        front_mut(&mut outputs.sent, sent),
        front_mut(&mut outputs.received, received),
        front_mut(&mut outputs.work, work),
    );
    outputs.print(rt, line, answer)
}
