// What no open call shows: the numbers of c2 before packing, and what decapsulation reads, of which it shows only whether it is encrypted again to the same
// ciphertext.
use crate::store;
use calls::{Answer, Refusal};
use report::Spaced;
use report::script::Line;
use std::io;

// Reads a ciphertext of Titanium-CPA, where every slice has the set's length.
fn read(
    set: usize,
    seed: &[u8],
    sealed: &[u8],
    message: &mut [u8; 32],
    work: &mut [u32],
) -> Answer {
    if set < 1 {
        return Err(Refusal::NoSuchSet);
    }
    if sets::LAST < set {
        return Err(Refusal::NoSuchSet);
    }
    let p = sets::parameters_of(set);
    let Some(seed) = seed.as_array() else {
        return Err(Refusal::Length);
    };
    if sealed.len() != sets::derived::cpa_ciphertext_bytes(p) {
        return Err(Refusal::Length);
    }
    if work.len() != scheme::work_length(p) {
        return Err(Refusal::Length);
    }
    cpa_decrypt::decrypt(p, seed, sealed, message, work)
}

// The same with the secret key and the ciphertext of the store; prints the answer, and keeps what is read. A line has the set and the lengths of the ciphertext
// and of the work slice.
pub fn open(rt: &impl Print, line: Line, store: &mut [u8]) -> io::Result<()> {
    let [set, sealed, lent, ..] = line.operands;
    let mut message = [0u8; 32];
    let mut work = [0u32; 25080];
    report::answer(
        rt,
        read(
            set,
            report::part(store, store::SECRET, 32),
            report::part(store, store::SEALED, sealed),
            &mut message,
            report::front_mut(&mut work, lent),
        ),
    )?;
    store::keep(store, store::OPENED, 32, &message);
    Ok(())
}

// Writes the numbers of c2, where every slice has the set's length and every number of the public key is a residue.
fn write_unpacked(
    set: usize,
    public: &[u8],
    message: &[u8],
    seed: &[u8],
    out: &mut [u32],
    work: &mut [u32],
) {
    if set < 1 {
        return;
    }
    if sets::LAST < set {
        return;
    }
    let p = sets::parameters_of(set);
    if public.len() != sets::derived::public_key_bytes(p) {
        return;
    }
    let Some(seed) = seed.as_array() else {
        return;
    };
    if out.len() != p.d {
        return;
    }
    if work.len() != scheme::work_length(p) {
        return;
    }
    if !cpa_encrypt::key_below(p, public, work) {
        return;
    }
    cpa_encrypt::numbers_before_packing(p, public, message, seed, out, work);
}

// Prints the first eight of them, of what the store holds. A line has the set and the lengths of the public key and of the work slice.
pub fn print_unpacked(rt: &impl Print, line: Line, store: &[u8]) -> io::Result<()> {
    let [set, public, lent, ..] = line.operands;
    let mut numbers = [0u32; 256];
    let mut work = [0u32; 25080];
    write_unpacked(
        set,
        report::part(store, store::PUBLIC, public),
        report::part(store, store::MESSAGE, 32),
        report::part(store, store::SEALING, 32),
        &mut numbers,
        report::front_mut(&mut work, lent),
    );
    println!(rt; "{}", Spaced(&numbers[..8]))
}
