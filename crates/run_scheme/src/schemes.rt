// The calls of both schemes. Their outputs are filled with patterns before, and kept in the store. A line has what is printed of the call, the set, which
// lengths were changed, and the length of each slice of the call, the work slice last.
use crate::patterns::filled;
use crate::store;
use calls::Answer;
use report::script::Line;
use report::{Hex, checksum, front_mut, part};
use std::io;

// A call of the encryption scheme or of the key exchange.
#[derive(Clone, Copy)]
pub enum Call {
    EncryptionKey,
    ExchangeKey,
    Encrypt,
    Encapsulate,
    Decrypt,
    Decapsulate,
}

impl Call {
    fn name(self) -> &'static str {
        match self {
            Call::EncryptionKey | Call::ExchangeKey => "key",
            Call::Encrypt => "encrypt",
            Call::Encapsulate => "encapsulate",
            Call::Decrypt => "decrypt",
            Call::Decapsulate => "decapsulate",
        }
    }
}

// Key of either scheme, with the seed of the store.
fn key<F: FnOnce(usize, &[u8], &mut [u8], &mut [u8], &mut [u32]) -> Answer>(
    line: Line,
    store: &mut [u8],
    work: &mut [u32],
    make: F,
) -> Answer
    requires { F.IsAlwaysCallable make }
{
    let [_, set, _, seed, public, secret, lent, ..] = line.operands;
    let mut public_key = filled::<26945>(1);
    let mut secret_key = filled::<26945>(2);
    let answer = make(
        set,
        part(store, store::SEED, seed),
        front_mut(&mut public_key, public),
        front_mut(&mut secret_key, secret),
        front_mut(work, lent),
    );
    store::keep(store, store::PUBLIC, 26913, &public_key);
    store::keep(store, store::SECRET, 26945, &secret_key);
    answer
}

// Encrypt.
fn encrypt(line: Line, store: &mut [u8], work: &mut [u32]) -> Answer {
    let [_, set, _, public, message, sealing, written, lent, ..] = line.operands;
    let mut sealed = filled::<8353>(3);
    let answer = encryption::encrypt(
        set,
        part(store, store::PUBLIC, public),
        part(store, store::MESSAGE, message),
        part(store, store::SEALING, sealing),
        front_mut(&mut sealed, written),
        front_mut(work, lent),
    );
    store::keep(store, store::SEALED, 8353, &sealed);
    answer
}

// Encapsulate.
fn encapsulate(line: Line, store: &mut [u8], work: &mut [u32]) -> Answer {
    let [_, set, _, public, message, written, shared_length, lent, ..] = line.operands;
    let mut sealed = filled::<8353>(3);
    let mut shared = filled::<33>(4);
    let answer = exchange::encapsulate(
        set,
        part(store, store::PUBLIC, public),
        part(store, store::MESSAGE, message),
        front_mut(&mut sealed, written),
        front_mut(&mut shared, shared_length),
        front_mut(work, lent),
    );
    store::keep(store, store::SEALED, 8353, &sealed);
    store::keep(store, store::SHARED, 33, &shared);
    answer
}

// Opens the ciphertext of the store with the secret key there: decrypts, or decapsulates. What is opened lies in bytes with a pattern.
fn open<F: FnOnce(usize, &[u8], &[u8], &mut [u8], &mut [u32]) -> Answer>(
    line: Line,
    store: &mut [u8],
    work: &mut [u32],
    pattern: usize,
    read: F,
) -> Answer
    requires { F.IsAlwaysCallable read }
{
    let [_, set, _, secret, sealed, written, lent, ..] = line.operands;
    let mut opened = filled::<33>(pattern);
    let answer = read(
        set,
        part(store, store::SECRET, secret),
        part(store, store::SEALED, sealed),
        front_mut(&mut opened, written),
        front_mut(work, lent),
    );
    store::keep(store, store::OPENED, 33, &opened);
    answer
}

// Prints checksums of the long things that a call made, and the short ones themselves.
fn print_made(rt: &impl Print, call: Call, store: &[u8]) -> io::Result<()> {
    let public = part(store, store::PUBLIC, 26913);
    match call {
        Call::EncryptionKey => {
            // a secret key of the encryption scheme is short
            print!(rt;
                " {} {}",
                checksum(public),
                Hex(part(store, store::SECRET, 33))
            )
        }
        Call::ExchangeKey => {
            print!(rt;
                " {} {}",
                checksum(public),
                checksum(part(store, store::SECRET, 26945))
            )
        }
        Call::Encrypt => print!(rt; " {}", checksum(part(store, store::SEALED, 8321))),
        Call::Encapsulate => {
            let sealed = checksum(part(store, store::SEALED, 8353));
            print!(rt; " {sealed} {}", Hex(part(store, store::SHARED, 33)))
        }
        Call::Decrypt | Call::Decapsulate => print!(rt; " {}", Hex(part(store, store::OPENED, 33))),
    }
}

// Makes a call, and prints its line, only its answer, or nothing.
pub fn make(rt: &impl Print, call: Call, line: Line, store: &mut [u8]) -> io::Result<()> {
    let mut work = [7u32; 25081];
    let answer = match call {
        Call::EncryptionKey => key(line, store, &mut work, encryption::key),
        Call::ExchangeKey => key(line, store, &mut work, exchange::key),
        Call::Encrypt => encrypt(line, store, &mut work),
        Call::Encapsulate => encapsulate(line, store, &mut work),
        Call::Decrypt => open(line, store, &mut work, 4, encryption::decrypt),
        Call::Decapsulate => open(line, store, &mut work, 5, exchange::decapsulate),
    };
    match line.operands[0] {
        0 => Ok(()),
        2 => report::answer(rt, answer),
        _ => {
            report::call_and_answer(rt, call.name(), &line.operands[1..3], answer)?;
            print_made(rt, call, store)?;
            println!(rt; " {}", checksum(&work))
        }
    }
}
