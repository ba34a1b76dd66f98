// Runs a script of calls of the encryption scheme, of the key exchange and of the noise sheet. Standard input holds the script, which the Rust comparison
// writes beside what must be printed.
#![tactic(auto)]

mod inner;
mod made;
mod patterns;
mod schemes;
mod sheets;
mod store;
mod whole;

use report::Hex;
use report::script::{Line, Script};
use schemes::Call;
use std::io;
use std::io::Read;

// What a line asks for: a change of the store, a call that keeps in the store what it makes, or a call that leaves the store as it is.
#[derive(Clone, Copy)]
enum Command {
    Put,
    FillPattern,
    FillRandom,
    Repeat,
    Flip,
    PrintText,
    PrintHex,
    PrintDigest,
    Call(Call),
    SealAndRead,
    ShareAKey,
    Open,
    PrintUnpacked,
    Sheet,
    Bound,
    MadeSheet,
}

// The first number of a line tells.
impl From<usize> for Command {
    fn from(number: usize) -> Command {
        match number {
            0 => Command::Put,
            1 => Command::FillPattern,
            2 => Command::FillRandom,
            3 => Command::Repeat,
            4 => Command::Flip,
            5 => Command::PrintText,
            6 => Command::PrintHex,
            8 => Command::Call(Call::EncryptionKey),
            9 => Command::Call(Call::ExchangeKey),
            10 => Command::Call(Call::Encrypt),
            11 => Command::Call(Call::Encapsulate),
            12 => Command::Call(Call::Decrypt),
            13 => Command::Call(Call::Decapsulate),
            14 => Command::SealAndRead,
            15 => Command::ShareAKey,
            16 => Command::Open,
            17 => Command::PrintUnpacked,
            18 => Command::Sheet,
            19 => Command::Bound,
            20 => Command::MadeSheet,
            _ => Command::PrintDigest,
        }
    }
}

// Runs one line of the script.
fn step(rt: &impl Print, line: Line, store: &mut [u8]) -> io::Result<()> {
    let [place, count, told, ..] = line.operands;
    match Command::from(line.command) {
        Command::Put => store::put(line, store),
        Command::FillPattern => report::fill_bytes(report::part_mut(store, place, count), told),
        Command::FillRandom => store::fill_random(line, store),
        Command::Repeat => store::repeat(line, store),
        Command::Flip => store::flip(store, place, report::low_byte(count)),
        Command::PrintText => rt.write_all(report::part(store, place, count))?,
        Command::PrintHex => println!(rt; " {}", Hex(report::part(store, place, count)))?,
        Command::PrintDigest => store::print_digest(rt, report::part(store, place, count))?,
        Command::Call(call) => schemes::make(rt, call, line, store)?,
        Command::SealAndRead => whole::seal_and_read(rt, line, store)?,
        Command::ShareAKey => whole::share_a_key(rt, line, store)?,
        Command::Open => inner::open(rt, line, store)?,
        Command::PrintUnpacked => inner::print_unpacked(rt, line, store)?,
        Command::Sheet => sheets::print_sheet(rt, line, store)?,
        Command::Bound => sheets::print_bound(rt, place)?,
        Command::MadeSheet => made::print_made(rt, store)?,
    }
    Ok(())
}

// Runs every line, of at most a million.
fn run<R: Read + Drop>(rt: &impl Print, input: R, store: &mut [u8]) -> io::Result<()> {
    for line in Script::new(input).take(1000000) {
        step(rt, line?, store)?;
    }
    Ok(())
}

fn main(rt: HostRuntime) -> io::Result<()> {
    let mut store = [0u8; store::END];
    run(&rt, rt.stdin(), &mut store)
}
