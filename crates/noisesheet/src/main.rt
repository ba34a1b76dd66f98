// Prints the noise sheet of standard input, or the line of its refusal (01, The bench sheet).
#![tactic(auto)]

ghost use Rattle.std.specs.Prelude.{◌≤◌, length, IfOk};

use std::io;
use std::io::Read;

// Reads until the bytes are full or the input ends, and gives how many it put at their start: a loop of its own, since std fills a slice whole or not at all
// and `read_to_end` takes heap, of which this repository has none.
fn read_full(input: &mut impl Read, bytes: &mut [u8]) -> io::Result<usize>
    ensures { IfOk result (λ count. count ≤ length bytes.new) }
{
    let mut done = 0;
    while done < bytes.len() {
        let count = input.read(&mut bytes[done..])?;
        if count == 0 {
            break;
        }
        done += count;
    }
    Ok(done)
}

fn main(rt: HostRuntime) -> io::Result<()> {
    let mut space = [0u8; 4096];
    let mut text = [0u8; 1024];
    let mut work = [0u32; 22521];
    // no input of a right length fills the buffer, so one that does is of a wrong length
    let count = read_full(&mut rt.stdin(), &mut space)?;
    let written = sheet::sheet(&space[..count], &mut text, &mut work);
    rt.write_all(&text[..written])
}
