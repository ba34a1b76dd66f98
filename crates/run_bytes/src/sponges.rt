// SHAKE256, KMAC256 and KMACXOF256. A line has the lengths of the slices, where key, input and customization begin, and for a published sample how many
// bytes of the output are printed.
use calls::Answer;
use report::Hex;
use report::script::Line;
use std::io;

// Prints a sample, or the name of a call, its lengths, its answer and the checksum of all bytes, those past the output too.
fn hashed(
    rt: &impl Print,
    name: &str,
    lengths: &[usize],
    sample: usize,
    answer: Answer,
    out: &[u8],
) -> io::Result<()> {
    if 0 < sample {
        return print!(rt; " {}", Hex(report::front(out, sample)));
    }
    report::call_and_answer(rt, name, lengths, answer)?;
    println!(rt; " {}", report::checksum(out))
}

// SHAKE256 of the first bytes.
pub fn shake(rt: &impl Print, line: Line, bytes: &[u8], out: &mut [u8]) -> io::Result<()> {
    let [input, written, _, _, _, _, _, sample, ..] = line.operands;
    let answer = hashes::shake256(report::front(bytes, input), report::front_mut(out, written));
    hashed(rt, "shake256", &line.operands[..2], sample, answer, out)
}

// A hash with a key, by its name and the call: lengths of key, input, customization and output, and where the first three begin.
pub fn keyed<F: FnOnce(&[u8], &[u8], &[u8], &mut [u8]) -> Answer>(
    rt: &impl Print,
    name: &str,
    line: Line,
    bytes: &[u8],
    out: &mut [u8],
    hash: F,
) -> io::Result<()>
    requires { F.IsAlwaysCallable hash }
{
    let [
        key,
        input,
        custom,
        written,
        key_at,
        input_at,
        custom_at,
        sample,
        ..
    ] = line.operands;
    let answer = hash(
        report::part(bytes, key_at, key),
        report::part(bytes, input_at, input),
        report::part(bytes, custom_at, custom),
        report::front_mut(out, written),
    );
    hashed(rt, name, &line.operands[..4], sample, answer, out)
}
