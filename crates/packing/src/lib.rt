// Numbers packed into bytes without gaps, and back (003, algorithms 17 to 22), and the bits of a message (algorithms 27 and 28).
#![tactic(auto)]

ghost use Rattle.std.specs.Prelude.{◌≡◌, ◌+◌, ◌*◌, ◌/◌, ◌%◌, ◌^◌, ◌<◌, ◌≤◌, length, drop, take, set};
ghost use Rattle.maths.specs.Vector.{at};
ghost use Rattle.calls.specs.Region.{over};
ghost use Rattle.packing.specs.Digits.{Digit, value, pack, unpack, four_bytes, group};
ghost use Rattle.packing.specs.Dropped.{Widths, pack_dropping_of, unpack_dropped_of};
ghost use Rattle.packing.specs.Message.{message_bits_of, message_bytes};

// The number at place i, and 0 past the end.
fn number_at(numbers: &[u32], i: usize) -> u64
    ensures { (result ≡ at numbers.now i) × (result < 2 ^ 32) }
{
    match numbers.get(i) {
        Some(number) => u64::from(*number),
        None => 0,
    }
}

// The byte that begins at a bit of number i, where `kept` bits of each number are left without its low `cmp`.
fn byte_of(numbers: &[u32], i: usize, bit: u32, kept: u32, cmp: u32) -> u8
    requires { (i < 2 ^ 63) × (bit < kept) × (kept ≤ 24) × (cmp ≤ 24) }
    ensures { result ≡ (at numbers.now i / 2 ^ cmp + 2 ^ kept * (at numbers.now (i + 1) / 2 ^ cmp)) / 2 ^ bit % 2 ^ 8 }
{
    let first = number_at(numbers, i) >> cmp;
    let second = number_at(numbers, i + 1) >> cmp;
    (((first + (second << kept)) >> bit) % 256) as u8
}

// The number of `kept` bits in which byte j begins, and the bit of it: 8 numbers are `kept` bytes.
fn number_with(j: usize, kept: u32) -> usize
    requires { (8 ≤ kept) × (kept ≤ 24) }
    ensures { result ≡ j / kept * 8 + j % kept * 8 / kept }
{
    let group = kept as usize;
    j / group * 8 + j % group * 8 / group
}

fn bit_of(j: usize, kept: u32) -> u32
    requires { (8 ≤ kept) × (kept ≤ 24) }
    ensures { result ≡ j % kept * 8 % kept }
{
    let group = kept as usize;
    (j % group * 8 % group) as u32
}

// The bits held, with those of one more number above them.
fn held_with(held: u64, bits: u32, number: u64, cmp: u32) -> u64
    requires { (bits < 32) × (held < 2 ^ bits) × (cmp ≤ 24) × (number < 2 ^ 32) }
    ensures { result ≡ held + number / 2 ^ cmp * 2 ^ bits }
{
    held + ((number >> cmp) << bits)
}

// Writes the low four bytes of a number from place j on.
fn store_four(out: &mut [u8], j: usize, held: u64)
    requires { j + 4 ≤ length out.old }
    ensures { out.new ≡ set (set (set (set out.old j (held % 2 ^ 8)) (j + 1) (held / 2 ^ 8 % 2 ^ 8)) (j + 2) (held / 2 ^ 16 % 2 ^ 8))
        (j + 3) (held / 2 ^ 24 % 2 ^ 8) }
{
    out[j] = (held % 256) as u8;
    out[j + 1] = ((held >> 8) % 256) as u8;
    out[j + 2] = ((held >> 16) % 256) as u8;
    out[j + 3] = ((held >> 24) % 256) as u8;
}

// Packs as `pack_dropping` does, four bytes at a time while there are numbers, and gives how many bytes are written.
fn pack_words(numbers: &[u32], width: u32, cmp: u32, out: &mut [u8]) -> usize
    requires widths { Widths width cmp }
    requires digit { Digit width numbers.now }
    ensures { (result ≤ length out.old)
        × (out.new ≡ over out.old 0 (take result (pack_dropping_of width cmp (length out.old) numbers.now))) }
{
    let kept = width - cmp;
    let mut held: u64 = 0;
    let mut bits: u32 = 0;
    // the place goes on where four bytes are full, and not with each number
    let mut j: usize = 0;
    for number in numbers {
        if out.len() < j + 4 {
            return j;
        }
        held = held_with(held, bits, u64::from(*number), cmp);
        bits += kept;
        if bits >= 32 {
            store_four(out, j, held);
            held >>= 32;
            bits -= 32;
            j += 4;
        }
    }
    j
}

// Packs numbers of `width` bits each without their low `cmp` bits into all of `out`.
// Both widths are plain numbers: a struct of the two would be built from two fields of the record of a set at each call, which is no shorter.
pub fn pack_dropping(numbers: &[u32], width: u32, cmp: u32, out: &mut [u8])
    requires widths { Widths width cmp }
    requires digit { Digit width numbers.now }
    ensures { out.new ≡ pack_dropping_of width cmp (length out.old) numbers.now }
{
    let kept = width - cmp;
    let written = pack_words(numbers, width, cmp, out);
    // the position goes on with the bytes: the divisions by the width are made once a call, and not for each byte
    let mut i = number_with(written, kept);
    let mut bit = bit_of(written, kept);
    for j in written..out.len() {
        out[j] = byte_of(numbers, i, bit, kept, cmp);
        bit += 8;
        if bit >= kept {
            bit -= kept;
            i += 1;
        }
    }
}

// Packs numbers of `width` bits each into all of `out`.
pub fn pack_into(numbers: &[u32], width: u32, out: &mut [u8])
    requires widths { Widths width 0 }
    requires digit { Digit width numbers.now }
    ensures { out.new ≡ pack width (length out.old) numbers.now }
{
    pack_dropping(numbers, width, 0, out);
}

// The four bytes from place j on as one number, the least significant first, where all of them are there: one read.
fn word_at(bytes: &[u8], j: usize) -> u32
    requires { j + 4 ≤ length bytes.now }
    ensures { result ≡ four_bytes bytes.now j }
{
    u32::from_le_bytes([bytes[j], bytes[j + 1], bytes[j + 2], bytes[j + 3]])
}

// The same near the end, where some of them may be past it. Apart from the other two: four reads, each with a test, where `word_at` is one without any.
fn last_word_at(bytes: &[u8], j: usize) -> u32
    requires { j < 2 ^ 63 }
    ensures { result ≡ four_bytes bytes.now j }
{
    bit_fields::byte_at(bytes, j)
        + (bit_fields::byte_at(bytes, j + 1) << 8)
        + (bit_fields::byte_at(bytes, j + 2) << 16)
        + (bit_fields::byte_at(bytes, j + 3) << 24)
}

// The same anywhere.
fn window_at(bytes: &[u8], j: usize) -> u32
    requires { j < 2 ^ 63 }
    ensures { result ≡ four_bytes bytes.now j }
{
    if j + 4 <= bytes.len() {
        word_at(bytes, j)
    } else {
        last_word_at(bytes, j)
    }
}

// The number whose `kept` high bits begin at a bit of byte j, with zeros for its low `cmp`.
fn number_of(bytes: &[u8], j: usize, bit: u32, kept: u32, cmp: u32) -> u32
    requires { (j < 2 ^ 63) × (bit < 8) × (kept + cmp ≤ 24) }
    ensures { result ≡ four_bytes bytes.now j / 2 ^ bit % 2 ^ kept * 2 ^ cmp }
{
    bit_fields::number_in(window_at(bytes, j), bit, kept, cmp)
}

// Number k of the eight that begin with byte j, far from the end. Apart from `number_of`, which tests for the end of the bytes at each number.
fn number_in_group(bytes: &[u8], j: usize, k: usize, kept: u32, cmp: u32) -> u32
    requires { (j + 32 ≤ length bytes.now) × (k < 8) × (kept + cmp ≤ 24) }
    ensures { result ≡ four_bytes bytes.now (j + k * kept / 8) / 2 ^ (k * kept % 8) % 2 ^ kept * 2 ^ cmp }
{
    let bits = k * (kept as usize);
    bit_fields::number_in(word_at(bytes, j + bits / 8), (bits % 8) as u32, kept, cmp)
}

// Unpacks the eight numbers that begin with byte j into the places from i on.
fn unpack_group(bytes: &[u8], j: usize, kept: u32, cmp: u32, out: &mut [u32], i: usize)
    requires { (j + 32 ≤ length bytes.now) × (kept + cmp ≤ 24) × (i + 8 ≤ length out.old) }
    ensures { out.new ≡ over out.old i (group kept cmp j bytes.now) }
{
    for k in 0..8 {
        out[i + k] = number_in_group(bytes, j, k, kept, cmp);
    }
}

// Unpacks as `unpack_dropped` does, eight numbers at a time, and gives how many numbers are written.
fn unpack_groups(bytes: &[u8], width: u32, cmp: u32, out: &mut [u32]) -> usize
    requires { Widths width cmp }
    ensures { (result % 8 ≡ 0) × (result ≤ length out.old)
        × (out.new ≡ over out.old 0 (take result (unpack_dropped_of width cmp (length out.old) bytes.now))) }
{
    let kept = width - cmp;
    let groups = out.len() / 8;
    for group in 0..groups {
        let j = group * (kept as usize);
        if bytes.len() < j + 32 {
            return 8 * group;
        }
        unpack_group(bytes, j, kept, cmp, out, 8 * group);
    }
    8 * groups
}

// Unpacks numbers of `width` bits each whose low `cmp` bits were dropped into all of `out`.
pub fn unpack_dropped(bytes: &[u8], width: u32, cmp: u32, out: &mut [u32])
    requires { Widths width cmp }
    ensures { out.new ≡ unpack_dropped_of width cmp (length out.old) bytes.now }
{
    let kept = width - cmp;
    let written = unpack_groups(bytes, width, cmp, out);
    // the position goes on with the numbers: the place of each is not worked out anew
    let mut j = written / 8 * (kept as usize);
    let mut bit: u32 = 0;
    for i in written..out.len() {
        out[i] = number_of(bytes, j, bit, kept, cmp);
        bit += kept;
        j += (bit / 8) as usize;
        bit %= 8;
    }
}

// Unpacks numbers of `width` bits each into all of `out`.
pub fn unpack_into(bytes: &[u8], width: u32, out: &mut [u32])
    requires { Widths width 0 }
    ensures { out.new ≡ unpack width (length out.old) bytes.now }
{
    unpack_dropped(bytes, width, 0, out);
}

// Writes the bits of a message into all of `out`.
pub fn bits_of(message: &[u8], out: &mut [u32])
    ensures { out.new ≡ message_bits_of (length out.old) message.now }
{
    for (i, bit) in out.iter_mut().enumerate() {
        *bit = bit_fields::bit_at(message, i);
    }
}

// The byte that the eight bits from place `from` on make.
fn byte_of_bits(bits: &[u32], from: usize) -> u8
    requires from_bound { from < 2 ^ 63 }
    requires digit { Digit 1 bits.now }
    ensures { result ≡ value 1 (drop from bits.now) % 2 ^ 8 }
{
    let mut byte: u64 = 0;
    for k in (0..8).rev() {
        byte = number_at(bits, from + k) + 2 * byte;
    }
    byte as u8
}

// Writes the bytes that bits make into all of `out`, for which there are bits enough.
pub fn bytes_of_bits(bits: &[u32], out: &mut [u8])
    requires digit { Digit 1 bits.now }
    requires out_in_bounds { 8 * length out.old ≤ length bits.now }
    ensures { out.new ≡ message_bytes (length out.old) bits.now }
{
    for (i, byte) in out.iter_mut().enumerate() {
        *byte = byte_of_bits(bits, 8 * i);
    }
}
