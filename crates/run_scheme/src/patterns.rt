// What the outputs of a call hold before it: bytes filled with a pattern. They come from a function, so that a call's own proof has no steps for the filling.

// Room for N bytes.
pub fn filled<const N: usize>(start: usize) -> [u8; N] {
    let mut bytes = [0u8; N];
    report::fill_bytes(&mut bytes, start);
    bytes
}
