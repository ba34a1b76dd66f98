// Bytes of the key exchange: two parts written one after the other, two ciphertexts compared, the part that is hashed and the shared key (003, section 2.3.2).
#![tactic(auto)]

ghost use Rattle.std.specs.Prelude.{◌≡◌, cond, ◌++◌, ◌+◌, length, drop};
ghost use Rattle.scheme.specs.Exchange.{same, shared_hash};

// Writes `first` and after it `second`, which fill `out`.
pub fn write_both(out: &mut [u8], first: &[u8], second: &[u8])
    requires { length out.old ≡ length first.now + length second.now }
    ensures { out.new ≡ first.now ++ second.now }
{
    calls::copy_in(out, 0, first);
    calls::copy_in(out, first.len(), second);
}

// Whether two slices of one length hold the same bytes. Every byte is read, wherever they differ.
pub fn same_bytes(x: &[u8], y: &[u8]) -> bool
    requires { length x.now ≡ length y.now }
    ensures { result ≡ same x.now y.now }
{
    let mut difference: u8 = 0;
    for (a, b) in x.iter().zip(y) {
        difference |= *a ^ *b;
    }
    difference == 0
}

// The part that is hashed into a shared key: the message where encapsulating it again agrees, else the reject bytes, which stand after the inner seed.
// Not compiled into its caller, where the choice of the two addresses became a jump on whether the ciphertexts agree.
#[inline(never)]
pub fn hashed_part<'a>(agrees: bool, message: &'a [u8], expanded: &'a [u8]) -> &'a [u8]
    requires { (length message.now ≡ 32) × (length expanded.now ≡ 64) }
    ensures part { result.now ≡ cond agrees message.now (drop 32 expanded.now) }
    ensures size { length result.now ≡ 32 }
{
    if agrees {
        return &message[0..32];
    }
    &expanded[32..64]
}

// The shared key from a secret and the ciphertext; `digest` is lent for the digest of the ciphertext.
fn shared_key_with_buffers(secret: &[u8], ciphertext: &[u8], shared: &mut [u8], digest: &mut [u8])
    requires { (length shared.old ≡ 32) × (length digest.old ≡ 64) }
    ensures { shared.new ≡ shared_hash secret.now ciphertext.now }
{
    sponge::shake256_into(ciphertext, digest);
    sponge::shake256_of_two(secret, digest, shared);
}

// The shared key from a secret and the ciphertext: H of 003.
pub fn shared_key_of(secret: &[u8], ciphertext: &[u8], shared: &mut [u8])
    requires { length shared.old ≡ 32 }
    ensures { shared.new ≡ shared_hash secret.now ciphertext.now }
{
    let mut digest = [0u8; 64];
    shared_key_with_buffers(secret, ciphertext, shared, &mut digest[0..64]);
}
