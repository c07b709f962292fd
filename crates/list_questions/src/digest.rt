// The digest of a run: one number in place of a run that is too long for a line. Two runs that differ in one entry alone have two digests, unless the entries differ by a multiple of the modulus.

// The modulus of the digest, a prime.
const MODULUS: u64 = 1_000_000_007;

// The digest of a whole run, which begins at 0 and takes in the entries in their order.
pub(crate) fn digest_of(run: &[i32]) -> u64 {
    run.iter()
        .fold(0, |digest, entry| with_entry(digest, *entry))
}

// The digest with one more entry: 31 times the digest, and the entry counted from the lowest number of 32 bits. Each part is taken modulo the modulus, so that no sum can wrap.
fn with_entry(digest: u64, entry: i32) -> u64 {
    let raised = whole::absolute(whole::difference(entry, i32::MIN));
    (digest % MODULUS * 31 + raised % MODULUS) % MODULUS
}
