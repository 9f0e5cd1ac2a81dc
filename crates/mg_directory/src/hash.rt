//! The hash of the bytes of a key.

ghost use Rattle.std.specs.Prelude.{◌≡◌};
ghost use Rattle.mg_directory.specs.Hashes.{hash_from, hash_of, mixed};

/// What a hash begins with, and by what each byte multiplies it (FNV, 32 bits).
pub(crate) const FIRST_HASH: u32 = 2_166_136_261;

pub(crate) const FACTOR: u64 = 16_777_619;

/// One byte more.
fn mix(hash: u32, byte: u8) -> u32
    ensures { result ≡ mixed hash byte }
{
    ((u64::from(hash) * FACTOR + u64::from(byte)) % 4_294_967_296) as u32
}

/// The hash of some bytes. Any function of them would be right.
pub(crate) fn hash_bytes(bytes: &[u8]) -> u32
    ensures { result ≡ hash_of bytes.now }
{
    let mut hash = FIRST_HASH;
    let mut rest = bytes;
    while let Some((byte, later)) = rest.split_first() {
        hash = mix(hash, *byte);
        rest = later;
    }
    hash
}
