//! The 64 bytes of data as eight words, the low byte of each word first.

ghost use Rattle.std.specs.Prelude.{◌≡◌, ◌≤◌, length};
ghost use Rattle.uring_entry.specs.Layout.{bytes_of, padded, AreWords};

/// The bytes that eight words hold.
pub(crate) fn bytes_of_words(words: &[u64]) -> [u8; 64]
    requires { length words.now ≡ 8 }
    ensures { result ≡ bytes_of words.now }
{
    let mut bytes = [0; 64];
    for i in 0..8 {
        bytes[8 * i..8 * i + 8].copy_from_slice(&words[i].to_le_bytes());
    }
    bytes
}

/// The words of 64 bits that hold these bytes.
pub(crate) fn words_of_bytes(bytes: &[u8; 64]) -> [u64; 8]
    ensures bytes { bytes_of result ≡ bytes.now }
    ensures words { AreWords result }
{
    let mut words = [0; 8];
    for i in 0..8 {
        let mut eight = [0; 8];
        eight.copy_from_slice(&bytes[8 * i..8 * i + 8]);
        words[i] = u64::from_le_bytes(eight);
    }
    words
}

/// Up to 64 bytes, with zeros after them.
pub(crate) fn padded_bytes(bytes: &[u8]) -> [u8; 64]
    requires { length bytes.now ≤ 64 }
    ensures { result ≡ padded bytes.now }
{
    let mut all = [0; 64];
    all[..bytes.len()].copy_from_slice(bytes);
    all
}
