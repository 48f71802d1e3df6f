//! Completions: their fields, their words, and the layout of both.

ghost use Rattle.std.specs.Prelude.{◌≡◌};

use crate::payload::{bytes_of_words, words_of_bytes};
use std::marker::Model;

/// A completion: the user data of its request, the result, and 64 bytes, those that a read gave first and zeros after them.
///
/// It has 80 bytes, held as 10 words. The first 16 are placed as in `struct io_uring_cqe`, io_uring(7), Reading completion events, with flags that are always 0; the bytes after them are our own rule.
#[derive(Clone, Copy, Debug, PartialEq, Eq)]
pub struct Cqe {
    user_data: u64,
    res: i32,
    payload: [u8; 64],
}

impl Model for Cqe {
    ghost use Rattle.uring_entry.specs.Layout.{Cqe};

    ghost Value = { Cqe };

    ghost view = { λ c. record { user_data = c.user_data; res = c.res; payload = c.payload } };

    ghost inverse = { λ c. record { user_data = c.user_data; res = c.res; payload = c.payload } };
}

impl Cqe {
    ghost use Rattle.uring_entry.specs.Layout.{HasWords, completion_of};

    /// The completion of a request with this user data: any result, any bytes.
    pub fn new(user_data: u64, res: i32, payload: [u8; 64]) -> Cqe
        ensures { result ≡ record { user_data = user_data; res = res; payload = payload } }
    {
        Cqe {
            user_data,
            res,
            payload,
        }
    }

    /// The completion that these words hold. What stands in bits 32 to 63 of the second word, the flags, is left out.
    pub fn from_words(words: [u64; 10]) -> Cqe
        ensures { result ≡ completion_of words }
    {
        Cqe {
            user_data: words[0],
            res: ((words[1] & 0xffff_ffff) as u32).cast_signed(),
            payload: bytes_of_words(&words[2..]),
        }
    }

    /// The completion's words: the user data; the result in the low half and flags, always 0, in the high half; then the bytes, the low byte of each word first.
    pub fn words(&self) -> [u64; 10]
        ensures { HasWords self.now result }
    {
        let second = u64::from(self.res.cast_unsigned());
        let mut words = [self.user_data(), second, 0, 0, 0, 0, 0, 0, 0, 0];
        words[2..].copy_from_slice(&words_of_bytes(&self.payload));
        words
    }

    /// The user data of the request.
    pub fn user_data(&self) -> u64
        ensures { result ≡ self.now.user_data }
    {
        self.user_data
    }

    /// The result: 0 or more if the operation was carried out, else the negative of an error number. io_uring(7), DESCRIPTION.
    pub fn res(&self) -> i32
        ensures { result ≡ self.now.res }
    {
        self.res
    }

    /// The 64 bytes: our own rule.
    pub fn payload(&self) -> [u8; 64]
        ensures { result ≡ self.now.payload }
    {
        self.payload
    }
}
