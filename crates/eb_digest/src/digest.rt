ghost use Rattle.std.specs.Prelude.{◌≡◌, ◌↔◌, length, List, ℕ, IsOk, IfOk, IsTrue};
ghost use Rattle.std.specs.List.{AllPass};
ghost use Rattle.md5.specs.Md5.{md5};
ghost use Rattle.eb_digest.specs.Digest.{IsDigest, IsDigestText, digest_text, is_lower_digit};

use byte_class::is_digit;
use eb_bytes::{Bytes, Memory};
use hex::FromHex;
use md5::{Digest as _, Md5};
use std::alloc::Global;
use std::marker::Model;
use thiserror::Error;

/// An MD5 digest, as RFC 1321 defines it: 16 bytes, ordered by these. Contracts see it as that list.
#[derive(Clone, Copy, Debug, PartialEq, Eq, PartialOrd, Ord)]
pub struct Digest {
    bytes: [u8; 16],
}

impl Model for Digest {
    ghost use Rattle.std.specs.Prelude.{List, ℕ};
    ghost use Rattle.std.specs.Coded.{coded_list, coded_ℕ};

    ghost Value = { List ℕ };

    ghost coded = { coded_list coded_ℕ };

    ghost view = { λ d. d.bytes };

    ghost inverse = { λ bytes. record { bytes = bytes } };
}

/// A text is not 32 lower-case hexadecimal digits.
#[derive(Clone, Copy, Debug, PartialEq, Eq, Error)]
#[error("not 32 lower-case hexadecimal digits")]
pub struct NotDigest;

/// The MD5 of a text. Takes no memory.
pub fn digest_of(text: &[u8]) -> Digest
    ensures { result ≡ md5 text.now }
{
    Digest {
        bytes: Md5::digest(text),
    }
}

fn is_lower_digit(byte: u8) -> bool
    ensures { result ≡ is_lower_digit byte }
{
    is_digit(byte) || matches!(byte, b'a'..=b'f')
}

fn are_lower_digits(text: &[u8]) -> bool
    ensures { IsTrue result ↔ AllPass is_lower_digit text.now }
{
    text.iter().all(|byte| is_lower_digit(*byte))
}

// Says of sixteen bytes that they are a digest's.
fn bytes_of(bytes: &[u8]) -> &[u8]
    requires { length bytes.now ≡ 16 }
    ensures same { result.now ≡ bytes.now }
    ensures digest { IsDigest bytes.now }
{
    bytes
}

impl Digest {
    /// The 16 bytes.
    pub fn bytes(&self) -> &[u8]
        ensures bytes { result.now ≡ self.now }
        ensures digest { IsDigest self.now }
    {
        bytes_of(self.bytes.as_slice())
    }

    /// The 32 lower-case hexadecimal digits.
    ///
    /// # Errors
    /// `Memory` where there is no room for them.
    pub fn hex(&self, alloc: Global) -> Result<Bytes, Memory>
        ensures text { IfOk result (λ text. text ≡ digest_text self.now) }
        ensures digits { IfOk result IsDigestText }
    {
        let digits = hex::encode(alloc, self.bytes())?;
        Bytes::from_slice(alloc, digits.as_bytes())
    }

    /// The digest that a text of 32 lower-case hexadecimal digits writes. Takes no memory.
    ///
    /// # Errors
    /// `NotDigest` exactly where the text is anything else.
    pub fn read(text: &[u8]) -> Result<Digest, NotDigest>
        ensures value { IfOk result (λ digest. text.now ≡ digest_text digest) }
        ensures found { IsOk result ↔ IsDigestText text.now }
        ensures each { (digest : List ℕ) → IsDigest digest → text.now ≡ digest_text digest → result ≡ Ok digest }
    {
        if !are_lower_digits(text) {
            return Err(NotDigest);
        }
        match <[u8; 16] as FromHex>::from_hex(text) {
            Ok(bytes) => Ok(Digest { bytes }),
            Err(_) => Err(NotDigest),
        }
    }
}
