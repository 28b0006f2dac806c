// The authentication tag of 16 bytes.
ghost use Rattle.std.specs.Prelude.{◌≡◌};
ghost use Rattle.xoodyak.specs.Calls.{verify_of, no_tag};

use crate::bytes::same_bytes;

#[derive(Clone, Copy)]
pub struct Tag {
    pub bytes: [u8; 16],
}

impl Tag {
    pub fn default() -> Self
        ensures { result ≡ record { bytes = no_tag } }
    {
        Tag { bytes: [0; 16] }
    }

    pub fn from_bytes(bytes: [u8; 16]) -> Self
        ensures { result ≡ record { bytes = bytes } }
    {
        Tag { bytes }
    }

    pub fn into_bytes(self) -> [u8; 16]
        ensures { result ≡ self.bytes }
    {
        self.bytes
    }

    // 0 where the 16 bytes are the tag, 4 otherwise: a number, as in an `Answer`.
    pub fn verify(self, bin: [u8; 16]) -> u8
        ensures { result ≡ verify_of self bin }
    {
        if same_bytes(&self.bytes, &bin) { 0 } else { 4 }
    }
}
