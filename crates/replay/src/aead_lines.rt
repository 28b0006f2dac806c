// The lines that seal and open.
use crate::runner::Runner;
use crate::show::{Hex, Number};
use crate::words::{Fault, bytes, exactly, optional, room};
use std::io::Write;
use xoodyak::Sealed;
use xoodyak::aead::plaintext_part;
use xoodyak::tag::Tag;

impl<W: Write> Runner<W> {
    fn show_sealed(&mut self, sealed: Sealed, buf: &[u8]) -> Result<(), Fault> {
        let number = Number(sealed.number, sealed.missing);
        let tag = sealed.tag.into_bytes();
        writeln!(self.out, "{number} {} {}", Hex(buf), Hex(&tag))?;
        self.hold(sealed.session, sealed.spent);
        Ok(())
    }

    fn seal_detached(&mut self, n: &str, bin: &str) -> Result<(), Fault> {
        let mut buf = room(self.alloc, n)?;
        let bin = optional(self.alloc, bin)?;
        let sealed = self
            .session
            .aead_encrypt_detached(buf.as_mut_slice(), bin.given, bin.bytes.as_slice());
        self.show_sealed(sealed, buf.as_slice())
    }

    fn seal(&mut self, n: &str, bin: &str) -> Result<(), Fault> {
        let mut buf = room(self.alloc, n)?;
        let bin = optional(self.alloc, bin)?;
        let answer = self
            .session
            .aead_encrypt(buf.as_mut_slice(), bin.given, bin.bytes.as_slice());
        self.show(answer, buf.as_slice())
    }

    fn seal_in_place_detached(&mut self, bin: &str) -> Result<(), Fault> {
        let mut buf = bytes(self.alloc, bin)?;
        let sealed = self
            .session
            .aead_encrypt_in_place_detached(buf.as_mut_slice());
        self.show_sealed(sealed, buf.as_slice())
    }

    fn open_detached(&mut self, n: &str, tag: &str, bin: &str) -> Result<(), Fault> {
        let mut buf = room(self.alloc, n)?;
        let tag = Tag::from_bytes(exactly(self.alloc, tag)?);
        let bin = optional(self.alloc, bin)?;
        let answer = self
            .session
            .aead_decrypt_detached(buf.as_mut_slice(), tag, bin.given, bin.bytes.as_slice());
        self.show(answer, buf.as_slice())
    }

    fn open_in_place_detached(&mut self, bin: &str, tag: &str) -> Result<(), Fault> {
        let tag = Tag::from_bytes(exactly(self.alloc, tag)?);
        self.in_place(bin, |s, buf| s.aead_decrypt_in_place_detached(buf, tag))
    }

    // The plaintext is the part of the buffer that the caller is handed back, and nothing where the call is refused.
    fn open_in_place(&mut self, bin: &str) -> Result<(), Fault> {
        let mut buf = bytes(self.alloc, bin)?;
        let answer = self.session.aead_decrypt_in_place(buf.as_mut_slice());
        let number = Number(answer.number, answer.missing);
        write!(self.out, "{number} {} ", Hex(buf.as_slice()))?;
        let part = plaintext_part(buf.as_mut_slice());
        let plaintext: &[u8] = if answer.number == 0 { part } else { &[] };
        writeln!(self.out, "{}", Hex(plaintext))?;
        self.hold(answer.session, answer.spent);
        Ok(())
    }

    pub fn aead_line(&mut self, words: &[&str]) -> Result<(), Fault> {
        match words {
            ["aead_encrypt_detached", n, bin] => self.seal_detached(n, bin),
            ["aead_encrypt", n, bin] => self.seal(n, bin),
            ["aead_decrypt_detached", n, tag, bin] => self.open_detached(n, tag, bin),
            ["aead_decrypt", n, bin] => self.copying(
                n,
                bin,
                |s, out, bin| s.aead_decrypt(out, bin),
            ),
            ["aead_encrypt_in_place_detached", bin] => self.seal_in_place_detached(bin),
            ["aead_encrypt_in_place", bin] => self.in_place(
                bin,
                |s, buf| s.aead_encrypt_in_place(buf),
            ),
            ["aead_decrypt_in_place_detached", bin, tag] => self.open_in_place_detached(bin, tag),
            ["aead_decrypt_in_place", bin] => self.open_in_place(bin),
            _ => Err(Fault::Bad),
        }
    }
}
