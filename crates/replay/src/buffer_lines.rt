// The lines whose calls write a buffer, which the answer shows.
use crate::runner::Runner;
use crate::show::{Hex, Number};
use crate::words::{Fault, bytes, room};
use std::io::Write;
use xoodyak::{Answer, Session};

impl<W: Write> Runner<W> {
    pub fn show(&mut self, answer: Answer, buf: &[u8]) -> Result<(), Fault> {
        let number = Number(answer.number, answer.missing);
        writeln!(self.out, "{number} {}", Hex(buf))?;
        self.hold(answer.session, answer.spent);
        Ok(())
    }

    // From an input into a buffer given by its length.
    pub fn copying<F: FnOnce(Session, &mut [u8], &[u8]) -> Answer>(
        &mut self,
        n: &str,
        bin: &str,
        call: F,
    ) -> Result<(), Fault>
        requires { F.IsAlwaysCallable call }
    {
        let mut buf = room(self.alloc, n)?;
        let bin = bytes(self.alloc, bin)?;
        let answer = call(self.session, buf.as_mut_slice(), bin.as_slice());
        self.show(answer, buf.as_slice())
    }

    // In a buffer that the line gives.
    pub fn in_place<F: FnOnce(Session, &mut [u8]) -> Answer>(
        &mut self,
        bin: &str,
        call: F,
    ) -> Result<(), Fault>
        requires { F.IsAlwaysCallable call }
    {
        let mut buf = bytes(self.alloc, bin)?;
        let answer = call(self.session, buf.as_mut_slice());
        self.show(answer, buf.as_slice())
    }

    fn squeezing<F: FnOnce(Session, &mut [u8]) -> Answer>(
        &mut self,
        n: &str,
        call: F,
    ) -> Result<(), Fault>
        requires { F.IsAlwaysCallable call }
    {
        let mut buf = room(self.alloc, n)?;
        let answer = call(self.session, buf.as_mut_slice());
        self.show(answer, buf.as_slice())
    }

    pub fn buffer_line(&mut self, words: &[&str]) -> Result<(), Fault> {
        match words {
            ["squeeze", n] => self.squeezing(n, |s, out| s.squeeze(out)),
            ["squeeze_key", n] => self.squeezing(n, |s, out| s.squeeze_key(out)),
            ["squeeze_more", n] => self.squeezing(n, |s, out| s.squeeze_more(out)),
            ["encrypt", n, bin] => self.copying(n, bin, |s, out, bin| s.encrypt(out, bin)),
            ["decrypt", n, bin] => self.copying(n, bin, |s, out, bin| s.decrypt(out, bin)),
            ["encrypt_in_place", bin] => self.in_place(bin, |s, buf| s.encrypt_in_place(buf)),
            ["decrypt_in_place", bin] => self.in_place(bin, |s, buf| s.decrypt_in_place(buf)),
            _ => Err(Fault::Bad),
        }
    }
}
