// The lines that hand a message over bit by bit.
use crate::runner::Runner;
use crate::show::{Hex, Number};
use crate::words::{Fault, bytes, decimal, exactly, kind, room};
use std::io::Write;
use xoodyak::tag::Tag;

impl<W: Write> Runner<W> {
    pub fn feed_line(&mut self, words: &[&str]) -> Result<(), Fault> {
        let alloc = self.alloc;
        let s = self.session;
        match words {
            ["begin", name] => self.done(s.begin(kind(name)?)),
            ["feed", name, n, piece, allowance] => {
                let mut buf = room(alloc, n)?;
                let piece = bytes(alloc, piece)?;
                let fed = s.feed(
                    kind(name)?,
                    buf.as_mut_slice(),
                    piece.as_slice(),
                    decimal(allowance)?,
                );
                let number = Number(fed.number, fed.missing);
                let buf = Hex(buf.as_slice());
                writeln!(self.out, "{number} {buf} {} {}", fed.taken, fed.spent)?;
                self.hold(fed.session, fed.spent);
                Ok(())
            }
            ["finish", "seal"] => {
                let sealed = s.finish_seal();
                let tag = sealed.tag.into_bytes();
                writeln!(self.out, "{} {} {}", sealed.number, Hex(&tag), sealed.spent)?;
                self.hold(sealed.session, sealed.spent);
                Ok(())
            }
            ["finish", "open", tag] => {
                let opened = s.finish_open(Tag::from_bytes(exactly(alloc, tag)?));
                writeln!(self.out, "{} {}", opened.number, opened.spent)?;
                self.hold(opened.session, opened.spent);
                Ok(())
            }
            _ => Err(Fault::Bad),
        }
    }
}
