// The lines that walk one call back.
use crate::runner::Runner;
use crate::words::{Fault, bytes, decimal, key_words, length, phase};
use std::io::Write;
use walkback::Before;
use xoodyak::Session;
use xoodyak::cyclist::{Duplex, Phase};

impl<W: Write> Runner<W> {
    // The session as before the call, or as it stands where the step is refused; the last call's permutations stay.
    fn step_back(&mut self, phase: Phase, before: Before) -> Result<(), Fault> {
        let Before { st, number } = before;
        self.number(number)?;
        if number == 0 {
            self.session.duplex.st = st;
            self.session.duplex.phase = phase;
        }
        Ok(())
    }

    pub fn back_line(&mut self, before: &str, name: &str, args: &[&str]) -> Result<(), Fault> {
        let alloc = self.alloc;
        let Session {
            duplex: Duplex { st, mode, .. },
            rule,
            ..
        } = self.session;
        let p = phase(before)?;
        let step = match (name, args) {
            ("absorb", [bin]) => {
                walkback::absorb(st, rule, mode, p, bytes(alloc, bin)?.as_slice())
            }
            ("absorb_more", [bin, rate]) => {
                walkback::absorb_more(
                    st,
                    rule,
                    mode,
                    p,
                    bytes(alloc, bin)?.as_slice(),
                    decimal(rate)?,
                )
            }
            ("squeeze", [n]) => walkback::squeeze(st, rule, mode, p, length(n)?),
            ("squeeze_key", [n]) => walkback::squeeze_key(st, rule, mode, p, length(n)?),
            ("squeeze_more", [n]) => walkback::squeeze_more(st, rule, mode, p, length(n)?),
            ("encrypt", [bin]) => {
                walkback::encrypt(st, rule, mode, p, bytes(alloc, bin)?.as_slice())
            }
            ("seal", [bin]) => walkback::seal(st, rule, mode, p, bytes(alloc, bin)?.as_slice()),
            ("key", words) => {
                let w = key_words(alloc, words)?;
                walkback::key(
                    st,
                    rule,
                    mode,
                    p,
                    w.key.as_slice(),
                    w.second.given,
                    w.second.bytes.as_slice(),
                    w.third.given,
                    w.third.bytes.as_slice(),
                    w.counter.given,
                    w.counter.bytes.as_slice(),
                )
            }
            _ => return Err(Fault::Bad),
        };
        self.step_back(p, step)
    }
}
