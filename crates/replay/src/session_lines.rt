// The lines that make, show and advance the session.
use crate::runner::Runner;
use crate::show::{Hex, mode_name, phase_name, rule_name};
use crate::words::{Fault, bytes, decimal, exactly, key_words, mode, phase, rule};
use std::io::Write;
use xoodyak::Session;
use xoodyak::cyclist::Duplex;
use xoodyak::feed::{Kind, Message};
use xoodyak::tag::Tag;

impl<W: Write> Runner<W> {
    // The session becomes another one, which no call made.
    fn replace(&mut self, session: Session) -> Result<(), Fault> {
        self.number(0)?;
        self.session = session;
        Ok(())
    }

    fn set(&mut self, mode_word: &str, phase_word: &str, bytes: &str) -> Result<(), Fault> {
        let duplex = Duplex {
            st: exactly(self.alloc, bytes)?,
            mode: mode(mode_word)?,
            phase: phase(phase_word)?,
        };
        let message = Message {
            begun: false,
            kind: Kind::Seal,
            place: 0,
        };
        self.replace(Session {
            duplex,
            message,
            ..self.session
        })
    }

    fn state(&mut self) -> Result<(), Fault> {
        let duplex = self.session.duplex;
        let mode = mode_name(duplex.mode);
        let phase = phase_name(duplex.phase);
        writeln!(self.out, "{mode} {phase} {}", Hex(&duplex.st))?;
        Ok(())
    }

    fn verify(&mut self, one: &str, other: &str) -> Result<(), Fault> {
        let tag = Tag::from_bytes(exactly(self.alloc, one)?);
        self.number(tag.verify(exactly(self.alloc, other)?))
    }

    fn make(&mut self, words: &[&str]) -> Result<(), Fault> {
        let w = key_words(self.alloc, words)?;
        self.done(Session::new(
            self.rule,
            w.key.as_slice(),
            w.second.given,
            w.second.bytes.as_slice(),
            w.third.given,
            w.third.bytes.as_slice(),
            w.counter.given,
            w.counter.bytes.as_slice(),
        ))
    }

    fn key(&mut self, words: &[&str]) -> Result<(), Fault> {
        let w = key_words(self.alloc, words)?;
        self.done(
            self.session.absorb_key_and_nonce(
                w.key.as_slice(),
                w.second.given,
                w.second.bytes.as_slice(),
                w.third.given,
                w.third.bytes.as_slice(),
                w.counter.given,
                w.counter.bytes.as_slice(),
            ),
        )
    }

    pub fn session_line(&mut self, words: &[&str]) -> Result<(), Fault> {
        let alloc = self.alloc;
        let s = self.session;
        match words {
            ["hash"] => self.replace(Session::hash(self.rule)),
            ["set", mode, phase, st] => self.set(mode, phase, st),
            ["state"] => self.state(),
            ["spent"] => {
                writeln!(self.out, "{}", self.spent)?;
                Ok(())
            }
            ["rule"] => {
                writeln!(self.out, "{}", rule_name(s.rule))?;
                Ok(())
            }
            ["rule", name] => {
                self.rule = rule(name)?;
                self.number(0)
            }
            ["verify", one, other] => self.verify(one, other),
            ["new", words @ ..] => self.make(words),
            ["key", words @ ..] => self.key(words),
            ["absorb", bin] => self.done(s.absorb(bytes(alloc, bin)?.as_slice())),
            ["absorb_more", bin, rate] => {
                self.done(s.absorb_more(bytes(alloc, bin)?.as_slice(), decimal(rate)?))
            }
            ["ratchet"] => self.done(s.ratchet()),
            _ => self.buffer_line(words),
        }
    }
}
