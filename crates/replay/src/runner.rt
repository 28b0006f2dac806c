// What a runner holds, and how it answers a line.
use crate::words::{Fault, LONGEST};
use std::alloc::Global;
use std::io;
use std::io::Write;
use xoodoo::Xoodoo;
use xoodyak::{Answer, Rule, Session};

// The session and the permutations of its last call, the rule of the sessions that it makes, and the Xoodoo state.
#[derive(Drop)]
pub struct Runner<W> {
    pub alloc: Global,
    pub out: W,
    pub session: Session,
    pub spent: usize,
    pub rule: Rule,
    pub xoodoo: Xoodoo,
}

impl<W: Write> Runner<W> {
    pub fn new(alloc: Global, out: W) -> Self {
        Runner {
            alloc,
            out,
            session: Session::hash(Rule::Crate),
            spent: 0,
            rule: Rule::Crate,
            xoodoo: Xoodoo::default(),
        }
    }

    pub fn flush(&mut self) -> io::Result<()> {
        self.out.flush()
    }

    // Holds the session that a call handed back.
    pub fn hold(&mut self, session: Session, spent: usize) {
        self.session = session;
        self.spent = spent;
    }

    // An answer that is its number alone.
    pub fn number(&mut self, number: u8) -> Result<(), Fault> {
        writeln!(self.out, "{number}")?;
        Ok(())
    }

    pub fn done(&mut self, answer: Answer) -> Result<(), Fault> {
        self.number(answer.number)?;
        self.hold(answer.session, answer.spent);
        Ok(())
    }

    // An empty line and a remark have no answer.
    pub fn answer(&mut self, line: &[u8]) -> io::Result<()> {
        if line.is_empty() || line.starts_with(b"#") {
            return Ok(());
        }
        match self.call(line) {
            Ok(()) => Ok(()),
            Err(Fault::Bad) => writeln!(self.out, "bad"),
            Err(Fault::Failed(e)) => Err(e),
        }
    }

    fn call(&mut self, line: &[u8]) -> Result<(), Fault> {
        if line.len() > LONGEST {
            return Err(Fault::Bad);
        }
        // Every form is in ASCII.
        let text = str::from_utf8(line).map_err(|_| Fault::Bad)?;
        // No form has more than seven words, so that one more, which keeps the rest, spoils the line.
        let words: Vec<&str> = text.splitn(8, ' ').collect(self.alloc)?;
        self.answer_words(words.as_slice())
    }

    fn answer_words(&mut self, words: &[&str]) -> Result<(), Fault> {
        match words {
            ["back", phase, name, args @ ..] => self.back_line(phase, name, args),
            ["begin" | "feed" | "finish", ..] => self.feed_line(words),
            [name, ..] if name.starts_with("x_") => self.xoodoo_line(words),
            [name, ..] if name.starts_with("aead_") => self.aead_line(words),
            _ => self.session_line(words),
        }
    }
}
