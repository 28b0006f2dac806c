// The lines that call the permutation's layer.
use crate::runner::Runner;
use crate::show::{Hex, Number};
use crate::words::{Fault, bytes, decimal, exactly, room};
use std::io::Write;
use xoodoo::{Answer, Xoodoo};

impl<W: Write> Runner<W> {
    fn xoodoo_done(&mut self, answer: Answer) -> Result<(), Fault> {
        self.number(answer.number)?;
        self.xoodoo = answer.state;
        Ok(())
    }

    fn become_xoodoo(&mut self, xoodoo: Xoodoo) -> Result<(), Fault> {
        self.number(0)?;
        self.xoodoo = xoodoo;
        Ok(())
    }

    pub fn xoodoo_line(&mut self, words: &[&str]) -> Result<(), Fault> {
        let alloc = self.alloc;
        let x = self.xoodoo;
        match words {
            ["x_set", st] => self.become_xoodoo(Xoodoo::from_bytes(exactly(alloc, st)?)),
            ["x_permute"] => self.become_xoodoo(x.permute()),
            ["x_inverse"] => self.become_xoodoo(x.inverse()),
            ["x_add_byte", at, byte] => {
                let [byte] = exactly::<1>(alloc, byte)?;
                self.xoodoo_done(x.add_byte(byte, decimal(at)?))
            }
            ["x_add_bytes", bin] => self.xoodoo_done(x.add_bytes(bytes(alloc, bin)?.as_slice())),
            ["x_rounds", n] => self.xoodoo_done(x.rounds(decimal(n)?)),
            ["x_unrounds", n] => self.xoodoo_done(x.unrounds(decimal(n)?)),
            ["x_extract", n] => {
                let mut buf = room(alloc, n)?;
                let number = x.extract_bytes(buf.as_mut_slice());
                writeln!(self.out, "{} {}", Number(number, 0), Hex(buf.as_slice()))?;
                Ok(())
            }
            ["x_state"] => {
                writeln!(self.out, "{}", Hex(&x.st))?;
                Ok(())
            }
            _ => Err(Fault::Bad),
        }
    }
}
