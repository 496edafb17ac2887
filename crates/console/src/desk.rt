// Where the console reads its lines and writes its answers, and holds its token.
use crate::answer::{Answer, Refusal};
use crate::command::{Command, parse};
use crate::held::Held;
use crate::words::LineFault;
use std::alloc::Global;
use std::fmt;
use std::io::{BufRead, BufReader, Split, Stdin};

// The runtime, the lines of its standard input that are not read yet, and the token that is held meanwhile, for
// whose sake a desk ends by `end`.
pub struct Desk<'a> {
    rt: &'a HostRuntime,
    lines: Split<BufReader<Stdin>>,
    pub held: Held,
}

impl<'a> Desk<'a> {
    pub fn new(rt: &'a HostRuntime) -> anyhow::Result<Self> {
        let input = BufReader::new(rt.alloc(), rt.stdin())?;
        Ok(Desk {
            rt,
            lines: input.split(rt.alloc(), b'\n'),
            held: Held::nothing(),
        })
    }

    // Spends a token that is still held.
    pub fn end(self) {
        let Desk {
            rt: _,
            lines: _,
            held,
        } = self;
        held.end();
    }

    pub fn heap(&self) -> Global {
        self.rt.alloc()
    }

    // The next command, or none at the end of the input. A line that is no command is answered so, and passed over.
    pub fn next_command(&mut self) -> anyhow::Result<Option<Command>> {
        for line in self.lines.by_ref() {
            match parse(self.rt.alloc(), line?.as_slice()) {
                Ok(Some(command)) => return Ok(Some(command)),
                Ok(None) => {}
                Err(fault @ LineFault::Bad) => println!(self.rt; "{fault}")?,
                Err(fault) => return Err(fault.into()),
            }
        }
        Ok(None)
    }

    pub fn say<T: fmt::Display>(&self, line: &T) -> anyhow::Result<()> {
        println!(self.rt; "{line}")?;
        Ok(())
    }

    // Says what came of a call.
    pub fn tell(&self, outcome: Result<Answer, Refusal>) -> anyhow::Result<()> {
        match outcome {
            Ok(answer) => self.say(&answer),
            Err(refusal) => self.say(&refusal),
        }
    }
}
