// A case, and what each line does in it.
use crate::buffer::Buffer;
use crate::line::{Line, join};
use crate::machine::{Machine, RAM};
use crate::tally::Tally;
use gte_registers::reads::read;
use gte_registers::writes::write;
use std::io;

// What a call that is to be lent more bytes than there are counts as.
const NOT_CALLED: u64 = 0xffff_ffff_ffff_ffff;

#[derive(Drop)]
pub(crate) struct Case<'a> {
    pub machine: Machine<'a>,
    // the high word of the counts of runs and searches
    pub high: u32,
    // what the last call answered, if it was made
    pub answer: Option<u64>,
    // the digest before the last run, search, save or load
    pub before: u64,
    pub tally: Tally,
}

impl<'a> Case<'a> {
    // Before the first case.
    pub fn new(ram: &'a mut Buffer<RAM>) -> Case<'a> {
        Case {
            machine: Machine::new(ram),
            high: 0,
            answer: Some(0),
            before: 0,
            tally: Tally::new(),
        }
    }

    fn begin(&mut self) {
        self.machine.reset();
        self.high = 0;
        self.answer = Some(0);
        self.before = 0;
        self.tally.begin_case();
    }

    // A line is carried out. The letters are those of the table in main.rt: an enum of them would be that table once more.
    pub fn follow(&mut self, rt: &impl Print, line: &Line) -> io::Result<()> {
        let Line { letter, a, b, name } = *line;
        let at = a as usize;
        let count = join(self.high, a);
        if matches!(letter, b's' | b'f' | b'o' | b'u') {
            self.before = self.machine.digest();
        }
        let machine = &mut self.machine;
        match letter {
            b'n' => {
                self.tally.end_case(rt)?;
                rt.write_all(name)?;
                self.begin();
            }

            b'g' => write(&mut machine.geometry, at, b),
            b'w' => machine.image.put_word(4 * at, b),
            b'm' => machine.ram.put_word(at, b),
            b'd' => machine.pad.put_word(at, b),
            b'b' => machine.file.put_byte(at, (b & 0xff) as u8),

            b'i' => machine.image.lent = at,
            b'l' => machine.ram.lent = at,
            b'j' => machine.pad.lent = at,
            b'h' => self.high = a,

            b's' => self.answer = machine.run(count),
            b'f' => self.answer = machine.find(count, b),
            b'v' => self.answer = machine.window(a, b),
            b'p' => self.answer = machine.part(a, b),
            b'e' => self.answer = machine.causes(a, b as usize),
            b'o' => self.answer = machine.save(at),
            b'u' => self.answer = machine.load(at),
            b'z' => self.answer = machine.draw_list(at),

            _ => self.compare(rt, line)?,
        }
        Ok(())
    }

    // A line that compares. A letter that is none of them counts as a difference.
    fn compare(&mut self, rt: &impl Print, line: &Line) -> io::Result<()> {
        let Line { letter, a, b, .. } = *line;
        let at = a as usize;
        let (what, found, expected): (u32, u64, u64) = match letter {
            b'c' => (a, self.machine.command(a), b.into()),
            b'x' => (a, read(&self.machine.geometry, at).into(), b.into()),
            b'r' => (a, self.machine.image.word(4 * at).into(), b.into()),
            b'q' => (a, self.machine.ram_word(at).into(), b.into()),
            b't' => (a, self.machine.pad.word(at).into(), b.into()),
            b'y' => (a, self.machine.file.word(at).into(), b.into()),
            b'a' => (0, self.answer.unwrap_or(NOT_CALLED), join(a, b)),
            b'k' => (0, self.machine.digest(), self.before),
            _ => (letter.into(), 0, 1),
        };
        self.tally.compare(rt, what, found, expected)
    }
}
