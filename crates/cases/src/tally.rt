// What has been compared, and what is printed of it.
use std::{fmt, io};

// What has been counted, and whether the case that runs has had no difference so far.
#[derive(Drop)]
pub(crate) struct Tally {
    pub cases: u64,
    pub values: u64,
    pub differ: u64,
    pub clean: bool,
}

impl Tally {
    // Before the first case.
    pub fn new() -> Tally {
        Tally {
            cases: 0,
            values: 0,
            differ: 0,
            clean: true,
        }
    }

    pub fn begin_case(&mut self) {
        self.cases = self.cases.saturating_add(1);
        self.clean = true;
    }

    // The end of a case's line, where there is a case.
    pub fn end_case(&self, rt: &impl Print) -> io::Result<()> {
        if self.cases == 0 {
            return Ok(());
        }
        if self.clean {
            print!(rt; " ok")?;
        }
        println!(rt)
    }

    // One more value is compared. Of a difference a line says what was looked at, what was found, and what was expected.
    pub fn compare(
        &mut self,
        rt: &impl Print,
        what: u32,
        found: u64,
        expected: u64,
    ) -> io::Result<()> {
        self.values = self.values.saturating_add(1);
        if found != expected {
            self.differ = self.differ.saturating_add(1);
            self.clean = false;
            print!(rt; "\n  {what:08x}: {found:016x}, expected {expected:016x}")?;
        }
        Ok(())
    }
}

// The last line: how many cases, how many values, how many differ.
impl fmt::Display for Tally {
    fn fmt<W: fmt::Write>(&self, f: &mut fmt::Formatter<W>) -> fmt::Result {
        let cases = self.cases;
        let values = self.values;
        let differ = self.differ;
        write!(
            f,
            "{cases} cases, {values} values compared, {differ} differ"
        )
    }
}
