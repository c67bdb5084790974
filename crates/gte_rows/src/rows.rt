// Rows over lent words: each is stored where it fits, and counted in any case.
ghost use Rattle.std.specs.Prelude.{◌≡◌, cond, ◌&&◌, ◌+◌, ◌≤◌, eqb};
ghost use Rattle.gte_rows.specs.Rows.{low_of, high_of};
ghost use Rattle.gte_rows.specs.Listing.{listed, row_for, add_row, Most};

use words::shifts::low_word;

// Which rows are listed: those of a bit of FLAG, in a part of a triple.
#[derive(Clone, Copy)]
pub struct Wanted {
    pub bit: u32,
    pub part: u32,
}

// The lent words, how many of them the rows so far need, and which rows are listed.
#[derive(Drop)]
pub struct Rows<'a> {
    pub out: &'a mut [u32],
    pub count: usize,
    pub wanted: Wanted,
}

impl Rows<'_> {
    // A row behind the others.
    fn add_row(&mut self, bit: u32, line: u32, low: u32, high: u32)
        requires { self.old.count + 5 ≤ 65536 }
        ensures is { listed self.new ≡ add_row (row_for self.old bit line low high) (listed self.old) }
        ensures most { Most 5 self.old self.new }
    {
        let n = self.count;
        self.count = n + 5;
        if self.out.len() < n + 5 {
            return;
        }
        self.out[n] = bit;
        self.out[n + 1] = self.wanted.part;
        self.out[n + 2] = line;
        self.out[n + 3] = low;
        self.out[n + 4] = high;
    }

    // The row of a check that fails, where its bit is wanted.
    pub(crate) fn list_check(&mut self, bit: u32, line: u32, low: u32, high: u32, fails: bool)
        requires { self.old.count + 5 ≤ 65536 }
        ensures is { listed self.new ≡ cond (eqb bit self.old.wanted.bit && fails) (add_row (row_for self.old bit line low high) (listed self.old)) (listed self.old) }
        ensures most { Most 5 self.old self.new }
    {
        if bit != self.wanted.bit {
            return;
        }
        if fails {
            self.add_row(bit, line, low, high);
        }
    }

    // The same with a signed value in two words.
    pub(crate) fn list_value(&mut self, bit: u32, line: u32, v: i64, fails: bool)
        requires { self.old.count + 5 ≤ 65536 }
        ensures is { listed self.new ≡ cond (eqb bit self.old.wanted.bit && fails) (add_row (row_for self.old bit line (low_of v) (high_of v)) (listed self.old)) (listed self.old) }
        ensures most { Most 5 self.old self.new }
    {
        self.list_check(bit, line, low_word(v), low_word(v >> 32), fails);
    }
}
