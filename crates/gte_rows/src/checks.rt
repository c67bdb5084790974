// The failing checks of each kind of value. k is 1, 2 or 3, the number of a MAC.
ghost use Rattle.std.specs.Prelude.{[], ◌∷◌, ◌+◌, ◌*◌, ◌^◌, ◌≤◌};
ghost use Rattle.integers.specs.Parts.{Mag};
ghost use Rattle.gte_arithmetic.specs.Checks.{check, above, below, beyond};
ghost use Rattle.gte_arithmetic.specs.Values.{mac_of, sum_checks, mac0_checks, ir_check, colour_check, depth_check, division_check, screen_check, factor_check};
ghost use Rattle.gte_rows.specs.Listing.{ListsMost};

use crate::rows::Rows;
use gte_arithmetic::limits::lowest_ir;
use gte_arithmetic::mac::{store_mac, within};

// Six methods are made parts of their callers: a question for causes goes 38 times through a command's checks, and took up to 1.6 times as
// long where they were called.
impl Rows<'_> {
    // A value above its range.
    fn list_above(&mut self, bit: u32, line: u32, v: i64, hi: i64)
        requires { self.old.count + 5 ≤ 65536 }
        ensures { ListsMost 5 (check bit line (above v hi) ∷ []) self.old self.new }
    {
        self.list_value(bit, line, v, hi < v);
    }

    // A value below its range.
    fn list_below(&mut self, bit: u32, line: u32, v: i64, lo: i64)
        requires { self.old.count + 5 ≤ 65536 }
        ensures { ListsMost 5 (check bit line (below v lo) ∷ []) self.old self.new }
    {
        self.list_value(bit, line, v, v < lo);
    }

    // A value outside of its range.
    fn list_beyond(&mut self, bit: u32, line: u32, v: i64, lo: i64, hi: i64)
        requires { self.old.count + 5 ≤ 65536 }
        ensures { ListsMost 5 (check bit line (beyond v lo hi) ∷ []) self.old self.new }
    {
        self.list_value(bit, line, v, !within(lo, hi, v));
    }

    // Bit 17: H and SZ3.
    pub fn list_division(&mut self, line: u32, h: u32, sz: u32)
        requires { (self.old.count + 5 ≤ 65536) × (sz ≤ 65535) }
        ensures { ListsMost 5 (division_check line h sz ∷ []) self.old self.new }
    {
        self.list_check(17, line, h, sz, 2 * sz <= h);
    }

    // A sum for MAC k.
    #[inline(always)]
    pub fn list_sum(&mut self, k: u32, line: u32, x: i64)
        requires { (self.old.count + 10 ≤ 65536) × (k ≤ 3) }
        ensures { ListsMost 10 (sum_checks k line x []) self.old self.new }
    {
        self.list_above(31 - k, line, x, 0x7ff_ffff_ffff);
        self.list_below(28 - k, line, x, -0x800_0000_0000);
    }

    // A value for MAC0.
    pub fn list_mac0(&mut self, line: u32, x: i64)
        requires { self.old.count + 10 ≤ 65536 }
        ensures { ListsMost 10 (mac0_checks line x []) self.old self.new }
    {
        self.list_above(16, line, x, 0x7fff_ffff);
        self.list_below(15, line, x, -0x8000_0000);
    }

    // IR k from a value. It is stored MAC, but of the third line of RTPS and RTPT.
    #[inline(always)]
    pub fn list_ir(&mut self, k: u32, line: u32, m: i64, lm: bool)
        requires { (self.old.count + 5 ≤ 65536) × (k ≤ 3) }
        ensures { ListsMost 5 (ir_check k line lm m ∷ []) self.old self.new }
    {
        self.list_beyond(25 - k, line, m, lowest_ir(lm), 0x7fff);
    }

    // Colour k from stored MAC.
    #[inline(always)]
    fn list_colour(&mut self, k: u32, line: u32, m: i32)
        requires { (self.old.count + 5 ≤ 65536) × (k ≤ 3) }
        ensures { ListsMost 5 (colour_check k line m ∷ []) self.old self.new }
    {
        self.list_beyond(22 - k, line, i64::from(m) >> 4, 0, 0xff);
    }

    // SZ3 or OTZ.
    pub fn list_depth(&mut self, line: u32, z: i64)
        requires { self.old.count + 5 ≤ 65536 }
        ensures { ListsMost 5 (depth_check line z ∷ []) self.old self.new }
    {
        self.list_beyond(18, line, z, 0, 0xffff);
    }

    // SX or SY.
    pub fn list_screen(&mut self, bit: u32, line: u32, x: i64)
        requires { self.old.count + 5 ≤ 65536 }
        ensures { ListsMost 5 (screen_check bit line x ∷ []) self.old self.new }
    {
        self.list_beyond(bit, line, x, -0x400, 0x3ff);
    }

    // IR0.
    pub fn list_factor(&mut self, line: u32, x: i64)
        requires { self.old.count + 5 ≤ 65536 }
        ensures { ListsMost 5 (factor_check line x ∷ []) self.old self.new }
    {
        self.list_beyond(12, line, x, 0, 0x1000);
    }

    // A sum x on line l, and on line i the IR of the MAC that y is stored as. MVMVA with FC tests one value and stores another.
    #[inline(always)]
    pub fn list_cell(&mut self, k: u32, l: u32, i: u32, x: i64, y: i64, sf: bool, lm: bool)
        requires { (self.old.count + 15 ≤ 65536) × (k ≤ 3) × Mag y (3 * 2 ^ 43) }
        ensures { ListsMost 15 (sum_checks k l x (ir_check k i lm (mac_of sf y) ∷ [])) self.old self.new }
    {
        let m = i64::from(store_mac(y, sf, 0, 0).v);
        // The bits of a sum and an IR are 30 to 22.
        if self.wanted.bit < 22 {
            return;
        }
        self.list_sum(k, l, x);
        self.list_ir(k, i, m, lm);
    }

    // On line i the IR and the colour of the MAC that x is stored as.
    #[inline(always)]
    pub fn list_end(&mut self, k: u32, i: u32, x: i64, sf: bool, lm: bool)
        requires { (self.old.count + 10 ≤ 65536) × (k ≤ 3) × Mag x (3 * 2 ^ 43) }
        ensures { ListsMost 10 (ir_check k i lm (mac_of sf x) ∷ colour_check k i (mac_of sf x) ∷ []) self.old self.new }
    {
        let m = store_mac(x, sf, 0, 0).v;
        self.list_ir(k, i, i64::from(m), lm);
        self.list_colour(k, i, m);
    }

    // The same after the sum's own tests on line l.
    #[inline(always)]
    pub fn list_channel(&mut self, k: u32, l: u32, i: u32, x: i64, sf: bool, lm: bool)
        requires { (self.old.count + 20 ≤ 65536) × (k ≤ 3) × Mag x (3 * 2 ^ 43) }
        ensures { ListsMost 20 (sum_checks k l x (ir_check k i lm (mac_of sf x) ∷ colour_check k i (mac_of sf x) ∷ [])) self.old self.new }
    {
        self.list_sum(k, l, x);
        self.list_end(k, i, x, sf, lm);
    }
}
