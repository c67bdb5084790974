// The causes on lines that commands share.
ghost use Rattle.std.specs.Prelude.{false, [], ◌+◌, ◌*◌, ◌^◌, ◌≤◌, ◌<◌};
ghost use Rattle.gte_sums.specs.Sums.{Bounded};
ghost use Rattle.gte_line.specs.Line.{line_checks, line_checks_at};
ghost use Rattle.gte_inputs.specs.Inputs.{inputs_of};
ghost use Rattle.gte_colour.specs.Shade.{shade_checks};
ghost use Rattle.gte_colour.specs.Cueing.{cued_checks};
ghost use Rattle.gte_colour.specs.Lights.{normal_checks};
ghost use Rattle.gte_rows.specs.Listing.{ListsMost};

use gte_arithmetic::values::Wide;
use gte_colour::lights::{back_sums, light_line, light_sums};
use gte_colour::shade::{away, mix};
use gte_inputs::scalars::ir0;
use gte_inputs::vectors::far_colour;
use gte_rows::rows::Rows;

// MAC1..3 stand on lines j, k and l, IR1..3 on line i.
pub(crate) fn list_line_at(
    rows: &mut Rows<'_>,
    j: u32,
    k: u32,
    l: u32,
    i: u32,
    s: Wide,
    sf: bool,
    lm: bool,
)
    requires { (rows.old.count + 45 ≤ 65536) × Bounded (3 * 2 ^ 43) s }
    ensures { ListsMost 45 (line_checks_at j k l i sf lm s) rows.old rows.new }
{
    rows.list_cell(1, j, i, s.x, s.x, sf, lm);
    rows.list_cell(2, k, i, s.y, s.y, sf, lm);
    rows.list_cell(3, l, i, s.z, s.z, sf, lm);
}

// All on one line.
pub(crate) fn list_line(rows: &mut Rows<'_>, l: u32, s: Wide, sf: bool, lm: bool)
    requires { (rows.old.count + 45 ≤ 65536) × Bounded (3 * 2 ^ 43) s }
    ensures { ListsMost 45 (line_checks l sf lm s) rows.old rows.new }
{
    list_line_at(rows, l, l, l, l, s, sf, lm);
}

// The end of a colour command: MAC is stored on line l, the colours and IR stand on line i.
pub(crate) fn list_shade(rows: &mut Rows<'_>, l: u32, i: u32, s: Wide, sf: bool, lm: bool)
    requires { (rows.old.count + 60 ≤ 65536) × Bounded (3 * 2 ^ 43) s }
    ensures { ListsMost 60 (shade_checks l i sf lm s) rows.old rows.new }
{
    rows.list_channel(1, l, i, s.x, sf, lm);
    rows.list_channel(2, l, i, s.y, sf, lm);
    rows.list_channel(3, l, i, s.z, sf, lm);
}

// The end with MAC+(FC-MAC)·IR0: the difference stands on line d, MAC on line l, the colours and IR on line i.
pub(crate) fn list_cue(
    rows: &mut Rows<'_>,
    d: u32,
    l: u32,
    i: u32,
    c: &[u32; 64],
    t: Wide,
    sf: bool,
    lm: bool,
)
    requires { (rows.old.count + 105 ≤ 65536) × Bounded (2 ^ 28) t }
    ensures { ListsMost 105 (cued_checks d l i sf lm (inputs_of c.now) t) rows.old rows.new }
{
    let f = far_colour(c);
    list_line(rows, d, away(f, t), sf, false);
    let m = mix(t, f, ir0(c), sf);
    let v = m.v;
    list_shade(rows, l, i, v, sf, lm);
}

// Lines 1 and 2 of the normal colour commands.
pub(crate) fn list_normal(rows: &mut Rows<'_>, c: &[u32; 64], k: usize, sf: bool, lm: bool)
    requires { (rows.old.count + 90 ≤ 65536) × (k < 3) }
    ensures { ListsMost 90 (normal_checks sf lm (inputs_of c.now) k []) rows.old rows.new }
{
    list_line(rows, 1, light_sums(c, k), sf, lm);
    let v = light_line(c, k, sf, lm).ir;
    list_line(rows, 2, back_sums(c, v), sf, lm);
}
