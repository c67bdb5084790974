// The causes of NCLIP, AVSZ3 and AVSZ4.
ghost use Rattle.std.specs.Prelude.{[], ◌+◌, ◌≤◌, pos, ◌*ℤ◌};
ghost use Rattle.gte_arithmetic.specs.Values.{mac0_checks};
ghost use Rattle.gte_inputs.specs.Inputs.{inputs_of};
ghost use Rattle.gte_depth.specs.Depth.{winding_of, average_checks};
ghost use Rattle.gte_rows.specs.Listing.{ListsMost};

use gte_depth::values::{weighed, winding_sum};
use gte_inputs::scalars::{factor3, factor4, four_depths, three_depths};
use gte_inputs::screen::{corner0, corner1, corner2};
use gte_rows::rows::Rows;
use words::shifts::shift_down;

pub(crate) fn list_nclip(rows: &mut Rows<'_>, c: &[u32; 64])
    requires { rows.old.count + 10 ≤ 65536 }
    ensures { ListsMost 10 (mac0_checks 1 (winding_of (inputs_of c.now).sxy0 (inputs_of c.now).sxy1 (inputs_of c.now).sxy2) []) rows.old rows.new }
{
    let x = winding_sum(corner0(c), corner1(c), corner2(c));
    rows.list_mac0(1, x);
}

// MAC0 on the given line, and OTZ on line 3.
fn list_average(rows: &mut Rows<'_>, line: u32, x: i64)
    requires { rows.old.count + 15 ≤ 65536 }
    ensures { ListsMost 15 (average_checks line x) rows.old rows.new }
{
    rows.list_mac0(line, x);
    rows.list_depth(3, shift_down::<12>(x));
}

pub(crate) fn list_avsz3(rows: &mut Rows<'_>, c: &[u32; 64])
    requires { rows.old.count + 15 ≤ 65536 }
    ensures { ListsMost 15 (average_checks 1 ((inputs_of c.now).zsf3 *ℤ pos ((inputs_of c.now).sz1 + (inputs_of c.now).sz2 + (inputs_of c.now).sz3))) rows.old rows.new }
{
    list_average(rows, 1, weighed(factor3(c), three_depths(c)));
}

pub(crate) fn list_avsz4(rows: &mut Rows<'_>, c: &[u32; 64])
    requires { rows.old.count + 15 ≤ 65536 }
    ensures { ListsMost 15 (average_checks 2 ((inputs_of c.now).zsf4 *ℤ pos ((inputs_of c.now).sz0 + (inputs_of c.now).sz1 + (inputs_of c.now).sz2 + (inputs_of c.now).sz3))) rows.old rows.new }
{
    list_average(rows, 2, weighed(factor4(c), four_depths(c)));
}
