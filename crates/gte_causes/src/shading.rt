// The causes of CC, CDP, DCPL, INTPL, DPCS, DPCT, GPF and GPL.
ghost use Rattle.std.specs.Prelude.{[], ◌∷◌, ◌+◌, ◌≤◌, ◌<◌};
ghost use Rattle.gte_inputs.specs.Inputs.{inputs_of};
ghost use Rattle.gte_colour.specs.Shade.{shade_checks};
ghost use Rattle.gte_colour.specs.Cueing.{depth_cued_checks};
ghost use Rattle.gte_shading.specs.Shading.{cc_checks, cdp_checks};
ghost use Rattle.gte_shading.specs.DepthCueing.{dcpl_from, intpl_from, dpcs_from, dpct_from};
ghost use Rattle.gte_shading.specs.Interpolation.{gpf_from, gpl_from};
ghost use Rattle.gte_rows.specs.Listing.{ListsMost};
ghost use Rattle.gte_causes.specs.Causes.{ListsParts};

use crate::lines::{list_cue, list_line, list_shade};
use gte_colour::lights::back_sums;
use gte_inputs::scalars::ir0;
use gte_inputs::vectors::{ir, macs};
use gte_line::finish;
use gte_rows::rows::Rows;
use gte_sums::products::{scaled, scaled_from};
use gte_sums::tones::{levels, raised, tones};

pub(crate) fn list_cc(rows: &mut Rows<'_>, c: &[u32; 64], sf: bool, lm: bool)
    requires { rows.old.count + 105 ≤ 65536 }
    ensures { ListsMost 105 (cc_checks sf lm (inputs_of c.now)) rows.old rows.new }
{
    let s = back_sums(c, ir(c));
    list_line(rows, 1, s, sf, lm);
    let v = finish(s, sf, lm).ir;
    list_shade(rows, 4, 5, tones(c[6], v), sf, lm);
}

pub(crate) fn list_cdp(rows: &mut Rows<'_>, c: &[u32; 64], sf: bool, lm: bool)
    requires { rows.old.count + 150 ≤ 65536 }
    ensures { ListsMost 150 (cdp_checks sf lm (inputs_of c.now)) rows.old rows.new }
{
    let s = back_sums(c, ir(c));
    list_line(rows, 1, s, sf, lm);
    let v = finish(s, sf, lm).ir;
    list_cue(rows, 3, 4, 5, c, tones(c[6], v), sf, lm);
}

pub(crate) fn list_dcpl(rows: &mut Rows<'_>, c: &[u32; 64], sf: bool, lm: bool)
    requires { rows.old.count + 105 ≤ 65536 }
    ensures { ListsMost 105 (depth_cued_checks sf lm (inputs_of c.now) (dcpl_from (inputs_of c.now))) rows.old rows.new }
{
    list_cue(rows, 4, 5, 6, c, tones(c[6], ir(c)), sf, lm);
}

pub(crate) fn list_intpl(rows: &mut Rows<'_>, c: &[u32; 64], sf: bool, lm: bool)
    requires { rows.old.count + 105 ≤ 65536 }
    ensures { ListsMost 105 (depth_cued_checks sf lm (inputs_of c.now) (intpl_from (inputs_of c.now))) rows.old rows.new }
{
    list_cue(rows, 4, 5, 6, c, raised(ir(c)), sf, lm);
}

pub(crate) fn list_dpcs(rows: &mut Rows<'_>, c: &[u32; 64], sf: bool, lm: bool)
    requires { rows.old.count + 105 ≤ 65536 }
    ensures { ListsMost 105 (depth_cued_checks sf lm (inputs_of c.now) (dpcs_from (inputs_of c.now))) rows.old rows.new }
{
    list_cue(rows, 4, 5, 6, c, levels(c[6]), sf, lm);
}

// A part of DPCT: the colour that stands in RGB0 at that part.
fn list_dpct_part(rows: &mut Rows<'_>, c: &[u32; 64], k: usize, sf: bool, lm: bool)
    requires { (rows.old.count + 105 ≤ 65536) × (k < 3) }
    ensures { ListsMost 105 (depth_cued_checks sf lm (inputs_of c.now) (dpct_from (inputs_of c.now) k)) rows.old rows.new }
{
    list_cue(rows, 4, 5, 6, c, levels(c[k + 20]), sf, lm);
}

// DPCT: the three colours of the FIFO.
pub(crate) fn list_dpct(rows: &mut Rows<'_>, c: &[u32; 64], sf: bool, lm: bool)
    requires { rows.old.count + 585 ≤ 65536 }
    ensures { ListsParts 585 (depth_cued_checks sf lm (inputs_of c.now) (dpct_from (inputs_of c.now) 0) ∷ depth_cued_checks sf lm (inputs_of c.now) (dpct_from (inputs_of c.now) 1) ∷ depth_cued_checks sf lm (inputs_of c.now) (dpct_from (inputs_of c.now) 2) ∷ []) rows.old rows.new }
{
    rows.wanted.part = 1;
    list_dpct_part(rows, c, 0, sf, lm);
    rows.wanted.part = 2;
    list_dpct_part(rows, c, 1, sf, lm);
    rows.wanted.part = 3;
    list_dpct_part(rows, c, 2, sf, lm);
}

pub(crate) fn list_gpf(rows: &mut Rows<'_>, c: &[u32; 64], sf: bool, lm: bool)
    requires { rows.old.count + 60 ≤ 65536 }
    ensures { ListsMost 60 (shade_checks 3 4 sf lm (gpf_from (inputs_of c.now))) rows.old rows.new }
{
    list_shade(rows, 3, 4, scaled(ir(c), ir0(c)), sf, lm);
}

pub(crate) fn list_gpl(rows: &mut Rows<'_>, c: &[u32; 64], sf: bool, lm: bool)
    requires { rows.old.count + 60 ≤ 65536 }
    ensures { ListsMost 60 (shade_checks 3 4 sf lm (gpl_from sf (inputs_of c.now))) rows.old rows.new }
{
    let s = scaled_from(ir(c), ir0(c), macs(c), sf);
    list_shade(rows, 3, 4, s, sf, lm);
}
