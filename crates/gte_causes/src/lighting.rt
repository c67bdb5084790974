// The causes of NCS, NCCS and NCDS, and of their triples.
ghost use Rattle.std.specs.Prelude.{[], ◌∷◌, ◌+◌, ◌*◌, ◌^◌, ◌≤◌, ◌<◌};
ghost use Rattle.gte_sums.specs.Sums.{Bounded};
ghost use Rattle.gte_inputs.specs.Inputs.{inputs_of};
ghost use Rattle.gte_lighting.specs.Normals.{last_checks, ncs_checks};
ghost use Rattle.gte_lighting.specs.NormalColours.{nccs_checks};
ghost use Rattle.gte_lighting.specs.NormalCueing.{ncds_checks};
ghost use Rattle.gte_rows.specs.Listing.{ListsMost};
ghost use Rattle.gte_causes.specs.Causes.{ListsParts};

use crate::lines::{list_cue, list_normal, list_shade};
use gte_arithmetic::values::Wide;
use gte_colour::lights::{back_sums, light_line, normal_line};
use gte_rows::rows::Rows;
use gte_sums::tones::tones;

// The last line of NCS, from the sums of line 2: IR is limited from the same MAC again.
fn list_last(rows: &mut Rows<'_>, i: u32, s: Wide, sf: bool, lm: bool)
    requires { (rows.old.count + 30 ≤ 65536) × Bounded (3 * 2 ^ 43) s }
    ensures { ListsMost 30 (last_checks i sf lm s) rows.old rows.new }
{
    rows.list_end(1, i, s.x, sf, lm);
    rows.list_end(2, i, s.y, sf, lm);
    rows.list_end(3, i, s.z, sf, lm);
}

// NCS, and a part of NCT.
pub(crate) fn list_ncs(rows: &mut Rows<'_>, c: &[u32; 64], k: usize, sf: bool, lm: bool)
    requires { (rows.old.count + 120 ≤ 65536) × (k < 3) }
    ensures { ListsMost 120 (ncs_checks sf lm (inputs_of c.now) k) rows.old rows.new }
{
    let v = light_line(c, k, sf, lm).ir;
    list_normal(rows, c, k, sf, lm);
    list_last(rows, 6, back_sums(c, v), sf, lm);
}

// NCCS, and a part of NCCT.
pub(crate) fn list_nccs(rows: &mut Rows<'_>, c: &[u32; 64], k: usize, sf: bool, lm: bool)
    requires { (rows.old.count + 150 ≤ 65536) × (k < 3) }
    ensures { ListsMost 150 (nccs_checks sf lm (inputs_of c.now) k) rows.old rows.new }
{
    list_normal(rows, c, k, sf, lm);
    let v = normal_line(c, k, sf, lm).ir;
    list_shade(rows, 5, 6, tones(c[6], v), sf, lm);
}

// NCDS, and a part of NCDT.
pub(crate) fn list_ncds(rows: &mut Rows<'_>, c: &[u32; 64], k: usize, sf: bool, lm: bool)
    requires { (rows.old.count + 195 ≤ 65536) × (k < 3) }
    ensures { ListsMost 195 (ncds_checks sf lm (inputs_of c.now) k) rows.old rows.new }
{
    list_normal(rows, c, k, sf, lm);
    let v = normal_line(c, k, sf, lm).ir;
    list_cue(rows, 4, 5, 6, c, tones(c[6], v), sf, lm);
}

// NCT: V0, V1 and V2. The triples write their parts out: a function that takes the part as a closure would have to say what each of its
// calls lists, and each caller to prove it of its closure, which is longer than the five bodies.
pub(crate) fn list_nct(rows: &mut Rows<'_>, c: &[u32; 64], sf: bool, lm: bool)
    requires { rows.old.count + 585 ≤ 65536 }
    ensures { ListsParts 585 (ncs_checks sf lm (inputs_of c.now) 0 ∷ ncs_checks sf lm (inputs_of c.now) 1 ∷ ncs_checks sf lm (inputs_of c.now) 2 ∷ []) rows.old rows.new }
{
    rows.wanted.part = 1;
    list_ncs(rows, c, 0, sf, lm);
    rows.wanted.part = 2;
    list_ncs(rows, c, 1, sf, lm);
    rows.wanted.part = 3;
    list_ncs(rows, c, 2, sf, lm);
}

// NCCT: V0, V1 and V2.
pub(crate) fn list_ncct(rows: &mut Rows<'_>, c: &[u32; 64], sf: bool, lm: bool)
    requires { rows.old.count + 585 ≤ 65536 }
    ensures { ListsParts 585 (nccs_checks sf lm (inputs_of c.now) 0 ∷ nccs_checks sf lm (inputs_of c.now) 1 ∷ nccs_checks sf lm (inputs_of c.now) 2 ∷ []) rows.old rows.new }
{
    rows.wanted.part = 1;
    list_nccs(rows, c, 0, sf, lm);
    rows.wanted.part = 2;
    list_nccs(rows, c, 1, sf, lm);
    rows.wanted.part = 3;
    list_nccs(rows, c, 2, sf, lm);
}

// NCDT: V0, V1 and V2.
pub(crate) fn list_ncdt(rows: &mut Rows<'_>, c: &[u32; 64], sf: bool, lm: bool)
    requires { rows.old.count + 585 ≤ 65536 }
    ensures { ListsParts 585 (ncds_checks sf lm (inputs_of c.now) 0 ∷ ncds_checks sf lm (inputs_of c.now) 1 ∷ ncds_checks sf lm (inputs_of c.now) 2 ∷ []) rows.old rows.new }
{
    rows.wanted.part = 1;
    list_ncds(rows, c, 0, sf, lm);
    rows.wanted.part = 2;
    list_ncds(rows, c, 1, sf, lm);
    rows.wanted.part = 3;
    list_ncds(rows, c, 2, sf, lm);
}
