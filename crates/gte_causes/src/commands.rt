// The causes of every command.
ghost use Rattle.std.specs.Prelude.{◌+◌, ◌≤◌};
ghost use Rattle.gte_causes.specs.Causes.{parts_at, ListsParts};

use crate::depth::{list_avsz3, list_avsz4, list_nclip};
use crate::lighting::{list_nccs, list_ncct, list_ncds, list_ncdt, list_ncs, list_nct};
use crate::matrix::{list_mvmva, list_op, list_sqr};
use crate::perspective::{list_rtpt, list_vertex};
use crate::shading::{
    list_cc, list_cdp, list_dcpl, list_dpcs, list_dpct, list_gpf, list_gpl, list_intpl,
};
use gte::{bit_10, bit_19};
use gte_rows::rows::Rows;

// The rows of the wanted bit in every part. A command that is not listed has none.
pub fn list_bit(rows: &mut Rows<'_>, c: &[u32; 64], word: u32)
    requires { rows.old.count + 585 ≤ 65536 }
    ensures { ListsParts 585 (parts_at word c.now) rows.old rows.new }
{
    let sf = bit_19(word);
    let lm = bit_10(word);
    rows.wanted.part = 1;
    match word % 64 {
        0x01 => list_vertex(rows, c, 0, sf),
        0x06 => list_nclip(rows, c),
        0x0c => list_op(rows, c, sf, lm),
        0x10 => list_dpcs(rows, c, sf, lm),
        0x11 => list_intpl(rows, c, sf, lm),
        0x12 => list_mvmva(
            rows,
            c,
            word / 0x2_0000 % 4,
            word / 0x8000 % 4,
            word / 0x2000 % 4,
            sf,
            lm,
        ),
        0x13 => list_ncds(rows, c, 0, sf, lm),
        0x14 => list_cdp(rows, c, sf, lm),
        0x16 => list_ncdt(rows, c, sf, lm),
        0x1b => list_nccs(rows, c, 0, sf, lm),
        0x1c => list_cc(rows, c, sf, lm),
        0x1e => list_ncs(rows, c, 0, sf, lm),
        0x20 => list_nct(rows, c, sf, lm),
        0x28 => list_sqr(rows, c, sf, lm),
        0x29 => list_dcpl(rows, c, sf, lm),
        0x2a => list_dpct(rows, c, sf, lm),
        0x2d => list_avsz3(rows, c),
        0x2e => list_avsz4(rows, c),
        0x30 => list_rtpt(rows, c, sf),
        0x3d => list_gpf(rows, c, sf, lm),
        0x3e => list_gpl(rows, c, sf, lm),
        0x3f => list_ncct(rows, c, sf, lm),
        _ => {}
    }
}
