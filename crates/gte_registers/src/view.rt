// The 64 COP2 registers as reads return them.
ghost use Rattle.std.specs.Prelude.{◌≡◌, [], ◌∷◌};
ghost use Rattle.gte_registers.specs.Registers.{view};
ghost use Rattle.gte_registers.specs.Taken.{taken};

use crate::reads::read;

// Vectors, OTZ and IR as reads return them. Here and below each register is named, as `taken` names it: a loop over a list
// would need an invariant and be no plainer.
fn take_inputs(g: &[u32; 64], r: &mut [u32; 64])
    ensures { r.new ≡ taken (1 ∷ 3 ∷ 5 ∷ 7 ∷ 8 ∷ 9 ∷ 10 ∷ 11 ∷ []) (view g.now) r.old }
{
    r[1] = read(g, 1);
    r[3] = read(g, 3);
    r[5] = read(g, 5);
    r[7] = read(g, 7);
    r[8] = read(g, 8);
    r[9] = read(g, 9);
    r[10] = read(g, 10);
    r[11] = read(g, 11);
}

// SXYP, the depths, IRGB, ORGB and LZCR.
fn take_queues(g: &[u32; 64], r: &mut [u32; 64])
    ensures { r.new ≡ taken (15 ∷ 16 ∷ 17 ∷ 18 ∷ 19 ∷ 28 ∷ 29 ∷ 31 ∷ []) (view g.now) r.old }
{
    r[15] = read(g, 15);
    r[16] = read(g, 16);
    r[17] = read(g, 17);
    r[18] = read(g, 18);
    r[19] = read(g, 19);
    r[28] = read(g, 28);
    r[29] = read(g, 29);
    r[31] = read(g, 31);
}

// The control registers that are halves, and FLAG.
fn take_controls(g: &[u32; 64], r: &mut [u32; 64])
    ensures { r.new ≡ taken (36 ∷ 44 ∷ 52 ∷ 58 ∷ 59 ∷ 61 ∷ 62 ∷ 63 ∷ []) (view g.now) r.old }
{
    r[36] = read(g, 36);
    r[44] = read(g, 44);
    r[52] = read(g, 52);
    r[58] = read(g, 58);
    r[59] = read(g, 59);
    r[61] = read(g, 61);
    r[62] = read(g, 62);
    r[63] = read(g, 63);
}

// The 64 registers as reads return them: all but those above are plain words.
pub fn reads_of(g: &[u32; 64]) -> [u32; 64]
    ensures { result ≡ view g.now }
{
    let mut r = *g;
    take_inputs(g, &mut r);
    take_queues(g, &mut r);
    take_controls(g, &mut r);
    r
}
