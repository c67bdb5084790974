// A command word is carried out. Carries 01 "GTE arithmetic": the 22 commands by their low six bits.

#![tactic(auto)]

ghost use Rattle.std.specs.Prelude.{◌≡◌};
ghost use Rattle.words.specs.Words.{bit_at};
ghost use Rattle.gte_registers.specs.Registers.{view, reads};
ghost use Rattle.gte_inputs.specs.Inputs.{inputs_of};
ghost use Rattle.gte.specs.Commands.{leaves, long_of, outcome_of, is_done, command_of};

use gte_depth::averages::{avsz3, avsz4, nclip};
use gte_lighting::normal_colours::{nccs, ncct};
use gte_lighting::normal_cueing::{ncds, ncdt};
use gte_lighting::normals::{ncs, nct};
use gte_matrix::mvmva::mvmva;
use gte_matrix::sqr_op::{op, sqr};
use gte_perspective::vertices::{rtps, rtpt};
use gte_shading::colours::{cc, cdp};
use gte_shading::depth_cueing::{dcpl, dpcs, dpct, intpl};
use gte_shading::interpolation::{gpf, gpl};

// The low six bits of a command word are none of the 22.
#[derive(Clone, Copy, Debug, PartialEq, Eq)]
pub struct Unlisted;

// sf: MAC1..3 are shifted by 12.
pub fn bit_19(word: u32) -> bool
    ensures { result ≡ bit_at 19 word }
{
    word / 0x8_0000 % 2 == 1
}

// lm: IR1..3 are limited to 0 at least.
pub fn bit_10(word: u32) -> bool
    ensures { result ≡ bit_at 10 word }
{
    word / 0x400 % 2 == 1
}

// CC, CDP, DPCT and NCCT, whose code is long.
#[derive(Clone, Copy)]
enum Long {
    Cc,
    Cdp,
    Dpct,
    Ncct,
}

// They stand in one function that is called from four places, and so stays one: what is called from one place becomes part of the
// step, which has no room for them (ARCHITECTURE.md, "Why the code is shaped so").
#[tactic(auto, unfolding(crate::specs::Commands::leaves))]
fn long_command(c: &mut [u32; 64], k: Long, sf: bool, lm: bool)
    ensures { view c.new ≡ reads (leaves (long_of k) sf lm 0 (inputs_of (view c.old)) (view c.old)) }
{
    match k {
        Long::Cc => cc(c, sf, lm),
        Long::Cdp => cdp(c, sf, lm),
        Long::Dpct => dpct(c, sf, lm),
        Long::Ncct => ncct(c, sf, lm),
    }
}

// One GTE command over the 64 words; the GTE has no other entry but reads and writes of registers. The numbers are the papers', and
// the definitions have them in one table: names for them would stand between the two.
#[tactic(auto, unfolding(crate::specs::Commands::commands, crate::specs::Commands::outcome_of, crate::specs::Commands::command_of, crate::specs::Commands::leaves))]
pub fn command(c: &mut [u32; 64], word: u32) -> Result<(), Unlisted>
    ensures is { result ≡ outcome_of word }
    ensures after { view c.new ≡ command_of word (view c.old) }
{
    let sf = bit_19(word);
    let lm = bit_10(word);
    match word % 64 {
        0x01 => rtps(c, sf),
        0x06 => nclip(c),
        0x0c => op(c, sf, lm),
        0x10 => dpcs(c, sf, lm),
        0x11 => intpl(c, sf, lm),
        0x12 => mvmva(
            c,
            word / 0x2_0000 % 4,
            word / 0x8000 % 4,
            word / 0x2000 % 4,
            sf,
            lm,
        ),
        0x13 => ncds(c, sf, lm),
        0x14 => long_command(c, Long::Cdp, sf, lm),
        0x16 => ncdt(c, sf, lm),
        0x1b => nccs(c, sf, lm),
        0x1c => long_command(c, Long::Cc, sf, lm),
        0x1e => ncs(c, sf, lm),
        0x20 => nct(c, sf, lm),
        0x28 => sqr(c, sf, lm),
        0x29 => dcpl(c, sf, lm),
        0x2a => long_command(c, Long::Dpct, sf, lm),
        0x2d => avsz3(c),
        0x2e => avsz4(c),
        0x30 => rtpt(c, sf),
        0x3d => gpf(c, sf, lm),
        0x3e => gpl(c, sf, lm),
        0x3f => long_command(c, Long::Ncct, sf, lm),
        _ => return Err(Unlisted),
    }
    Ok(())
}

// Whether a command word is one of the 22.
#[tactic(auto, unfolding(crate::specs::Commands::commands, crate::specs::Commands::outcome_of))]
pub fn is_listed(word: u32) -> bool
    ensures { result ≡ is_done (outcome_of word) }
{
    matches!(
        word % 64,
        0x01 | 0x06
            | 0x0c
            | 0x10
            | 0x11
            | 0x12
            | 0x13
            | 0x14
            | 0x16
            | 0x1b
            | 0x1c
            | 0x1e
            | 0x20
            | 0x28
            | 0x29
            | 0x2a
            | 0x2d
            | 0x2e
            | 0x30
            | 0x3d
            | 0x3e
            | 0x3f
    )
}
