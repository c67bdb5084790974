// The perspective quotient of RTPS and RTPT as the hardware works it out. Carries 02 Ticket 2 and 001 "GTE Division Inaccuracy".

#![tactic(auto)]

ghost use Rattle.std.specs.Prelude.{◌≡◌, ◌*◌, ◌^◌, ◌≤◌, ◌<◌, leb};
ghost use Rattle.gte_arithmetic.specs.Checks.{raise};
ghost use Rattle.gte_division.specs.Division.{entry_of, packed, refined, quotient, ratio_of};

use gte_arithmetic::values::Checked;

// The table of first guesses, eight entries to a word, the first one lowest; from entry 256 on they are 0. A `match` becomes a
// table of the library, where an array would be copied at each call.
#[tactic(auto, unfolding(crate::specs::Division::packed, crate::specs::Division::entry_of))]
fn eight_entries(k: u32) -> u64
    ensures { result ≡ packed 8 (k * 8) }
{
    match k {
        0 => 0xf1f3_f5f7_f9fb_fdff,
        1 => 0xe3e4_e6e8_eaec_eeef,
        2 => 0xd5d6_d8da_dcdd_dfe1,
        3 => 0xc8c9_cbcd_ced0_d1d3,
        4 => 0xbbbd_bec0_c1c3_c5c6,
        5 => 0xb0b1_b2b4_b5b7_b8ba,
        6 => 0xa4a6_a7a9_aaab_adae,
        7 => 0x9a9b_9c9e_9fa0_a2a3,
        8 => 0x9091_9294_9596_9799,
        9 => 0x8687_898a_8b8c_8d8f,
        10 => 0x7d7e_7f81_8283_8485,
        11 => 0x7475_7778_797a_7b7c,
        12 => 0x6c6d_6e6f_7071_7273,
        13 => 0x6465_6667_6869_6a6b,
        14 => 0x5d5d_5e5f_6061_6263,
        15 => 0x5556_5758_595a_5b5c,
        16 => 0x4e4f_5051_5253_5354,
        17 => 0x4848_494a_4b4c_4d4d,
        18 => 0x4142_4343_4445_4647,
        19 => 0x3b3c_3c3d_3e3f_3f40,
        20 => 0x3536_3637_3839_393a,
        21 => 0x2f30_3131_3233_3334,
        22 => 0x2a2a_2b2c_2c2d_2e2e,
        23 => 0x2425_2626_2728_2829,
        24 => 0x1f20_2021_2222_2324,
        25 => 0x1a1b_1b1c_1d1d_1e1e,
        26 => 0x1516_1617_1818_1919,
        27 => 0x1111_1212_1314_1415,
        28 => 0x0c0d_0d0e_0e0f_0f10,
        29 => 0x0808_0909_0a0a_0b0c,
        30 => 0x0404_0505_0606_0707,
        31 => 0x0000_0101_0202_0303,
        _ => 0,
    }
}

// An entry of the table.
fn entry(i: u32) -> u32
    ensures is { result ≡ entry_of i }
    ensures small { result < 256 }
{
    ((eight_entries(i / 8) >> (i % 8 * 8)) % 256) as u32
}

// About 2^32/d, for a divisor whose top bit is bit 15: a first guess, refined twice.
fn reciprocal(d: u32) -> u32
    requires { (0x8000 ≤ d) × (d < 0x1_0000) }
    ensures is { result ≡ refined d }
    ensures small { result ≤ 2 ^ 18 }
{
    let u = 0x101 + entry((d - 0x7fc0) / 128);
    let e = (0x200_0080 - d * u) / 256;
    (0x80 + e * u) / 256
}

// The quotient below the overflow. Numerator and divisor are shifted so that the divisor's top bit is bit 15.
pub fn ratio(h: u32, sz: u32) -> u32
    requires { (sz < 65536) × (h < 2 * sz) }
    ensures is { result ≡ quotient h sz }
    ensures small { result < 2 ^ 17 }
{
    // Counted in 32 bits: the count of 16 bits keeps the upper half of a register, and so waits for the division before.
    let z = sz.leading_zeros() - 16;
    let n = h << z;
    let d = sz << z;
    let q = (u64::from(n) * u64::from(reciprocal(d)) + 0x8000) / 0x1_0000;
    q.min(0x1_ffff) as u32
}

// The perspective quotient, with bit 17. H is unsigned.
#[tactic(auto, unfolding(crate::specs::Division::ratio_of))]
pub fn divide(h: u32, sz: u32) -> Checked<u32>
    requires { sz < 65536 }
    ensures is { result ≡ record { v = ratio_of h sz; flag = raise (leb (2 * sz) h) 0x2_0000 } }
    ensures small { result.v < 2 ^ 17 }
{
    if 2 * sz <= h {
        Checked {
            v: 0x1_ffff,
            flag: 0x2_0000,
        }
    } else {
        Checked {
            v: ratio(h, sz),
            flag: 0,
        }
    }
}
