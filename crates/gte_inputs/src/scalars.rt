// What commands read of the registers: IR0, the depths and their factors.
ghost use Rattle.std.specs.Prelude.{◌≡◌, ◌+◌};
ghost use Rattle.gte_inputs.specs.Inputs.{inputs_of};

use words::signed::low_half;

// IR0, the factor of GPF, GPL and the depth cueing.
#[tactic(auto, unfolding(crate::specs::Inputs::inputs_of))]
pub fn ir0(c: &[u32; 64]) -> i16
    ensures { result ≡ (inputs_of c.now).ir0 }
{
    low_half(c[8])
}

// SZ1 + SZ2 + SZ3, for AVSZ3.
#[tactic(auto, unfolding(crate::specs::Inputs::inputs_of))]
pub fn three_depths(c: &[u32; 64]) -> u32
    ensures { result ≡ (inputs_of c.now).sz1 + (inputs_of c.now).sz2 + (inputs_of c.now).sz3 }
{
    c[17] % 65536 + c[18] % 65536 + c[19] % 65536
}

// SZ0 + SZ1 + SZ2 + SZ3, for AVSZ4.
#[tactic(auto, unfolding(crate::specs::Inputs::inputs_of))]
pub fn four_depths(c: &[u32; 64]) -> u32
    ensures { result ≡ (inputs_of c.now).sz0 + (inputs_of c.now).sz1 + (inputs_of c.now).sz2 + (inputs_of c.now).sz3 }
{
    c[16] % 65536 + c[17] % 65536 + c[18] % 65536 + c[19] % 65536
}

// ZSF3, AVSZ3's scale: about a third.
#[tactic(auto, unfolding(crate::specs::Inputs::inputs_of))]
pub fn factor3(c: &[u32; 64]) -> i16
    ensures { result ≡ (inputs_of c.now).zsf3 }
{
    low_half(c[61])
}

// ZSF4, AVSZ4's scale: about a quarter.
#[tactic(auto, unfolding(crate::specs::Inputs::inputs_of))]
pub fn factor4(c: &[u32; 64]) -> i16
    ensures { result ≡ (inputs_of c.now).zsf4 }
{
    low_half(c[62])
}
