// What commands read of the registers: the camera, and the corners on the screen.
ghost use Rattle.std.specs.Prelude.{◌≡◌, ◌<◌};
ghost use Rattle.gte_inputs.specs.Inputs.{corner_of, inputs_of};

use gte_arithmetic::values::{Camera, Corner};
use words::signed::{high_half, low_half, to_signed};

// Registers 56 to 60. H is unsigned: the low half, and not what a read returns.
#[tactic(auto, unfolding(crate::specs::Inputs::inputs_of))]
pub fn camera(c: &[u32; 64]) -> Camera
    ensures { result ≡ (inputs_of c.now).camera }
{
    Camera {
        h: c[58] % 65536,
        ofx: to_signed(c[56]),
        ofy: to_signed(c[57]),
        dqa: low_half(c[59]),
        dqb: to_signed(c[60]),
    }
}

#[tactic(auto, unfolding(crate::specs::Inputs::corner_of))]
fn corner_at(c: &[u32; 64], b: usize) -> Corner
    requires { b < 64 }
    ensures { result ≡ corner_of c.now b }
{
    Corner {
        x: low_half(c[b]),
        y: high_half(c[b]),
    }
}

// SXY0, the oldest point.
#[tactic(auto, unfolding(crate::specs::Inputs::inputs_of))]
pub fn corner0(c: &[u32; 64]) -> Corner
    ensures { result ≡ (inputs_of c.now).sxy0 }
{
    corner_at(c, 12)
}

// SXY1, the point between the two.
#[tactic(auto, unfolding(crate::specs::Inputs::inputs_of))]
pub fn corner1(c: &[u32; 64]) -> Corner
    ensures { result ≡ (inputs_of c.now).sxy1 }
{
    corner_at(c, 13)
}

// SXY2, the newest point.
#[tactic(auto, unfolding(crate::specs::Inputs::inputs_of))]
pub fn corner2(c: &[u32; 64]) -> Corner
    ensures { result ≡ (inputs_of c.now).sxy2 }
{
    corner_at(c, 14)
}
