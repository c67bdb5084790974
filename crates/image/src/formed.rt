// The words of an image are well formed.
ghost use Rattle.std.specs.Prelude.{◌≡◌};
ghost use Rattle.image.specs.Formed.{pending_formed, system_formed, control_formed, geometry_formed, formed};

use gte_registers::view::reads_of;

// The register that awaits a load, and its value: 0 where none does.
#[tactic(auto, unfolding(crate::specs::Formed::pending_formed))]
fn pending_formed(register: u32, value: u32) -> bool
    ensures { result ≡ pending_formed register value }
{
    register <= 31 && (register != 0 || value == 0)
}

// SR and CAUSE have only the bits that exist.
#[tactic(auto, unfolding(crate::specs::Formed::system_formed))]
fn system_formed(sr: u32, cause: u32) -> bool
    ensures { result ≡ system_formed sr cause }
{
    sr & 0xf24f_ff3f == sr && cause & 0xb000_037c == cause
}

// Words 32..43 are well formed.
#[tactic(auto, unfolding(crate::specs::Formed::control_formed))]
fn control_formed(w: &[u32; 12]) -> bool
    ensures { result ≡ control_formed w.now }
{
    pending_formed(w[4], w[5]) && w[6] <= 1 && w[11] == 0 && system_formed(w[7], w[8])
}

// Every COP2 word equals what a read of its register returns.
#[tactic(auto, unfolding(crate::specs::Formed::geometry_formed, gte_registers::specs::Registers::view))]
fn geometry_formed(g: &[u32; 64]) -> bool
    ensures { result ≡ geometry_formed g.now }
{
    reads_of(g) == *g
}

// The words of an image are well formed: registers, control state, COP2.
#[tactic(auto, unfolding(crate::specs::Formed::formed))]
pub fn well_formed(registers: &[u32; 32], w: &[u32; 12], g: &[u32; 64]) -> bool
    ensures { result ≡ formed registers.now w.now g.now }
{
    registers[0] == 0 && control_formed(w) && geometry_formed(g)
}
