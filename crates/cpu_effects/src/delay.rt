// The load that waits.
ghost use Rattle.std.specs.Prelude.{◌≡◌};
ghost use Rattle.cpu_state.specs.System.{none};
ghost use Rattle.cpu_effects.specs.Delay.{landed, landed_unless, with_register, pending_of, current_of};

use cpu_state::control::Pending;

// Nothing waits.
pub(crate) fn nothing() -> Pending
    ensures { result ≡ none }
{
    Pending {
        register: 0,
        value: 0,
    }
}

// The load that waits reaches its register. Where none waits, register 0 gets the 0 that it has.
pub(crate) fn land(p: Pending, r: &mut [u32; 32])
    ensures { r.new ≡ landed p r.old }
{
    let k = (p.register % 32) as usize;
    r[k] = p.value;
}

// The same, unless the instruction loads register n: then the waiting value is dropped.
#[tactic(auto, using(std::proofs::lemmas::Bool::Decides::nat_tests), unfolding(crate::specs::Delay::landed_unless))]
pub(crate) fn land_unless(p: Pending, r: &mut [u32; 32], n: usize)
    ensures { r.new ≡ landed_unless p r.old n }
{
    let k = (p.register % 32) as usize;
    if k != n % 32 {
        r[k] = p.value;
    }
}

// A result into register n, whatever landed there before; register 0 stays 0.
pub(crate) fn write_register(r: &mut [u32; 32], n: usize, v: u32)
    ensures { r.new ≡ with_register r.old n v }
{
    r[n % 32] = v;
    r[0] = 0;
}

// What is left waiting after a load into register n: for register 0, nothing.
#[tactic(auto, using(std::proofs::lemmas::Bool::Decides::nat_tests), unfolding(crate::specs::Delay::pending_of))]
pub(crate) fn to_wait(n: usize, v: u32) -> Pending
    ensures { result ≡ pending_of n v }
{
    if n % 32 == 0 {
        nothing()
    } else {
        Pending {
            register: (n % 32) as u32,
            value: v,
        }
    }
}

// What LWL and LWR merge with: the value that waits for register n, else the register.
#[tactic(auto, using(std::proofs::lemmas::Bool::Decides::nat_tests), unfolding(crate::specs::Delay::current_of))]
pub fn current(p: Pending, r: &[u32; 32], n: usize) -> u32
    ensures { result ≡ current_of p r.now n }
{
    let k = n % 32;
    if (p.register % 32) as usize == k {
        p.value
    } else {
        r[k]
    }
}
