// The bytes of an image, and the machine that they describe.
ghost use Rattle.std.specs.Prelude.{◌≡◌, ◌++◌, length};
ghost use Rattle.byte_order.specs.Bytes.{bytes_of};
ghost use Rattle.gte_registers.specs.Registers.{view};
ghost use Rattle.image.specs.Image.{control_of, control_words};

use byte_order::write_words;
use cpu_alu::mul_div::HiLo;
use cpu_state::control::{Control, Flow, Pending, System};
use gte_registers::view::reads_of;

// The control state of words 32..43.
pub(crate) fn control_from(w: &[u32; 12]) -> Control
    ensures { result ≡ control_of w.now }
{
    Control {
        flow: Flow {
            pc: w[2],
            next: w[3],
            slot: w[6],
        },
        pending: Pending {
            register: w[4],
            value: w[5],
        },
        system: System {
            sr: w[7],
            cause: w[8],
            epc: w[9],
            badv: w[10],
        },
        product: HiLo { hi: w[0], lo: w[1] },
    }
}

// Words 32..43 of a control state.
fn control_words(c: Control) -> [u32; 12]
    ensures { result ≡ control_words c }
{
    [
        c.product.hi,
        c.product.lo,
        c.flow.pc,
        c.flow.next,
        c.pending.register,
        c.pending.value,
        c.flow.slot,
        c.system.sr,
        c.system.cause,
        c.system.epc,
        c.system.badv,
        0,
    ]
}

// The image of a machine.
pub fn write_image(m: &mut [u8], c: Control, registers: &[u32; 32], g: &[u32; 64])
    requires { length m.old ≡ 432 }
    ensures { m.new ≡ bytes_of (registers.now ++ (control_words c ++ view g.now)) }
{
    write_words(m, 0, registers);
    write_words(m, 128, &control_words(c));
    write_words(m, 176, &reads_of(g));
}
