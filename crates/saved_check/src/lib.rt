// Whether a file is a well-formed saved machine, and if not, how much of it some well-formed file begins with. Carries refusal 7 of 02,
// Ticket 3.

#![tactic(auto)]

ghost use Rattle.std.specs.Prelude.{◌≡◌, ◌+◌, ◌<◌, ◌≤◌, ◌↔◌, IfOk, IsTrue, length, slice_index};
ghost use Rattle.saved_format.specs.Tails.{Nothing, End, Pad, Ram, Geometry};
ghost use Rattle.saved_check.specs.Check.{Least, FieldAt, Judged, Checked};

// No well-formed file: the length of the longest beginning that it shares with some well-formed file.
#[derive(Clone, Copy, Debug, PartialEq, Eq)]
pub struct Malformed(pub usize);

// The least length, from low on, that has this lower byte.
fn least(low: usize, lower: usize) -> usize
    requires { (low ≤ 32768) × (lower < 256) }
    ensures { Least low lower result }
{
    low + (lower + 256 - low % 256) % 256
}

// The field of a tag, and of a content of low to high bytes, that stands at a place: the place past it, or how far the file can be read as a
// well-formed one.
#[tactic(auto, using(crate::proofs::Fronts::fronts))]
fn field_at(file: &[u8], at: usize, tag: u8, low: usize, high: usize) -> Result<usize, Malformed>
    requires { (at ≤ length file.now) × (low ≤ high) × (high ≤ 32768) }
    ensures field { FieldAt tag low high file.now at result }
    ensures within { IfOk result (λ next. (at + 3 ≤ next) × (next ≤ length file.now)) }
{
    let left = file.len() - at;
    if left == 0 {
        return Err(Malformed(at)); // the file ends
    }
    if file[at] != tag {
        return Err(Malformed(at)); // another tag
    }
    if left == 1 {
        return Err(Malformed(at + 1)); // the file ends
    }
    let lower = usize::from(file[at + 1]);
    if high < least(low, lower) {
        return Err(Malformed(at + 1)); // no length has this lower byte
    }
    if left == 2 {
        return Err(Malformed(at + 2)); // the file ends
    }
    let n = lower + usize::from(file[at + 2]) * 256;
    if !(low..=high).contains(&n) {
        return Err(Malformed(at + 2)); // too short or too long
    }
    if left - 3 < n {
        return Err(Malformed(file.len())); // the content is cut
    }
    Ok(at + 3 + n)
}

// Nothing follows the end mark.
#[tactic(auto, using(crate::proofs::Judging::judging))]
fn nothing_at(file: &[u8], at: usize) -> Result<(), Malformed>
    requires { at ≤ length file.now }
    ensures { Judged Nothing file.now at result }
{
    if at < file.len() {
        return Err(Malformed(at));
    }
    Ok(())
}

// Tag 0, of length 0, and nothing after it.
#[tactic(auto, using(crate::proofs::Judging::judging))]
fn end_at(file: &[u8], at: usize) -> Result<(), Malformed>
    requires { at ≤ length file.now }
    ensures { Judged End file.now at result }
{
    let next = field_at(file, at, 0, 0, 0)?;
    nothing_at(file, next)
}

// Tag 4, the scratch pad, and the end.
#[tactic(auto, using(crate::proofs::Judging::judging))]
fn pad_at(file: &[u8], at: usize) -> Result<(), Malformed>
    requires { at ≤ length file.now }
    ensures { Judged Pad file.now at result }
{
    let next = field_at(file, at, 4, 1024, 1024)?;
    end_at(file, next)
}

// Whether a block follows the block from at to next: that one is full, and a tag 3 stands after it.
fn another(file: &[u8], at: usize, next: usize) -> bool
    requires { at + 3 ≤ next }
    ensures { IsTrue result ↔ (next ≡ at + 32771) × (slice_index file.now next ≡ 3) }
{
    next - at == 32771 && next < file.len() && file[next] == 3
}

// Tag 3, the blocks of RAM, and what follows them. No `for`: where the next block begins is known only behind the field before it.
#[tactic(auto, using(crate::proofs::Judging::judging))]
fn ram_at(file: &[u8], from: usize) -> Result<(), Malformed>
    requires { from ≤ length file.now }
    ensures { Judged Ram file.now from result }
{
    let mut at = from;
    loop {
        let next = field_at(file, at, 3, 1, 32768)?;
        if !another(file, at, next) {
            return pad_at(file, next);
        }
        at = next;
    }
}

// Tag 2, the COP2 words, and what follows them.
#[tactic(auto, using(crate::proofs::Judging::judging))]
fn geometry_at(file: &[u8], at: usize) -> Result<(), Malformed>
    requires { at ≤ length file.now }
    ensures { Judged Geometry file.now at result }
{
    let next = field_at(file, at, 2, 256, 256)?;
    ram_at(file, next)
}

// The whole file, from tag 1 on.
#[tactic(auto, using(crate::proofs::Judging::judging))]
pub fn check(file: &[u8]) -> Result<(), Malformed>
    ensures { Checked file.now result }
{
    let next = field_at(file, 0, 1, 176, 176)?;
    geometry_at(file, next)
}
