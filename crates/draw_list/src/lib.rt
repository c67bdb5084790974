// Whether a list of graphics words is whole packets, and if not, at which word the first that is none begins. Carries 02, Ticket 10.

#![tactic(auto)]

ghost use Rattle.std.specs.Prelude.{◌≡◌, ◌+◌, ◌/◌, ◌<◌, ◌≤◌, length, drop, slice_index};
ghost use Rattle.answer.specs.Codes.{answer_of};
ghost use Rattle.draw_list.specs.Packets.{told_by, Answered};
ghost use Rattle.draw_list.specs.Widths.{fixed_widths, points_of, behind_packet, behind_line, refusal_of};

use answer::{Answer, Refusal};

// The words of a packet by the top byte of its first word; 0 for a polyline and for an unknown byte. It is a table in memory, since
// a branch for each byte is foreseen badly where packets of many kinds follow one another; bytes and no options, so that it is small.
fn fixed_widths() -> [u8; 256]
    ensures { result ≡ fixed_widths }
{
    let mut w = [0; 256];
    w[0x20] = 4;
    w[0x24] = 7;
    w[0x28] = 5;
    w[0x2c] = 9;
    w[0x30] = 6;
    w[0x34] = 9;
    w[0x38] = 8;
    w[0x3c] = 12;
    w[0x40] = 3;
    w[0x50] = 4;
    w[0x60] = 3;
    w[0x64] = 4;
    w[0x68] = 2;
    w[0x70] = 2;
    w[0x74] = 3;
    w[0x78] = 2;
    w[0x7c] = 3;
    w
}

// The place of the first 55555555h from a place on; the list's end where there is none. With `position` in place of this loop the list took
// two fifths more instructions for each point of a long polyline.
fn stop_from(words: &[u32], from: usize) -> usize
    requires { from ≤ length words.now }
    ensures { result ≡ from + points_of (drop from words.now) }
{
    for i in from..words.len() {
        if words[i] == 0x5555_5555 {
            return i;
        }
    }
    words.len()
}

// The top byte of a word.
fn top_of(word: u32) -> usize
    ensures value { result ≡ word / 0x100_0000 }
    ensures small { result < 256 }
{
    (word / 0x100_0000) as usize
}

// The place behind the polyline that begins at a place, unless it is cut short or has too few points.
#[tactic(auto, using(crate::proofs::Widths::lines))]
fn behind_line(words: &[u32], at: usize) -> Option<usize>
    requires { at < length words.now }
    ensures { result ≡ behind_line words.now at }
{
    if words.len() - at < 4 {
        return None;
    }
    // The two points that each has are tried apart: most polylines are short, and a loop that ends soon is slow.
    if words[at + 1] == 0x5555_5555 || words[at + 2] == 0x5555_5555 {
        return None;
    }
    let stop = stop_from(words, at + 3);
    if stop < words.len() {
        Some(stop + 1)
    } else {
        None
    }
}

// The place behind the packet that begins at a place, if one does.
#[tactic(auto, using(crate::proofs::Widths::begun))]
fn behind_packet(fixed: &[u8; 256], words: &[u32], at: usize) -> Option<usize>
    requires { (fixed.now ≡ fixed_widths) × (at < length words.now) }
    ensures { result ≡ behind_packet words.now at }
{
    let top = top_of(words[at]);
    if top == 0x48 {
        return behind_line(words, at);
    }
    let n = usize::from(fixed[top]);
    if n == 0 || words.len() - at < n {
        return None;
    }
    Some(at + n)
}

// Why no packet begins at a place, by the top byte of the word there.
#[tactic(auto, using(crate::proofs::Widths::refusals))]
fn refusal(fixed: &[u8; 256], words: &[u32], at: usize) -> Refusal
    requires { (fixed.now ≡ fixed_widths) × (at < length words.now) }
    ensures { result ≡ refusal_of (told_by (slice_index words.now at)) at }
{
    let top = top_of(words[at]);
    if top != 0x48 && fixed[top] == 0 {
        Refusal::UnknownPacket(at as u64)
    } else {
        Refusal::CutPacket(at as u64)
    }
}

// How many packets the whole list is. Where a packet ends is known only from its own words, so that there is nothing for a `for` to go through.
#[tactic(auto, using(crate::proofs::Splits::reading))]
fn packets(words: &[u32]) -> Result<u64, Refusal>
    ensures { let a = answer_of result in Answered words.now a.code a.number }
{
    let fixed = fixed_widths();
    let mut at = 0;
    let mut count = 0;
    while at < words.len() {
        let Some(next) = behind_packet(&fixed, words, at) else {
            return Err(refusal(&fixed, words, at));
        };
        at = next;
        count += 1;
    }
    Ok(count)
}

// The whole list, packet by packet.
pub fn check_list(words: &[u32]) -> Answer
    ensures { Answered words.now result.code result.number }
{
    Answer::from(packets(words))
}
