// Why bits of FLAG are set: the rows of a command on an image, over lent words. Carries 02, Ticket 5.

#![tactic(auto)]

ghost use Rattle.std.specs.Prelude.{◌≡◌, ◌+◌, ◌≤◌, length};
ghost use Rattle.gte_rows.specs.Rows.{words_of, PartsWhole};
ghost use Rattle.gte_rows.specs.Listing.{listing, listed, Adds};
ghost use Rattle.gte_causes.specs.Causes.{parts_at, rows_at};
ghost use Rattle.answer.specs.Codes.{answer_of};
ghost use Rattle.causes.specs.Causes.{answered_as, fitting, Causes};

use answer::{Answer, Refusal};
use gte::is_listed;
use gte_causes::commands::list_bit;
use gte_rows::rows::{Rows, Wanted};
use image::admission::read_geometry;

// The rows of bits 30 down to 12.
fn list_bits(rows: &mut Rows<'_>, c: &[u32; 64], word: u32)
    requires { rows.old.count + 11115 ≤ 65536 }
    ensures is { Adds (rows_at word c.now) (listed rows.old) (listed rows.new) }
    ensures whole { PartsWhole (parts_at word c.now) }
    ensures small { rows.new.count ≤ rows.old.count + 11115 }
    ensures words { rows.new.out.ghost_name ≡ rows.old.out.ghost_name }
{
    for bit in (12..31).rev() {
        rows.wanted.bit = bit;
        list_bit(rows, c, word);
    }
}

// The same over lent words. The words needed are answered, whether they are there or not.
fn list_rows(out: &mut [u32], c: &[u32; 64], word: u32) -> usize
    ensures is { Adds (rows_at word c.now) (listing 0 out.old) (listing result out.new) }
    ensures whole { PartsWhole (parts_at word c.now) }
    ensures small { result ≤ 11115 }
{
    let mut rows = Rows {
        out,
        count: 0,
        wanted: Wanted { bit: 30, part: 1 },
    };
    list_bits(&mut rows, c, word);
    rows.count
}

// How many words the rows need: the same over a space in which no row fits.
fn count_words(c: &[u32; 64], word: u32) -> usize
    ensures is { result ≡ length (words_of (rows_at word c.now)) }
    ensures whole { PartsWhole (parts_at word c.now) }
    ensures small { result ≤ 11115 }
{
    list_rows(&mut [0u32; 1], c, word)
}

// The rows where they all fit, and else nothing.
fn list_fitting(words: &mut [u32], c: &[u32; 64], word: u32) -> Result<u64, Refusal>
    ensures is { answered_as result words.new ≡ fitting (words_of (rows_at word c.now)) words.old }
    ensures whole { PartsWhole (parts_at word c.now) }
{
    let n = count_words(c, word);
    if words.len() < n {
        return Err(Refusal::Space(n as u64));
    }
    list_rows(words, c, word);
    Ok(n as u64)
}

// Refused for the image, then for the command, then for the space. The image is only read.
fn listed_causes(image: &[u8], word: u32, words: &mut [u32]) -> Result<u64, Refusal>
    ensures { Causes image.now word words.old (answer_of result) words.new }
{
    let mut g = [0u32; 64];
    read_geometry(image, &mut g)?;
    if !is_listed(word) {
        return Err(Refusal::Command);
    }
    list_fitting(words, &g, word)
}

// The question: codes 1, 2, 5 and 8 in this order.
pub fn list_causes(image: &[u8], word: u32, words: &mut [u32]) -> Answer
    ensures { Causes image.now word words.old result words.new }
{
    Answer::from(listed_causes(image, word, words))
}
