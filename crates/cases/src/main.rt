// Runs worked examples of the GTE, of steps, of runs, of windows, of causes, of saved machines and of draw lists through the code, and
// compares. Carries the rows of 01 "Figures from the bench" that are not starred.
// Standard input has lines of 20 bytes: a letter, and two numbers of 8 hexadecimal digits (or, after `n`, a name).
//   n  a case begins: registers of zeros; an image that is fresh (zeros, but next PC 4 and COP2 register 31, which is 32), of 432
//      bytes; RAM of zeros, 4096 bytes; a pad of zeros, 1024 bytes; a file of EEh, 36,000 bytes
//   g  a COP2 register, and the word to write       w  a word of the image, and its value     s  a run: the count's low word
//   c  a command word, and its outcome (0 done,     m  an address in RAM, and its word        f  a search: the count, the mask
//      1 not listed)                                i  the image's length                     v  a window: the address, the length
//   x  a COP2 register, and what a read returns     l  the RAM's length                       a  what the last of these answered:
//                                                   h  the count's high word                     high word, low word
//   r  a word of the image, and what it is to be    q  an address in RAM, and what its word is to be
//   d  a place in the pad, and its word             t  a place in the pad, and what its word is to be
//   j  the pad's length
//   k  the last run, search, save or load has changed no byte of image, RAM, pad and file
//   p  a window as bytes: the address, the length; it answers the length, and the last byte by 256 plus the first
//   e  the causes of a command word on the image, and how many words are lent, at most 600: it answers code and number, and RAM then
//      begins with 600 words, the lent ones and others behind, each EEEEEEEEh where nothing was written
//   o  a save with so many bytes of the file for its space: it answers code and number
//   u  a load of so many bytes of the file: it answers code and number
//   z  a check of so many words at the beginning of RAM, at most 600, as a draw list: it answers code and number
//   b  a place in the file, and its byte            y  a place in the file, and what the word there is to be

#![tactic(auto)]

mod buffer;
mod case;
mod line;
mod machine;
mod tally;

use crate::buffer::Buffer;
use crate::case::Case;
use crate::line::{LENGTH, Line};
use crate::machine::RAM;
use std::io;
use std::io::Read;

// How many bytes are read at once, a whole number of lines, and how often.
const BLOCK: usize = 3276 * LENGTH;

const BLOCKS: usize = 16;

// Reads until the block is full or the input ends, and returns what was read.
fn read_block<'a>(input: &mut impl Read, block: &'a mut [u8; BLOCK]) -> io::Result<&'a [u8]> {
    let n = io::copy(&mut input.take(BLOCK as u64), &mut block.as_mut_slice())? as usize;
    Ok(&block[..n.min(BLOCK)])
}

// Reads block after block, and carries out their lines. By blocks and not by lines: of a block that can't be read no line is carried out, and
// input behind the last block is not read.
fn follow_all(rt: &(impl Print + Input), case: &mut Case) -> io::Result<()> {
    let mut input = rt.reader();
    let mut block = [0; BLOCK];
    for _ in 0..BLOCKS {
        let (lines, rest) = read_block(&mut input, &mut block)?.as_chunks();
        for text in lines {
            case.follow(rt, &Line::new(text))?;
        }
        if !rest.is_empty() {
            print!(rt; "\nthe input ends inside a line")?;
        }
    }
    Ok(())
}

// A read or a write that fails ends the program with its error.
fn main(rt: HostRuntime) -> io::Result<()> {
    let mut ram = Buffer {
        bytes: [0; RAM],
        lent: 0,
    };
    let mut case = Case::new(&mut ram);
    follow_all(&rt, &mut case)?;
    case.tally.end_case(&rt)?;
    rt.println(&case.tally)
}
