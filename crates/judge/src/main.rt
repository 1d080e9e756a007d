// The judging program: reads an image of at most 65,536 bytes from standard input and prints the verdict on it.
#![tactic(auto)]

ghost use Rattle.std.specs.Io.{ReadsAtMost};

use answer::refusal::{number_of, place_of};
use std::io;
use std::io::Read;
use verdict::judge;

// Reads until the buffer is full or the input ends, and returns how many bytes it put at the buffer's start.
// Written by hand: std's `read_exact` calls a short input an error, and `read_to_end` needs a heap.
fn fill(input: &mut impl Read, buffer: &mut [u8]) -> io::Result<usize>
    ensures { ReadsAtMost result buffer.new }
{
    let mut filled = 0;
    while filled < buffer.len() {
        let n = input.read(&mut buffer[filled..])?;
        if n == 0 {
            break;
        }
        filled += n;
    }
    Ok(filled)
}

// Writes the verdict on an image, with room for 128 block marks, as many as 65,536 bytes have blocks, and 4,096 header marks.
fn report(rt: &impl Print, image: &[u8]) -> io::Result<()> {
    let mut blocks = [0u8; 128];
    let mut headers = [0u8; 4096];
    match judge(image, &mut blocks, &mut headers) {
        Ok(c) => {
            println!(rt; "answer 0 DONE place 0")?;
            println!(rt; "blocks {}", c.blocks)?;
            println!(rt; "claimed {}", c.claimed)?;
            println!(rt; "free {}", c.free)?;
            println!(rt; "headers {}", c.headers)
        }
        Err(r) => println!(rt; "answer {} {r} place {}", number_of(r), place_of(r)),
    }
}

// One byte more than an image may have is read: 65,537 bytes are no whole blocks, so that longer input is SIZE.
fn main(rt: HostRuntime) -> io::Result<()> {
    let mut image = [0u8; 65537];
    let n = fill(&mut rt.stdin(), &mut image)?;
    report(&rt, &image[..n])
}
