// Runs the worked examples of 01 that are not marked P, and those of extend that are, and prints each answer. Volume V is read from standard input.
#![tactic(auto)]

ghost use Rattle.std.specs.Io.{ReadsAtMost};

use ods1::changes::{ods1_create, ods1_delete, ods1_extend};
use ods1::directories::{ods1_look_up, ods1_next_record};
use ods1::file_blocks::{ods1_block, ods1_map, ods1_open_file};
use ods1::verdicts::ods1_judge;
use ods1::volumes::ods1_open_volume;
use std::io;
use std::io::Read;
use volume::map_blocks;

// Reads until the buffer is full or the input ends, and returns how many bytes it put at the buffer's start.
// Written by hand: std's `read_exact` calls a short input an error, and `read_to_end` needs a heap.
fn fill(input: &mut impl Read, buffer: &mut [u8]) -> io::Result<usize>
    ensures { ReadsAtMost result buffer.new }
{
    let mut filled = 0;
    while filled < buffer.len() {
        let n = input.read(&mut buffer[filled..])?;
        if n == 0 {
            break;
        }
        filled += n;
    }
    Ok(filled)
}

// Writes an answer: its number, its place and its value words, of which no call uses more than nine.
fn show(rt: &impl Print, answer: &[u64; 12]) -> io::Result<()> {
    print!(rt; ": answer {} place {} value", answer[0], answer[1])?;
    for word in &answer[2..11] {
        print!(rt; " {word}")?;
    }
    println!(rt; "")
}

fn open_volume(rt: &impl Print, image: &[u8]) -> io::Result<()> {
    let mut answer = [0u64; 12];
    ods1_open_volume(image, &mut answer);
    print!(rt; "open volume")?;
    show(rt, &answer)
}

fn open_file(rt: &impl Print, image: &[u8], number: u16, sequence: u16) -> io::Result<()> {
    let mut answer = [0u64; 12];
    ods1_open_file(image, number, sequence, 0, &mut answer);
    print!(rt; "open file {number},{sequence},0")?;
    show(rt, &answer)
}

fn map(rt: &impl Print, image: &[u8], number: u16, sequence: u16, vbn: u32) -> io::Result<()> {
    let mut answer = [0u64; 12];
    ods1_map(image, number, sequence, 0, vbn, &mut answer);
    print!(rt; "map {number},{sequence},0 VBN {vbn}")?;
    show(rt, &answer)
}

fn block(rt: &impl Print, image: &[u8], number: u16, sequence: u16, vbn: u32) -> io::Result<()> {
    let mut answer = [0u64; 12];
    ods1_block(image, number, sequence, 0, vbn, &mut answer);
    print!(rt; "block {number},{sequence},0 VBN {vbn}")?;
    show(rt, &answer)
}

// Looks READS.DAT;1 up in the directory 4,4.
fn look_up(rt: &impl Print, image: &[u8]) -> io::Result<()> {
    let mut answer = [0u64; 12];
    ods1_look_up(image, 4, 4, 0, 29001, 7160, 0, 6460, 1, &mut answer);
    print!(rt; "look up READS.DAT;1 in 4,4,0")?;
    show(rt, &answer)
}

fn next_record(rt: &impl Print, image: &[u8], place: u32) -> io::Result<()> {
    let mut answer = [0u64; 12];
    ods1_next_record(image, 4, 4, 0, place, &mut answer);
    print!(rt; "next record in 4,4,0 from {place}")?;
    show(rt, &answer)
}

fn storage_map_of(rt: &impl Print, blocks: u32) -> io::Result<()> {
    println!(rt; "q at N {blocks}: {}", map_blocks(blocks))
}

// What each header of Volume V covers, from its first to its last VBN.
fn covers(rt: &impl Print, image: &[u8]) -> io::Result<()> {
    open_file(rt, image, 1, 1)?;
    map(rt, image, 1, 1, 1)?;
    map(rt, image, 1, 1, 19)?;
    open_file(rt, image, 2, 2)?;
    map(rt, image, 2, 2, 1)?;
    map(rt, image, 2, 2, 2)?;
    open_file(rt, image, 3, 3)?;
    map(rt, image, 3, 3, 1)?;
    open_file(rt, image, 4, 4)?;
    map(rt, image, 4, 4, 1)?;
    open_file(rt, image, 5, 5)?;
    map(rt, image, 5, 5, 1)?;
    open_file(rt, image, 6, 9)?;
    map(rt, image, 6, 9, 1)?;
    block(rt, image, 6, 9, 3)
}

fn directory(rt: &impl Print, image: &[u8]) -> io::Result<()> {
    look_up(rt, image)?;
    next_record(rt, image, 0)?;
    next_record(rt, image, 1)
}

// Extends a file, with work areas of 100 and 16 bytes: as many as Volume V has blocks and file numbers.
fn extend(
    rt: &impl Print,
    image: &mut [u8],
    number: u16,
    sequence: u16,
    count: u32,
) -> io::Result<()> {
    let mut answer = [0u64; 12];
    let mut blocks = [0u8; 100];
    let mut headers = [0u8; 16];
    ods1_extend(
        image,
        number,
        sequence,
        0,
        count,
        &mut blocks,
        &mut headers,
        &mut answer,
    );
    print!(rt; "extend {number},{sequence},0 by {count}")?;
    show(rt, &answer)
}

// Creates READS.DAT;2, with owner and protection 0.
fn create(rt: &impl Print, image: &mut [u8]) -> io::Result<()> {
    let mut answer = [0u64; 12];
    let mut blocks = [0u8; 100];
    let mut headers = [0u8; 16];
    ods1_create(
        image,
        29001,
        7160,
        0,
        6460,
        2,
        0,
        0,
        &mut blocks,
        &mut headers,
        &mut answer,
    );
    print!(rt; "create READS.DAT;2")?;
    show(rt, &answer)
}

fn delete(rt: &impl Print, image: &mut [u8], number: u16, sequence: u16) -> io::Result<()> {
    let mut answer = [0u64; 12];
    let mut blocks = [0u8; 100];
    let mut headers = [0u8; 16];
    ods1_delete(
        image,
        number,
        sequence,
        0,
        &mut blocks,
        &mut headers,
        &mut answer,
    );
    print!(rt; "delete {number},{sequence},0")?;
    show(rt, &answer)
}

fn judge(rt: &impl Print, image: &[u8]) -> io::Result<()> {
    let mut answer = [0u64; 12];
    let mut blocks = [0u8; 100];
    let mut headers = [0u8; 16];
    ods1_judge(image, &mut blocks, &mut headers, &mut answer);
    print!(rt; "judge")?;
    show(rt, &answer)
}

// Extends 6,9 and tells what it then has.
fn extend_and_judge(rt: &impl Print, image: &mut [u8], count: u32) -> io::Result<()> {
    extend(rt, image, 6, 9, count)?;
    open_file(rt, image, 6, 9)?;
    map(rt, image, 6, 9, 4)?;
    judge(rt, image)
}

// The user's story: 6,9 is deleted and its number used again, and the old entry still names 6,9.
fn old_entry(rt: &impl Print, image: &mut [u8]) -> io::Result<()> {
    delete(rt, image, 6, 9)?;
    open_file(rt, image, 6, 9)?;
    create(rt, image)?;
    look_up(rt, image)?;
    open_file(rt, image, 6, 9)?;
    open_file(rt, image, 6, 10)?;
    extend(rt, image, 6, 9, 1)?;
    delete(rt, image, 6, 9)?;
    judge(rt, image)
}

fn main(rt: HostRuntime) -> io::Result<()> {
    let mut image = [0u8; 51200];
    let n = fill(&mut rt.stdin(), &mut image)?;
    println!(rt; "bytes {n}")?;
    open_volume(&rt, &image)?;
    covers(&rt, &image)?;
    directory(&rt, &image)?;
    let mut by4 = image;
    extend_and_judge(&rt, &mut by4, 4)?;
    let mut by67 = image;
    extend_and_judge(&rt, &mut by67, 67)?;
    let mut by68 = image;
    extend_and_judge(&rt, &mut by68, 68)?;
    let mut created = image;
    create(&rt, &mut created)?;
    open_file(&rt, &created, 7, 1)?;
    judge(&rt, &created)?;
    old_entry(&rt, &mut image)?;
    storage_map_of(&rt, 516096)?;
    storage_map_of(&rt, 1044480)
}
