// Runs the coding over the soundings of the paper and over damaged lists, and prints every answer and every buffer.
#![tactic(auto)]

use coding::Amount;
use coding::refusal::Refusal;
use std::io;

// Prints the number of a refusal, or 0, and the number beside it.
fn say(rt: &impl Print, answer: Result<usize, Refusal>) -> io::Result<()> {
    let Amount { refusal, amount } = answer.into();
    print!(rt; "{refusal} {amount} ")
}

// Packs numbers into a buffer of 7s that is lent up to `room`, and prints the answer and the whole buffer.
fn pack(rt: &impl Print, numbers: &[u32], room: usize) -> io::Result<()> {
    let mut buffer = [7; 64];
    let Some(lent) = buffer.get_mut(..room) else {
        return Ok(());
    };
    say(rt, coding::pack(numbers, lent))?;
    for byte in &buffer {
        print!(rt; "{byte} ")?;
    }
    print!(rt; "\n")
}

// Packs each number alone.
fn singles(rt: &impl Print, numbers: &[u32]) -> io::Result<()> {
    for number in numbers {
        pack(rt, &[*number], 64)?;
    }
    Ok(())
}

// Prints what entries 0 to 7 are, and one far beyond.
fn look_up(rt: &impl Print, list: &[u8]) -> io::Result<()> {
    for i in (0..8).chain([1 << 32]) {
        say(rt, coding::look_up(list, i).map(|n| n as usize))?;
    }
    print!(rt; "\n")
}

// Prints the ones before places 0 to 17, and before one far beyond.
fn count_ones(rt: &impl Print, section: &[u8]) -> io::Result<()> {
    for z in (0..18).chain([usize::MAX]) {
        say(rt, coding::count_ones(section, z))?;
    }
    print!(rt; "\n")
}

// A list, cut short at every place.
fn cut(rt: &impl Print, list: &[u8]) -> io::Result<()> {
    for n in 0..list.len() {
        look_up(rt, &list[..n])?;
    }
    Ok(())
}

// A list with each byte changed in three ways, and then as it was.
fn changed(rt: &impl Print, list: &mut [u8]) -> io::Result<()> {
    for i in 0..list.len() {
        let old = list[i];
        for wrong in [0, 1, 255] {
            list[i] = wrong;
            look_up(rt, list)?;
        }
        list[i] = old;
    }
    Ok(())
}

// A list of n bytes with bytes behind it, alone, cut short and changed.
fn damaged(rt: &impl Print, list: &mut [u8], n: usize) -> io::Result<()> {
    look_up(rt, list)?;
    let Some(list) = list.get_mut(..n) else {
        return Ok(());
    };
    look_up(rt, list)?;
    cut(rt, list)?;
    changed(rt, list)
}

// Sections of bits of every count from 0 to 17 over two bytes and a third, and cut short.
fn sections(rt: &impl Print) -> io::Result<()> {
    for n in 0..18 {
        let section = [n, 0, 0, 0, 181, 3, 0];
        for end in 4..8 {
            count_ones(rt, &section[..end])?;
        }
    }
    let large = [255, 255, 255, 255, 181, 3, 0];
    count_ones(rt, &large)?;
    count_ones(rt, &large[..3])
}

fn main(rt: HostRuntime) -> io::Result<()> {
    let values = [0, 255, 256, 65535, 65536, 16777215, 16777216, 4294967295];
    let few = &values[..6];
    singles(&rt, &values)?;
    for room in [64, 20, 19] {
        pack(&rt, &[], room)?;
    }
    for room in [64, 34, 33, 0] {
        pack(&rt, few, room)?;
    }
    pack(&rt, &values, 64)?;
    let mut list = [9; 64];
    let _ = coding::pack(few, &mut list);
    damaged(&rt, &mut list, 34)?;
    sections(&rt)
}
