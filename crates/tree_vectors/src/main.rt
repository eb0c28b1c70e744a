// Runs cases from outside: a line has the arguments of a writing or of an opening, and what comes of it is printed.
// A buffer that is written holds a5 in each byte before; what is shown of it is what was written, and two bytes behind.
#![tactic(auto)]

mod cells;
mod text;

use anyhow::anyhow;
use board::refusal::Refusal;
use cells::cells_of;
use std::alloc::Global;
use std::io::{BufRead, BufReader};
use text::{bytes_of, hex_of, list, numbers_of};
use tree::reader::Tree;
use tree::writer::write;

// What a refusal prints.
fn refused<F: Refusal>(heap: Global, fault: &F) -> anyhow::Result<String> {
    Ok(format!(in heap; "refused {}", fault.numbered())?)
}

// The bytes that so many bits take, and at most two more.
fn shown(bytes: &[u8], bits: usize) -> &[u8] {
    let end = bits.div_ceil(8).saturating_add(2);
    &bytes[0..end.min(bytes.len())]
}

// A writing: height, codes, bytes of T, bytes of L.
fn written(
    heap: Global,
    height: &str,
    codes: &str,
    t_bytes: &str,
    l_bytes: &str,
) -> anyhow::Result<String> {
    let codes = numbers_of(heap, codes)?;
    let mut t = vec![in heap; 0xa5u8; t_bytes.parse::<usize>()?]?;
    let mut l = vec![in heap; 0xa5u8; l_bytes.parse::<usize>()?]?;
    match write(
        codes.as_slice(),
        height.parse::<u8>()?,
        t.as_mut_slice(),
        l.as_mut_slice(),
    ) {
        Ok((t_bits, l_bits)) => {
            let t = hex_of(heap, shown(t.as_slice(), t_bits))?;
            let l = hex_of(heap, shown(l.as_slice(), l_bits))?;
            Ok(format!(in heap; "{t_bits} {t} {l_bits} {l}")?)
        }
        Err(fault) => refused(heap, &fault),
    }
}

// An opening: height, bits of T, T, bits of L, L, counts.
fn opened(
    heap: Global,
    height: u8,
    t_bits: usize,
    t: &str,
    l_bits: usize,
    l: &str,
    counts: &str,
) -> anyhow::Result<String> {
    let t = bytes_of(heap, t)?;
    let l = bytes_of(heap, l)?;
    let counts = numbers_of(heap, counts)?;
    let mut tree = Tree::empty();
    match tree.open(
        height,
        t.as_slice(),
        t_bits,
        l.as_slice(),
        l_bits,
        counts.as_slice(),
    ) {
        Ok(()) => {
            let codes = list(heap, cells_of(heap, &tree)?.as_slice())?;
            Ok(format!(in heap; "cells {codes}")?)
        }
        Err(fault) => refused(heap, &fault),
    }
}

// One line, its fields parted by tabs.
fn answer(heap: Global, line: &str) -> anyhow::Result<String> {
    let fields = line.split('\t').collect::<Vec<&str>>(heap)?;
    match fields.as_slice() {
        ["write", height, codes, t_bytes, l_bytes] => written(
            heap, height, codes, t_bytes, l_bytes,
        ),
        ["open", height, t_bits, t, l_bits, l, counts] => {
            opened(
                heap,
                height.parse::<u8>()?,
                t_bits.parse::<usize>()?,
                t,
                l_bits.parse::<usize>()?,
                l,
                counts,
            )
        }
        _ => Err(anyhow!("a line is neither a writing nor an opening")),
    }
}

fn run(rt: &HostRuntime) -> anyhow::Result<()> {
    let heap = rt.alloc();
    for line in BufReader::new(heap, rt.stdin())?.lines(heap) {
        rt.println(answer(heap, line?.as_str())?)?;
    }
    Ok(())
}

fn main(rt: HostRuntime) -> anyhow::Result<()> {
    run(&rt)
}
