// Writes, opens and reads back sets of cells at every height, and flips each bit of their bitmaps: each flip is refused or gives another set.
#![tactic(auto)]

mod trial;

use samples::dice::Dice;
use samples::lists::in_order;
use std::alloc::{AllocError, Global};
use trial::{Totals, try_set};

// The last code below 4 ^ height; the height is taken as 1 to 16.
fn last_code(height: u8) -> u32 {
    u32::MAX >> (32 - 2 * height.clamp(1, 16))
}

// So many codes below 4 ^ height, in order, some perhaps the same and then left out.
fn random_codes(
    heap: Global,
    dice: &mut Dice,
    height: u8,
    count: u32,
) -> Result<Vec<u32>, AllocError> {
    let codes = (0..count).map(|_| dice.roll() & last_code(height));
    Ok(in_order(codes.collect(heap)?))
}

// The sets of one height: none, two corners, random ones, and the whole square where it is small.
fn try_height(
    heap: Global,
    dice: &mut Dice,
    height: u8,
    totals: &mut Totals,
) -> anyhow::Result<()> {
    try_set(heap, &[], height, totals)?;
    try_set(heap, &[0, last_code(height)], height, totals)?;
    for count in 1..13 {
        let codes = random_codes(heap, dice, height, count)?;
        try_set(heap, codes.as_slice(), height, totals)?;
    }
    if height <= 3 {
        let codes: Vec<u32> = (0..=last_code(height)).collect(heap)?;
        try_set(heap, codes.as_slice(), height, totals)?;
    }
    Ok(())
}

fn run(rt: &HostRuntime) -> anyhow::Result<()> {
    let mut dice = Dice { state: 1 };
    let mut totals = Totals::default();
    for height in 1..17 {
        try_height(rt.alloc(), &mut dice, height, &mut totals)?;
    }
    let Totals {
        sets,
        read_back,
        flips,
        refused,
        others,
    } = totals;
    println!(rt; "sets {sets}, read back {read_back}")?;
    println!(rt; "flips {flips}, refused {refused}, other sets {others}")?;
    Ok(())
}

fn main(rt: HostRuntime) -> anyhow::Result<()> {
    run(&rt)
}
