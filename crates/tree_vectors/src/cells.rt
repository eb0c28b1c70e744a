// The cells of a store, in order, found by asking for squares.
use board::square::{PARTS, Square};
use std::alloc::{AllocError, Global};
use store::store::{Answer, Store};
use tree::reader::Tree;

fn add_cells(tree: &Tree, square: Square, cells: &mut Vec<u32>) -> Result<(), AllocError> {
    if tree.query(square) == Answer::Empty {
        return Ok(());
    }
    if square.level == 0 {
        cells.push(square.number)?;
        return Ok(());
    }
    for k in 0..PARTS {
        if let Some(quarter) = square.quarter(k) {
            add_cells(tree, quarter, cells)?;
        }
    }
    Ok(())
}

pub(crate) fn cells_of(heap: Global, tree: &Tree) -> Result<Vec<u32>, AllocError> {
    let mut cells = Vec::new(heap);
    add_cells(tree, Square::BOARD, &mut cells)?;
    Ok(cells)
}
