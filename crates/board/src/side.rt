// The two sides of a comparison.
#[derive(Clone, Copy, PartialEq, Eq, Debug)]
pub enum Side {
    // A, the scanned film
    Film,
    // B, the drawing
    Drawing,
}
