// Edges in lists, into which a text is read.
ghost use Rattle.std.specs.Prelude.{◌≡◌, length, replicate};

// Edge i, counted from 0, stands at index i of each list: its two bodies and its colour. There is room for the edges of a book.
// Three lists and not one of edges: `EdgeLists`, `EdgesEntered` and `edges_in` of specs/EdgeLists.antt, of which theorems speak, are of three.
#[derive(Clone, Copy)]
pub struct Edges {
    pub ones: [u8; 512],
    pub others: [u8; 512],
    pub colours: [u8; 512],
    ghost ones_long: { length ones ≡ 512 },
    ghost others_long: { length others ≡ 512 },
    ghost colours_long: { length colours ≡ 512 },
}

impl Edges {
    // Lists of zeros.
    pub fn new() -> Edges
        ensures { (result.ones ≡ replicate 512 0) × (result.others ≡ replicate 512 0) × (result.colours ≡ replicate 512 0) }
    {
        Edges {
            ones: [0; 512],
            others: [0; 512],
            colours: [0; 512],
        }
    }
}
