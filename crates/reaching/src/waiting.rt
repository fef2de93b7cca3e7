// What waits in a search.

ghost use Rattle.std.specs.Prelude.{◌≡◌, ◌≤◌, length};

// The first `size` places of `edges` hold the edges that wait, those of `from` the places from which each was reached, and `seen` has a
// word for each forest, in which bit j says that the edge in slot j has come to wait.
// (Two arrays and not one of pairs: the edges of a path have one `from` and are put in order in `edges` alone; `HoldsWaiting` names both lists.)
#[derive(Clone, Copy)]
pub struct Queue {
    pub edges: [u16; 379],
    pub from: [u16; 379],
    pub seen: [u64; 6],
    pub size: usize,
    ghost edges_long: { length edges ≡ 379 },
    ghost from_long: { length from ≡ 379 },
    ghost seen_long: { length seen ≡ 6 },
    ghost few: { size ≤ 379 },
}

impl Queue {
    ghost use Rattle.reaching.specs.Queues.{IsEmpty};

    // Nothing waits.
    pub fn new() -> Queue
        ensures { IsEmpty result }
    {
        Queue {
            edges: [0; 379],
            from: [0; 379],
            seen: [0; 6],
            size: 0,
        }
    }
}
