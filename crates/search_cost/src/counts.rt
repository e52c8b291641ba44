// What is counted while a search goes on.
use std::cell::Cell;

/// Counted so far.
#[derive(Drop)]
pub struct Counts {
    // Looks at a region.
    pub looks: Cell<u64>,
    // Entry tests: how a looked-at region lies to an entry.
    pub tests: Cell<u64>,
    // How regions lie to each other, wherever that is asked.
    pub relations: Cell<u64>,
    pub separations: Cell<u64>,
    pub splits: Cell<u64>,
}

// Counts so many more.
pub(crate) fn add(counter: &Cell<u64>, more: u64) {
    counter.set(counter.get().saturating_add(more));
}

impl Counts {
    pub(crate) fn new() -> Counts {
        Counts {
            looks: Cell::new(0),
            tests: Cell::new(0),
            relations: Cell::new(0),
            separations: Cell::new(0),
            splits: Cell::new(0),
        }
    }
}
