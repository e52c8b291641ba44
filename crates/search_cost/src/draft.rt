// A list while it is drawn.
use crate::packets::{Packets, any_field, boxy, of_protocols, thin};
use chance::Random;
use std::alloc::{AllocError, Global};

/// Packets, and the number of their outcome.
#[derive(Clone, Copy)]
pub struct Item {
    pub packets: Packets,
    pub outcome: u32,
}

#[derive(Drop)]
pub struct Draft<'a> {
    pub heap: Global,
    pub random: &'a mut Random,
    pub items: Vec<Item>,
    // How many entries the list is to have.
    pub entries: u32,
    // Which list of its family it is.
    pub turn: u32,
}

impl Draft<'_> {
    pub(crate) fn add(&mut self, packets: Packets, outcome: u32) -> Result<(), AllocError> {
        Ok(self.items.push(Item { packets, outcome })?)
    }

    pub(crate) fn add_all(&mut self, all: &[Packets], outcome: u32) -> Result<(), AllocError> {
        for packets in all {
            self.add(*packets, outcome)?;
        }
        Ok(())
    }

    // How many entries are missing until only so many are left to add.
    pub(crate) fn missing(&self, left: u32) -> usize {
        let entries = self.entries.saturating_sub(left) as usize;
        entries.saturating_sub(self.items.len())
    }

    // Thin packets in some field, all with this outcome, until so many entries are left to add.
    pub(crate) fn add_thin(&mut self, left: u32, outcome: u32) -> Result<(), AllocError> {
        for _ in 0..self.missing(left) {
            let field = any_field(self.random);
            let packets = thin(self.random, field);
            self.add(packets, outcome)?;
        }
        Ok(())
    }

    // Wide packets, likewise.
    pub(crate) fn add_boxes(&mut self, left: u32, outcome: u32) -> Result<(), AllocError> {
        for _ in 0..self.missing(left) {
            let packets = boxy(self.random);
            self.add(packets, outcome)?;
        }
        Ok(())
    }

    // Two entries that hold all packets between them.
    pub(crate) fn add_halves(&mut self) -> Result<(), AllocError> {
        self.add(of_protocols(0, 127), 1)?;
        self.add(of_protocols(128, 255), 1)
    }

    // Puts the entries in any order.
    pub(crate) fn mix(&mut self) {
        for count in 1..=self.items.len() {
            let place = self.random.below(count);
            self.items.swap(place, count - 1);
        }
    }
}
