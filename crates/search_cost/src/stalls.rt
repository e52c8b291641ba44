// Two lists on which a search that cuts along every entry that it meets takes minutes and seconds: thin packets
// in each field in turn, of which two entries behind them hold all.
use crate::draft::Draft;
use crate::packets::{FIELDS, Field, thin, whole};
use std::alloc::AllocError;

impl Draft<'_> {
    // So many thin packets, and two entries that hold all packets.
    fn slabs_and_halves(&mut self, slabs: usize) -> Result<(), AllocError> {
        for slab in 0..slabs {
            let field = FIELDS.get(slab % 5).copied().unwrap_or(Field::Source);
            let packets = thin(self.random, field);
            self.add(packets, 1)?;
        }
        self.add_halves()
    }

    // 120 of them, and all packets behind the two entries, which they never get to.
    pub(crate) fn draw_covered(&mut self) -> Result<(), AllocError> {
        self.slabs_and_halves(120)?;
        self.add(whole(), 0)
    }

    // 20 of them, and nothing behind the two entries.
    pub(crate) fn draw_matched(&mut self) -> Result<(), AllocError> {
        self.slabs_and_halves(20)
    }
}
