// What stands, in a tree: the first property that is misplaced, and the first that is broken.
use crate::judge::parts::PlainProperty;
use crate::judge::plain_tree::PlainTree;
use crate::judge::route::Entered;
use std::alloc::{AllocError, Global};

impl PlainTree {
    // The first firewall on the route of a property at which some packet breaks it.
    pub(crate) fn first_break(
        &self,
        heap: Global,
        property: &PlainProperty,
    ) -> Result<Option<Entered>, AllocError> {
        let route = self.route(heap, property.from, property.to)?;
        Ok(
            route
                .iter()
                .copied()
                .find(|entered| self.breaks_at(property, *entered)),
        )
    }

    // The first standing property that some packet breaks, with where it does first.
    pub(crate) fn first_broken(
        &self,
        heap: Global,
    ) -> Result<Option<(usize, Entered)>, AllocError> {
        for (number, property) in self.properties.iter().enumerate() {
            if let Some(entered) = self.first_break(heap, property)? {
                return Ok(Some((number, entered)));
            }
        }
        Ok(None)
    }

    // The first standing property with an address astray, and those addresses.
    pub(crate) fn first_misplaced(&self) -> Option<(usize, u128)> {
        self.properties
            .iter()
            .map(|property| self.astray(property))
            .enumerate()
            .find(|(_, astray)| *astray != 0)
    }

    // Whether every standing property is well placed, and no packet breaks it.
    pub(crate) fn is_guarded(&self, heap: Global) -> Result<bool, AllocError> {
        let joined = !self
            .properties
            .iter()
            .any(|property| self.is_misjoined(property));
        Ok(joined && self.first_misplaced().is_none() && self.first_broken(heap)?.is_none())
    }
}
