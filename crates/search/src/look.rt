// A look at a region through a view of a list.
ghost use Rattle.std.specs.Prelude.{◌≡◌, ◌<◌, ◌≤◌, Some, length};
ghost use Rattle.std.specs.List.{slice_get};
ghost use Rattle.kinds.specs.Related.{Related};
ghost use Rattle.kinds.specs.declared.relation.Relation.TheVariants.{Crossing};
ghost use Rattle.kinds.specs.Words.{Inside};
ghost use Rattle.search.specs.Look.{MetSo, TurnOf, EndsSo, Clear, NoGood};
ghost use Rattle.search.specs.Question.{Looked};
ghost use Rattle.search.specs.View.{WellDecided, regions_of};
ghost use Rattle.search.specs.declared.sight.Sight.TheVariants.{Good, Bad};

use crate::question::{Look, Question};
use crate::sight::Sight;
use crate::view::View;
use kinds::{Kind, Relation};

/// Which values of a target are wished in a view.
#[derive(Drop)]
pub struct Viewed<'a, V: View> {
    pub view: &'a V,
    pub target: V::Region,
}

// What a look has met so far. The probe is a value of the region that is looked at.
#[derive(Clone, Copy)]
enum Met<K> {
    // No good entry meets the region, and none holds the probe.
    Nothing,
    // This good entry cuts the region, and none holds the probe.
    Good(K),
    // This bad entry, which holds the probe, cuts the region, and no good one meets it.
    Bad(K),
}

// What comes of an entry.
#[derive(Clone, Copy)]
enum Turn<K> {
    // The next entry is looked at.
    On(Met<K>),
    // The probe is wished.
    Found,
    // This entry cuts the region.
    Cut(K),
    // The entry, which is good or is bad, holds all of the region.
    Held { entry: K, good: bool },
}

impl<V: View> Viewed<'_, V> {
    // What comes of a good entry that cuts the region.
    fn after_good(
        &self,
        region: V::Region,
        probe: <V::Region as Kind>::Value,
        met: Met<V::Region>,
        position: usize,
        entry: V::Region,
    ) -> Turn<V::Region>
        requires here { slice_get (V.sights self.now.view.now) position ≡ Some (Good entry) }
        requires crossing { Related (V.Region.holds region) (V.Region.holds entry) Crossing }
        requires met { MetSo V.Region.holds (V.sights self.now.view.now) position region probe met }
        ensures { TurnOf V.Region.holds (V.sights self.now.view.now) (V.end self.now.view.now) position region probe met result }
    {
        match met {
            Met::Bad(decider) => Turn::Cut(decider),
            Met::Nothing if entry.has(probe) => Turn::Found,
            Met::Good(_) if entry.has(probe) => Turn::Found,
            Met::Nothing => Turn::On(Met::Good(entry)),
            Met::Good(first) => Turn::On(Met::Good(first)),
        }
    }

    // What comes of a bad entry that cuts the region.
    fn after_bad(
        &self,
        region: V::Region,
        probe: <V::Region as Kind>::Value,
        met: Met<V::Region>,
        position: usize,
        entry: V::Region,
    ) -> Turn<V::Region>
        requires here { slice_get (V.sights self.now.view.now) position ≡ Some (Bad entry) }
        requires crossing { Related (V.Region.holds region) (V.Region.holds entry) Crossing }
        requires met { MetSo V.Region.holds (V.sights self.now.view.now) position region probe met }
        ensures { TurnOf V.Region.holds (V.sights self.now.view.now) (V.end self.now.view.now) position region probe met result }
    {
        match met {
            Met::Bad(decider) => Turn::On(Met::Bad(decider)),
            Met::Nothing if entry.has(probe) => Turn::On(Met::Bad(entry)),
            Met::Good(_) if entry.has(probe) => Turn::Cut(entry),
            Met::Nothing | Met::Good(_) => Turn::On(met),
        }
    }

    // What comes of the entry at a position, after what was met before it.
    fn turn(
        &self,
        region: V::Region,
        probe: <V::Region as Kind>::Value,
        met: Met<V::Region>,
        position: usize,
    ) -> Turn<V::Region>
        requires within { position < length (V.sights self.now.view.now) }
        requires probe { V.Region.holds region probe }
        requires met { MetSo V.Region.holds (V.sights self.now.view.now) position region probe met }
        ensures { TurnOf V.Region.holds (V.sights self.now.view.now) (V.end self.now.view.now) position region probe met result }
    {
        match self.view.sight(position) {
            Sight::Passed => Turn::On(met),
            Sight::Good(entry) => match region.relation(entry) {
                Relation::Apart => Turn::On(met),
                Relation::Inside => Turn::Held { entry, good: true },
                Relation::Crossing => self.after_good(region, probe, met, position, entry),
            },
            Sight::Bad(entry) => match region.relation(entry) {
                Relation::Apart => Turn::On(met),
                Relation::Inside => Turn::Held { entry, good: false },
                Relation::Crossing => self.after_bad(region, probe, met, position, entry),
            },
        }
    }

    // A region around this one, inside `wide` and apart from every good entry before a position.
    fn clear(&self, region: V::Region, wide: V::Region, upto: usize) -> V::Region
        requires few { upto ≤ length (V.sights self.now.view.now) }
        requires around { Inside (V.Region.holds region) (V.Region.holds wide) }
        requires apart { NoGood V.Region.holds (V.sights self.now.view.now) upto region }
        ensures holds { Inside (V.Region.holds region) (V.Region.holds result) }
        ensures within { Inside (V.Region.holds result) (V.Region.holds wide) }
        ensures clear { Clear V.Region.holds (V.sights self.now.view.now) upto (V.Region.holds result) }
    {
        let mut cleared = wide;
        for position in 0..upto {
            if let Sight::Good(entry) = self.view.sight(position) {
                cleared = region.separate(cleared, entry);
            }
        }
        cleared
    }

    // What the look tells where no entry from a position on, but what lies in `wide`, decides a value
    // of the region, and those well or not.
    fn finish(
        &self,
        region: V::Region,
        probe: <V::Region as Kind>::Value,
        met: Met<V::Region>,
        position: usize,
        wide: V::Region,
        good: bool,
    ) -> Look<V::Region, <V::Region as Kind>::Value>
        requires few { position ≤ length (V.sights self.now.view.now) }
        requires probe { V.Region.holds region probe }
        requires met { MetSo V.Region.holds (V.sights self.now.view.now) position region probe met }
        requires ends { EndsSo V.Region.holds (V.sights self.now.view.now) (V.end self.now.view.now) position region wide probe good }
        ensures { Looked V.Region.holds (WellDecided V.Region.holds (V.sights self.now.view.now) (V.end self.now.view.now)) (regions_of (V.sights self.now.view.now)) region result }
    {
        match met {
            Met::Bad(entry) if good => Look::Cut(entry),
            Met::Good(entry) if !good => Look::Cut(entry),
            Met::Nothing | Met::Good(_) if good => Look::Found(probe),
            Met::Nothing | Met::Good(_) | Met::Bad(_) => {
                Look::Drop(self.clear(region, wide, position))
            }
        }
    }
}

impl<V: View> Question for Viewed<'_, V> {
    type Region = V::Region;

    ghost wished = { λ q. WellDecided V.Region.holds (V.sights q.view.now) (V.end q.view.now) };

    ghost scope = { λ q. V.Region.holds q.target };

    ghost entries = { λ q. regions_of (V.sights q.view.now) };

    fn look(&self, region: V::Region) -> Look<V::Region, <V::Region as Kind>::Value> {
        let probe = region.pick();
        let mut met = Met::Nothing;
        for position in 0..self.view.len() {
            match self.turn(region, probe, met, position) {
                Turn::On(next) => met = next,
                Turn::Found => return Look::Found(probe),
                Turn::Cut(entry) => return Look::Cut(entry),
                Turn::Held { entry, good } => {
                    return self.finish(region, probe, met, position, entry, good);
                }
            }
        }
        let end = self.view.is_end_good();
        self.finish(region, probe, met, self.view.len(), self.target, end)
    }
}
