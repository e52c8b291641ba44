// How the lists grow and shrink.
ghost use Rattle.std.specs.Prelude.{◌≡◌, suc, ◌-◌, ◌<◌, ◌≤◌, ◌↔◌, [], ◌∷◌, ◌++◌, length, if◌then◌else◌, is_ok, is_some, IsOk, IfOk, OnErr, IsErrOf, IsSome, IfSome, IfNone, sum, slice_set};
ghost use Rattle.model.specs.Limits.{max_domains, max_list, max_rules};
ghost use Rattle.lists.specs.Lengths.{lengths_of, length_at};

use super::{ListTable, ROWS};
use crate::refusal::ListRefusal;
use model::{MAX_LIST, MAX_RULES};
use tables::{FixedVec, Full};

impl ListTable {
    /// No list yet.
    pub fn new() -> ListTable
        ensures { lengths_of result ≡ [] }
    {
        ListTable {
            lengths: FixedVec::new(0),
        }
    }

    /// Adds a list of one rule, for the next firewall. Nothing is done exactly when there is no room
    /// for it.
    pub fn add(&mut self) -> Result<(), Full>
        ensures room { IsOk result ↔ ((length (lengths_of self.old) < max_domains - 1) × (sum (lengths_of self.old) < max_rules)) }
        ensures after { lengths_of self.new ≡ (if is_ok result then lengths_of self.old ++ (1 ∷ []) else lengths_of self.old) }
        ensures same { OnErr result (self.new ≡ self.old) }
    {
        // The count first: a full table is told at once, and not by the sum of its lengths.
        if self.lengths.len() >= ROWS || self.total() >= MAX_RULES {
            return Err(Full);
        }
        self.lengths.push(1)
    }

    /// The list of a firewall has one rule more; its length now. Nothing is done exactly when there is
    /// no such firewall or no room for the rule.
    #[tactic(auto, using(std::proofs::lemmas::Grind::elements))]
    pub fn grow(&mut self, firewall: usize) -> Result<usize, ListRefusal>
        ensures room { IsOk result ↔ ((firewall < length (lengths_of self.old)) × (length_at (lengths_of self.old) firewall < max_list) × (sum (lengths_of self.old) < max_rules)) }
        ensures length { IfOk result (λ now. now ≡ suc (length_at (lengths_of self.old) firewall)) }
        ensures none { IsErrOf result ListRefusal.NoSuch ↔ (length (lengths_of self.old) ≤ firewall) }
        ensures after { lengths_of self.new ≡ (if is_ok result then slice_set (lengths_of self.old) firewall (suc (length_at (lengths_of self.old) firewall)) else lengths_of self.old) }
        ensures same { OnErr result (self.new ≡ self.old) }
    {
        let length = self.lengths.get(firewall).ok_or(ListRefusal::NoSuch)?;
        if length >= MAX_LIST || self.total() >= MAX_RULES {
            return Err(ListRefusal::Full);
        }
        self.lengths.set(firewall, length + 1);
        Ok(length + 1)
    }

    /// The list of a firewall has one rule less; its length now. Nothing is done exactly when it has
    /// none.
    pub fn shrink(&mut self, firewall: usize) -> Option<usize>
        ensures some { IsSome result ↔ (0 < length_at (lengths_of self.old) firewall) }
        ensures length { IfSome result (λ now. now ≡ length_at (lengths_of self.old) firewall - 1) }
        ensures after { lengths_of self.new ≡ (if is_some result then slice_set (lengths_of self.old) firewall (length_at (lengths_of self.old) firewall - 1) else lengths_of self.old) }
        ensures same { IfNone result (self.new ≡ self.old) }
    {
        let length = self.length(firewall).checked_sub(1)?;
        self.lengths.set(firewall, length);
        Some(length)
    }
}
