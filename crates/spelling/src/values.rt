// What the numbers of a text mean, or what is wrong with them.
ghost use Rattle.std.specs.Prelude.{◌≡◌, ◌<◌, ◌≤◌, [], ◌∷◌, MatchResult};
ghost use Rattle.spelling.specs.Meanings.{NumberOf, AddressOf, PrefixOf, RangeOf};
ghost use Rattle.spelling.specs.declared.fault.NumberFault.TheVariants.{TooLarge};

use crate::fault::{NumberFault, Problem, RegionFault};
use crate::form::Numbers;
use forms::{Prefix, Range};

// The number, if it is at most `most`.
fn at_most(number: u64, most: u32) -> Result<u32, NumberFault>
    ensures { MatchResult result (λ n. (n ≡ number) × (number ≤ most)) (λ e. (e ≡ TooLarge) × (most < number)) }
{
    if number > u64::from(most) {
        return Err(NumberFault::TooLarge);
    }
    Ok(number as u32)
}

fn octet(number: u64) -> Result<u8, NumberFault>
    ensures { MatchResult result (λ n. (n ≡ number) × (number ≤ 255)) (λ e. (e ≡ TooLarge) × (255 < number)) }
{
    Ok(at_most(number, 255)? as u8)
}

fn prefix_length(number: u64) -> Result<u8, NumberFault>
    ensures { MatchResult result (λ n. (n ≡ number) × (number ≤ 32)) (λ e. (e ≡ TooLarge) × (32 < number)) }
{
    Ok(at_most(number, 32)? as u8)
}

fn octets(first: u64, second: u64, third: u64, fourth: u64) -> Result<u32, Problem>
    ensures { AddressOf (first ∷ second ∷ third ∷ fourth ∷ []) result }
{
    Ok(u32::from_be_bytes([octet(first)?, octet(second)?, octet(third)?, octet(fourth)?]))
}

pub(crate) fn number(numbers: Numbers<0>, most: u32) -> Result<u32, Problem>
    ensures { NumberOf most (numbers.first ∷ numbers.later) result }
{
    Ok(at_most(numbers.first, most)?)
}

pub(crate) fn address(numbers: Numbers<3>) -> Result<u32, Problem>
    ensures { AddressOf (numbers.first ∷ numbers.later) result }
{
    let [second, third, fourth] = numbers.later;
    octets(numbers.first, second, third, fourth)
}

pub(crate) fn prefix(numbers: Numbers<4>) -> Result<Prefix, Problem>
    ensures { PrefixOf (numbers.first ∷ numbers.later) result }
{
    let [second, third, fourth, length] = numbers.later;
    let address = octets(numbers.first, second, third, fourth)?;
    let length = prefix_length(length)?;
    Prefix::new(address, length).ok_or(Problem::Region(RegionFault::HostBits))
}

pub(crate) fn range(numbers: Numbers<1>, most: u32) -> Result<Range, Problem>
    ensures { RangeOf most (numbers.first ∷ numbers.later) result }
{
    let [second] = numbers.later;
    let lo = at_most(numbers.first, most)?;
    let hi = at_most(second, most)?;
    Range::new(lo, hi).ok_or(Problem::Region(RegionFault::LoAboveHi))
}
