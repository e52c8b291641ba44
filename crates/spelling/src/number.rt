// A number as it stands in a text: a run of 1 to 10 decimal digits.
ghost use Rattle.spelling.specs.Numbers.{Leads};

use crate::fault::NumberFault;

// The number that a text begins with.
#[derive(Clone, Copy)]
pub(crate) struct Leading {
    pub value: u64,
    pub length: usize,
}

pub(crate) const MOST_DIGITS: usize = 10;

// Reads the number that a text begins with, up to the first byte that is no digit.
pub(crate) fn leading_number(text: &[u8]) -> Result<Leading, NumberFault>
    ensures { Leads text.now result }
{
    let mut value = 0;
    let mut length = 0;
    for byte in text {
        let Some(digit) = char::from(*byte).to_digit(10) else {
            break;
        };
        if length == MOST_DIGITS {
            return Err(NumberFault::TooManyDigits);
        }
        value = value * 10 + u64::from(digit);
        length += 1;
    }
    if length == 0 {
        return Err(NumberFault::NoDigit);
    }
    Ok(Leading { value, length })
}
