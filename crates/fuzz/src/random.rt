// What lines are drawn with, besides what all programs draw with.
use chance::Random;

pub(crate) trait Drawing {
    fn byte(&mut self) -> u8;

    // A byte that a line may have.
    fn printed(&mut self) -> u8;

    // One of the texts; none where there are none.
    fn text<'a>(&mut self, texts: &[&'a str]) -> &'a str;
}

impl Drawing for Random {
    fn byte(&mut self) -> u8 {
        (self.below(256) & 255) as u8
    }

    fn printed(&mut self) -> u8 {
        b' ' + (self.below(95) & 127) as u8
    }

    fn text<'a>(&mut self, texts: &[&'a str]) -> &'a str {
        self.pick(texts).unwrap_or("")
    }
}
