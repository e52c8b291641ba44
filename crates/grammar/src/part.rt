// Parts of a line, with their places.
ghost use Rattle.std.specs.Prelude.{◌≡◌, ◌==◌, ◌+◌, ◌≤◌, [], ◌∷◌, suc, length, MatchOption, IfSome};
ghost use Rattle.std.specs.List.{position, count_by};
ghost use Rattle.grammar.specs.Limits.{max_line};
ghost use Rattle.grammar.specs.Reading.{fields};
ghost use Rattle.grammar.specs.Texts.{comma};

// A part of a line between commas, with its place: its number among the fields, from 1, and where it
// starts.
#[derive(Clone, Copy)]
pub(crate) struct Part<'a> {
    pub(crate) text: &'a [u8],
    pub(crate) number: usize,
    pub(crate) start: usize,
    ghost within: { start + length text.now ≤ max_line },
    ghost few: { number ≤ start + 1 },
}

const COMMA: u8 = b',';

pub(crate) fn commas(text: &[u8]) -> usize
    ensures { result ≡ count_by (λ b. b == comma) text.now }
{
    text.iter().filter(|byte| **byte == COMMA).count()
}

fn first_comma(text: &[u8]) -> Option<usize>
    ensures { result ≡ position (λ b. b == comma) text.now }
{
    text.iter().position(|byte| *byte == COMMA)
}

impl<'a> Part<'a> {
    // A whole line, as the part that its first field begins.
    pub(crate) fn whole(line: &'a [u8]) -> Part<'a>
        requires { length line.now ≤ max_line }
        ensures text { result.text.now ≡ line.now }
        ensures place { (result.number ≡ 1) × (result.start ≡ 0) }
    {
        Part {
            text: line,
            number: 1,
            start: 0,
        }
    }

    // The part before the first comma, and the one behind that comma.
    pub(crate) fn cut(self) -> (Part<'a>, Option<Part<'a>>)
        ensures fields { MatchOption result.1 (fields self.entry.text.now ≡ result.0.text.now ∷ []) (λ rest. fields self.entry.text.now ≡ result.0.text.now ∷ fields rest.text.now) }
        ensures here { (result.0.number ≡ self.entry.number) × (result.0.start ≡ self.entry.start) }
        ensures next { IfSome result.1 (λ rest. (rest.number ≡ suc self.entry.number) × (rest.start ≡ self.entry.start + length result.0.text.now + 1)) }
    {
        let Some(place) = first_comma(self.text) else {
            return (self, None);
        };
        let first = Part {
            text: &self.text[..place],
            number: self.number,
            start: self.start,
        };
        let rest = Part {
            text: &self.text[place + 1..],
            number: self.number + 1,
            start: self.start + place + 1,
        };
        (first, Some(rest))
    }
}
