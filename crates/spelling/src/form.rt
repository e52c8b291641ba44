// Forms of fields: numbers with marks between them.
ghost use Rattle.std.specs.Prelude.{◌≡◌};
ghost use Rattle.spelling.specs.Forms.{mark_byte};

/// What stands between two numbers.
#[derive(Clone, Copy, Debug, PartialEq, Eq)]
pub enum Mark {
    /// `.`
    Dot,
    /// `/`
    Slash,
    /// `-`
    Dash,
}

impl Mark {
    /// The byte that stands for it in a text.
    pub fn byte(self) -> u8
        ensures { result ≡ mark_byte self }
    {
        match self {
            Mark::Dot => b'.',
            Mark::Slash => b'/',
            Mark::Dash => b'-',
        }
    }
}

/// A number alone: a form is the marks between its numbers.
pub const NUMBER: [Mark; 0] = [];

/// Four numbers with dots between them.
pub const ADDRESS: [Mark; 3] = [Mark::Dot, Mark::Dot, Mark::Dot];

/// An address, a slash, and a length in bits.
pub const PREFIX: [Mark; 4] = [Mark::Dot, Mark::Dot, Mark::Dot, Mark::Slash];

/// Two numbers with a dash between them.
pub const RANGE: [Mark; 1] = [Mark::Dash];

/// The numbers of a text of a form: the first, and one behind each mark.
#[derive(Clone, Copy)]
pub struct Numbers<const N: usize> {
    pub first: u64,
    pub later: [u64; N],
}
