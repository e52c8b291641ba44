// The frames that a search works in.
ghost use Rattle.std.specs.Prelude.{◌≡◌, ◌<◌, length, slice_set};
ghost use Rattle.search.specs.Frames.{row_of, cut_of, KeptAt, IsKeptAt};

use crate::cut::Cut;
use kinds::Kind;

/// What a search keeps of a region that it has cut, in rows of its kind: the region, a part of it
/// in which nothing is wished, and the part that is looked at joined to that. Frames that are lent
/// may hold anything, and hold junk afterwards.
#[derive(Clone, Copy)]
pub struct Frame<R> {
    pub region: R,
    pub barren: R,
    pub joint: R,
}

impl<R: Copy> Frame<R> {
    /// A frame with this row in all its places: what new memory for frames can be filled with.
    pub fn filled(row: R) -> Frame<R>
        ensures { result ≡ record { region = row; barren = row; joint = row } }
    {
        Frame {
            region: row,
            barren: row,
            joint: row,
        }
    }
}

impl<K: Kind> Cut<K> {
    // As it lies in a frame.
    pub(crate) fn row(self) -> Frame<K::Row>
        ensures { result ≡ row_of K.Kind.plain self }
    {
        Frame {
            region: self.region.row(),
            barren: self.barren.row(),
            joint: self.joint.row(),
        }
    }

    // The cut region of a frame; nothing where a row reads as nothing.
    pub(crate) fn read(frame: Frame<K::Row>) -> Option<Cut<K>>
        ensures { result ≡ cut_of K.Kind.region frame }
    {
        Some(Cut {
            region: K::read(frame.region)?,
            barren: K::read(frame.barren)?,
            joint: K::read(frame.joint)?,
        })
    }
}

// Writes a cut region into a frame.
pub(crate) fn keep<K: Kind>(frames: &mut [Frame<K::Row>], at: usize, cut: Cut<K>)
    requires { at < length frames.old }
    ensures { frames.new ≡ slice_set frames.old at (row_of K.Kind.plain cut) }
{
    frames[at] = cut.row();
}

// The cut region of a frame that was written.
pub(crate) fn kept<K: Kind>(frames: &[Frame<K::Row>], at: usize) -> Cut<K>
    requires { KeptAt K.Kind.region frames.now at }
    ensures { IsKeptAt K.Kind.region frames.now at result }
{
    let Some(cut) = Cut::read(frames[at]) else {
        unreachable()
    };
    cut
}
