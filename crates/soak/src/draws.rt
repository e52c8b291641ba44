// Calls drawn at random, that are mostly good in the tree as it stands, and what the judge knows of the
// regions and values in them.
mod addresses;
mod answers;
mod both;
mod draw;
mod lent;
mod names;
mod phases;
mod pool;
mod random;
mod rests;
mod small_forms;

pub(crate) use both::{Both, Drawn, Known, Member, plain, typed};
pub(crate) use draw::{Draw, DrawnOf};
pub(crate) use lent::{ASKED, MORE, draw_lent};
pub(crate) use names::{NAMES, Name};
pub(crate) use phases::draw_name;
pub(crate) use pool::Pool;
pub(crate) use small_forms::{Form, flat, long};
