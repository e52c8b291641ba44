// Lists of regions with outcomes, first match, and the search for a value with a wished outcome.
#![tactic(auto)]

mod answer;
mod cut;
mod engine;
mod frames;
mod list;
mod look;
mod lookup;
mod question;
mod sight;
mod view;

pub use answer::{Found, TooShort, find, search};
pub use engine::explore;
pub use frames::Frame;
pub use list::{Entry, Match, Wish};
pub use look::Viewed;
pub use lookup::outcome_of;
pub use question::{Look, Question};
pub use sight::Sight;
pub use view::{View, Wished};
