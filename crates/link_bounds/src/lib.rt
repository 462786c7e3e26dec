//! Which processors and links cause the bounds of a trace: the least bounds of each from one tick on, found by one
//! backward pass, and their text.
#![tactic(auto)]

mod bounds;
mod copies;
mod links;
mod paces;
mod passes;
mod row_texts;
mod rows;

pub use bounds::LeastBound;
pub use passes::bound_rows;
pub use row_texts::bounds_text_of;
pub use rows::BoundRow;
