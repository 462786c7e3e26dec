//! Which ticks, steps, messages, misses, gaps and corners the picture of a run shows.
#![tactic(auto)]

mod gathering;
mod messages;
mod pictures;
mod report_rows;
mod strokes;
pub mod takers;
mod windows;

pub use messages::{Message, processor_at};
pub use pictures::{Picture, picture_of};
pub use report_rows::COLUMNS;
pub use strokes::{Stroke, Strokes, strokes_of};
pub use windows::{MAX_WINDOW, USUAL_TICKS, Window, WindowError, window_of};
