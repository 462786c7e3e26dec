//! Why a command stops: the faults, with the line and the exit status of each; and how a text is printed. `specs/` has
//! the definitions that the contracts cite.
#![tactic(auto)]

mod fault_lines;
mod faults;
mod files;
mod hints;
mod log_fault_lines;
mod outside_lines;
mod printing;
mod sets;
mod swaps;

pub use fault_lines::{fault_text, told_line};
pub use faults::{
    Fault, ImportOption, ListedField, MemberOutside, PictureOption, ReportOption, SetOption,
    TickOutside, status,
};
pub use files::{FileTrouble, OutputTrouble, unopened, unread, unwritten};
pub use printing::{print, print_notes, tell};
pub use sets::correct_set;
pub use swaps::swapped;
