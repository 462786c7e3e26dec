//! Claims about when the processors of a run decide: each correct one decides within so many ticks from a
//! stabilization time on, by a formula of the bounds that hold from then on. `specs/` has the definitions.
#![tactic(auto)]

mod agreement;
mod decisions;
mod factors;
mod formula_texts;
mod formulas;
mod lateness;
mod laws;
mod lexemes;
mod margins;
mod parts;
mod readings;
mod values;

pub use agreement::{first_difference, first_foreign};
pub use decisions::{Decision, first_decision, has_decided_by, latest_decision, least_undecided};
pub use factors::least_factor;
pub use formula_texts::{FormulaError, parse_formula};
pub use formulas::{Formula, MAX_OPEN, Operand, Part, Words};
pub use lateness::{Late, due_deadline, due_rows, first_late, least_due};
pub use laws::{claim_laws, formula_laws};
pub use margins::{Tested, tested_by};
pub use readings::BadFormula;
