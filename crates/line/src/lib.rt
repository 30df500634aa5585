// Workerwax, crate `line`: the settings of a V.34 line and the numbers that follow from them (document 01; V.34, clauses 8.2 and 9.2).
//
// What does it do? `work_out` takes the settings as they are asked for, role, symbol rate, data rate, shaping and mark, and answers them
// worked out, or the first refusal. Silence is never taken for permission: a mark that is neither 0 nor 1 is refused at every rate.
// How does it work? The six symbol rates are constants of a type; b, r, q and K follow by divisions, and M from two tables over K.
#![tactic(auto)]

pub mod asked;
pub mod numbers;
pub mod rate;
pub mod settings;
pub mod shells;
pub mod switching;

pub use asked::Asked;
pub use rate::SymbolRate;
pub use settings::{Settings, Shaping, work_out};
pub use switching::{Turn, next_frame};
