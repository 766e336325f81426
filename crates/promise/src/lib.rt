// The promise over every mixture of steps.
#![tactic(auto)]

mod cases;
mod files;
mod laws;

pub use cases::worked_cases;
pub use files::days_come_back;
pub use laws::every_mixture_keeps_the_promise;
