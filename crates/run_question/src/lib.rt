//! The question that a text is, or the first cause by which it is refused. docs/EXPLORE.md,
//! Question, has the grammar and the table of causes.
#![tactic(auto)]

mod asked;
mod draft;
mod property;
mod question;
mod reading;
mod schedules;
mod statement;
mod values;

pub use asked::{Condition, Fact, Line, Property, TaskFact, Test};
pub use property::property_said;
pub use question::{Arrival, Offer, Question, QuestionFault, Stated};
