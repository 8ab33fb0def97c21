//! What is explored: a script, a question, and how many turns a run has at most.

use run_question::Question;
use run_script::Script;

#[derive(Drop)]
pub(crate) struct Given {
    pub(crate) script: Script,
    pub(crate) question: Question,
    pub(crate) limit: u32,
}
