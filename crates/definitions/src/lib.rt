//! What has to be believed of a suite, its report and its proof, and nothing else: which tuples are
//! demanded, what makes a suite cover them, how a suite grows, when a partial row is extendable and
//! what a search for that costs, when a tree refutes a tuple, what reports, proofs, figures and
//! verdicts say, which rows and proofs the bytes of files hold, and what the words of a command mean.
//! Each notion has a module in specs/, in the order in which a reader needs them; proofs/ computes
//! each on small models; docs/definitions.md says each in prose.
#![tactic(auto)]

mod effort;
mod laws;

pub use effort::Effort;
pub use laws::{
    accepted_are_certified, completions_are_rows, extendable_contains, growth_covers,
    proofs_have_one_text, proofs_read_back, refuted_are_unserved, reports_are_read,
    reports_read_back, servable_are_extendable, slices_serve, suite_proofs_are_accepted,
    suite_proofs_are_of_models, suite_proofs_list, suite_proofs_read_back, suite_proofs_refute,
    suites_are_read, suites_cover, suites_have_few_rows, suites_serve_or_refute,
};
