//! Accepted plans as schemes of the log machine: why what `roc_law_log` and `roc_law_protocol` prove of schemes holds of
//! every accepted plan (`docs/PROOF.md`, "Plans as schemes"). No code stands here.
//!
//! `specs/Scheme.antt` has the scheme of a plan. [`laws`] say that it is sound and of the plan, and [`beginnings`] that transactions
//! one by one are whole procedures, from any store on; so every accepted plan has schemes (`accepted_plans_have_schemes_from_any_store`), and what
//! `roc_law_protocol` says of plans with schemes `roc_law_world` says of accepted ones.
//! That what these laws ask for can be met is shown by two small plans (`specs/SmallPlans.antt`), of which `roc_law_world` has runs
//! (`a_submission_is_answered`, `a_view_is_answered`).
#![tactic(auto)]

pub mod beginnings;
pub mod laws;
