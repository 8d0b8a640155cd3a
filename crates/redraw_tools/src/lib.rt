//! What tools other than rustc write, as findings: logs in the form SARIF 2.1.0, ESLint's log, diagnostics of language
//! servers, and lines of compilers.
//!
//! A log is one JSON document. `log::LogRun` is a run of it, and `finding` what one of its results reports, so that
//! each can be drawn before the next is read. What is wrong with a part of a log is reported with the path to it, as
//! `runs[0].results[3].locations[0].physicalLocation.region.startLine`, and the rest is taken as it is. Fields that
//! aren't named here are skipped. What lines report is `lines::reported`.
#![tactic(auto)]

pub mod cut;
pub mod eslint;
pub mod excerpt;
pub mod expectation;
pub mod fixes;
pub mod flow;
pub mod heading;
pub mod lines;
pub mod links;
pub mod location;
pub mod log;
pub mod lsp;
pub mod message;
pub mod parts;
pub mod placeholders;
pub mod primary;
pub mod region;
pub mod rule;
pub mod rules;
pub mod said;
pub mod sarif;
pub mod steps;
pub mod units;
pub mod uri;
