//! Reads the plan of a campaign and the list of its jobs.
//!
//! A plan is a TOML document: a campaign's number, a table for each card and one for each keyset. A list of jobs is CSV: a
//! header and a row for each job. Octets have one reading or a first fault, which names its place, and the answer is
//! exactly that one; want of memory alone may come in its place.
#![tactic(auto)]

mod card_entries;
mod card_table;
mod columns;
mod documents;
mod field_values;
mod hexadecimals;
mod job_lists;
mod job_rows;
#[cfg(test)]
mod job_tests;
mod keyset_entries;
mod keyset_table;
mod numbers;
mod plan_documents;
mod plan_index;
#[cfg(test)]
mod plan_tests;
mod plans;
mod records;
mod tables;

pub use columns::Column;
pub use job_lists::{JobsErr, read_jobs};
pub use numbers::number;
pub use plan_documents::read_plan;
pub use plans::{CardList, LaterList, Plan, PlanErr};
pub use tables::{Field, Table};
