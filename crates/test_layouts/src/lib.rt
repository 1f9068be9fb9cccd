//! Tests of the answers about checked schemas: texts as JSON, lines of messages with any name, and the outline of a
//! layout by its accessors. Schemas and lines of whole runs are rows of `test_runs`.
#![tactic(auto)]

#[cfg(test)]
mod layouts;
#[cfg(test)]
mod lines;
#[cfg(test)]
mod outline;
