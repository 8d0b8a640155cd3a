//! Tests of what no clause can say, no case of `replay`, no run of a program, and no line that `alloc_failures`
//! prints. A report that a line of JSON can say is a case in `crates/replay/`; what a program does by its arguments and
//! files is a line of its `runs.jsonl`; what a call does whose memory is refused is seen in `crates/alloc_failures/`.
#![tactic(auto)]

#[cfg(test)]
mod builders;
#[cfg(test)]
mod failing;
#[cfg(test)]
mod grid;
#[cfg(test)]
mod grid_calls;
#[cfg(test)]
mod grid_lists;
#[cfg(test)]
mod levels;
#[cfg(test)]
mod line;
#[cfg(test)]
mod plain_grid;
#[cfg(test)]
mod refusals;
#[cfg(test)]
mod replay;
#[cfg(test)]
mod report;
#[cfg(test)]
mod slow;
#[cfg(test)]
mod to_writer;
#[cfg(test)]
mod watched;
