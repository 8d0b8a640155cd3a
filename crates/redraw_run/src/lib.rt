//! What the program `redraw` does: it reads what other tools report, and prints what the library draws of it.
#![tactic(auto)]

pub mod article;
pub mod counts;
mod difference;
pub mod draw;
pub mod files;
pub mod finding_rows;
pub mod handed;
pub mod html;
pub mod id;
pub mod index;
pub mod input;
pub mod json_value;
pub mod kind;
pub mod lines;
pub mod look;
pub mod page;
pub mod piece;
pub mod readings;
pub mod report;
pub mod results;
pub mod run;
pub mod sarif;
pub mod text;
mod verify;
pub mod word;
pub mod write;
