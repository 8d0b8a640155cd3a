//! The grid of styled cells that a report is drawn into, and its text.
#![tactic(auto)]

mod added_row;
mod cells;
mod change;
pub mod codes;
pub mod grid;
pub mod grid_row;
mod html;
mod html_row;
pub mod layout;
pub mod printed_row;
mod put;
mod replace;
mod row_runs;
pub mod row_sink;
mod runs;
mod spaces;
pub mod styled_char;
mod usual_codes;
mod weave;
mod words;

pub use codes::SheetCodes;
pub use grid::StyledBuffer;
pub use grid_row::GridRow;
pub use html::push_escaped;
pub use layout::Layout;
pub use printed_row::PrintedRow;
pub use row_sink::RowSink;
pub use styled_char::StyledChar;
