//! What is painted for a snippet: for each line that is shown its source row, and below it the rows of its marks and
//! labels.
#![tactic(auto)]

mod bars;
mod canvas;
mod cell_rows;
mod connectors;
mod corners;
mod cuts;
mod elision;
mod highlight;
mod labels;
mod lines;
mod marks;
mod roles;
mod row;
mod snippet;
mod source_row;
mod squeezed;
mod stems;
mod strokes;
mod whole_line;

pub use snippet::{LineView, draw_snippet};
