//! Lines of the input as they are handed on.
ghost use Rattle.std.specs.Prelude.{◌≡◌, ◌++◌, IfOk, OnOk, true};
ghost use Rattle.std.specs.Cow.{cow_slice_items};
ghost use Rattle.redraw_run.specs.Handed as spec;

use crate::html::preformatted;
use crate::look::ReportRenderer;
use redraw_command::terminal::Markup;
use redraw_command::unheeded::unheeded;
use std::alloc::{AllocError, Global};
use std::borrow::CowSlice;

/// What makes a line of code of what stands after it.
const INDENT: &[u8] = b"    ";

impl ReportRenderer {
    /// A line of the input as it is handed on: in HTML with escapes in an element of its own, in Markdown as code,
    /// among workflow commands as none, and else as it is. The line need not be UTF-8.
    pub fn handed<'l>(&self, alloc: Global, line: &'l [u8]) -> Result<CowSlice<'l, u8>, AllocError>
        ensures value { IfOk result (λ handed. cow_slice_items handed
            ≡ spec.handed self.now.markup self.now.is_workflow line.now) }
    {
        match self.markup {
            Markup::Html => Ok(CowSlice::Owned(preformatted(alloc, line)?)),
            Markup::Markdown => Ok(CowSlice::Owned(quoted(alloc, line)?)),
            Markup::Bare if self.is_workflow => Ok(CowSlice::Owned(unheeded(alloc, line)?)),
            Markup::Bare => Ok(CowSlice::Borrowed(line)),
        }
    }
}

/// A text as code, in which nothing is markup: four blanks stand before each line. A carriage return, which may end a
/// line too, is a blank.
fn quoted(alloc: Global, text: &[u8]) -> Result<Vec<u8>, AllocError>
    ensures value { IfOk result (λ quoted. quoted.items ≡ spec.quoted true text.now) }
{
    let mut quoted = Vec::new(alloc);
    let mut starts = true;
    for byte in text {
        add_indent(starts, &mut quoted)?;
        quoted.push(if *byte == b'\r' { b' ' } else { *byte })?;
        starts = *byte == b'\n';
    }
    Ok(quoted)
}

/// Adds what stands before a line, where one starts.
fn add_indent(starts: bool, quoted: &mut Vec<u8>) -> Result<(), AllocError>
    ensures added { OnOk result (quoted.new.items ≡ quoted.old.items ++ spec.indent starts) }
{
    if starts {
        quoted.extend_from_slice(INDENT)?;
    }
    Ok(())
}
