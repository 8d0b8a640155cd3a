//! The writer that a report is written to, and whether a write to it has failed.

ghost use Rattle.std.specs.Prelude.{◌≡◌, [], ◌∷◌, IfOk, OnErr, OnOk, false, if◌then◌else◌, string_bytes, true};
ghost use Rattle.std.specs.Io.KnownBytes.{Appends};
ghost use Rattle.output_stream.specs.Part.{AppendsPart};
ghost use Rattle.annotate_snippets.specs.Lent.{held};
ghost use Rattle.annotate_snippets.specs.Written.{PrintsGroup};

use crate::renderer::Renderer;
use crate::renderer::element_context::GroupContext;
use crate::renderer::graphic::draw_group;
use crate::renderer::page_sink::PageSink;
use crate::renderer::preprocess::PreparedGroup;
use crate::renderer::to_writer::RenderToError;
use output_stream::write_whole;
use snippet_grid::{SheetCodes, StyledBuffer};
use snippet_style::LevelInner;
use std::alloc::{AllocError, Global};
use std::io::{self, Write};

/// A writer that is lent for one report, with its sheet, and whether a write to it has failed.
///
/// No other call reaches the writer meanwhile. So a contract that names `has_failed` says what was told of a failure.
#[derive(Drop)]
pub struct ReportWriter<'a, W> {
    target: &'a mut W,
    /// The codes of the sheet that the report is printed under.
    codes: &'a SheetCodes,
    /// It is set where a write failed, by `ReportWriter::write`, and nowhere else.
    has_failed: bool,
}

impl<'a, W: Write> ReportWriter<'a, W> {
    /// This writer, for a report under the sheet of these codes. No write to it has failed yet.
    pub fn new(target: &'a mut W, codes: &'a SheetCodes) -> ReportWriter<'a, W>
        ensures same_reference { result.target.ghost_name ≡ target.entry.ghost_name }
        ensures writer { result.target.now ≡ target.old }
        ensures sheet { result.codes.now ≡ codes.now }
        ensures sound { result.has_failed ≡ false }
    {
        ReportWriter {
            target,
            codes,
            has_failed: false,
        }
    }

    /// Writes these bytes. Where a write failed a first part of them was written, and the error is its own.
    pub fn write(&mut self, bytes: &[u8]) -> io::Result<()>
        ensures same_reference { self.new.target.ghost_name ≡ self.old.target.ghost_name }
        ensures sheet { self.new.codes.now ≡ self.old.codes.now }
        ensures whole { OnOk result (Appends (held W.contents self.old) (held W.contents self.new) bytes.now) }
        ensures sound { OnOk result (self.new.has_failed ≡ self.old.has_failed) }
        ensures cut { OnErr result (AppendsPart (held W.contents self.old) (held W.contents self.new) bytes.now) }
        ensures failed { OnErr result (self.new.has_failed ≡ true) }
    {
        match write_whole(bytes, self.target) {
            Ok(()) => Ok(()),
            Err(error) => {
                self.has_failed = true;
                Err(error)
            }
        }
    }
}

impl<'w, W: Write> PageSink for ReportWriter<'w, W> {
    ghost use Rattle.annotate_snippets.specs.Written.{StopsAtGroup, WritesGroup};

    type Error = RenderToError;

    ghost took = { WritesGroup W.contents };

    ghost stopped = { StopsAtGroup W.contents };

    fn add<'a>(
        &mut self,
        alloc: Global,
        renderer: &Renderer,
        around: &GroupContext<'_>,
        group: PreparedGroup<'a>,
        empty: StyledBuffer<'a>,
    ) -> Result<StyledBuffer<'a>, RenderToError> {
        let level = group.group.level;
        let mut buffer = draw_group(renderer, around, group, empty)?;
        let is_first = around.place.is_first();
        let text = group_text(alloc, &buffer, level, is_first, self.codes)?;
        self.write(text.as_bytes())?;
        buffer.clear();
        Ok(buffer)
    }
}

/// The text that prints a group's rows, after a line feed unless it is the first.
fn group_text(
    alloc: Global,
    rows: &StyledBuffer<'_>,
    level: LevelInner,
    is_first: bool,
    codes: &SheetCodes,
) -> Result<String, AllocError>
    ensures prints { IfOk result (λ text. PrintsGroup codes.now is_first level rows.now (string_bytes text)) }
{
    let before = line_break(alloc, is_first)?;
    rows.render_after(before, level, codes)
}

/// What stands before the text of a group: a line feed, and nothing before the first.
fn line_break(alloc: Global, is_first: bool) -> Result<String, AllocError>
    ensures value { IfOk result (λ text. string_bytes text ≡ (if is_first then [] else 10 ∷ [])) }
{
    let mut text = String::new(alloc);
    if is_first {
        return Ok(text);
    }
    text.push_str("\n")?;
    Ok(text)
}
