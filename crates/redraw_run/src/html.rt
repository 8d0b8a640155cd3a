//! A document in HTML: what it begins and ends with, and lines of the input in it.
ghost use Rattle.std.specs.Prelude.{◌≡◌, ◌++◌, [], IfOk, OnOk};
ghost use Rattle.redraw_run.specs.Handed.{preformatted};
ghost use Rattle.redraw_run.specs.HtmlDocument as spec;
ghost use Rattle.redraw_run.specs.HtmlDocument.{Ends};
ghost use Rattle.redraw_run.specs.ReadLines.{PrintsBytes};
ghost use Rattle.snippet_grid.specs.Html as html;
ghost use Rattle.output_stream.specs.Standing.{known};

use crate::counts::Counts;
use crate::page::Page;
use annotate_snippets::renderer::{HTML_PAGE_STYLESHEET, HTML_STYLESHEET};
use output_stream::Stream;
use redraw_command::tally::Tally;
use redraw_command::terminal::Markup;
use std::alloc::{AllocError, Global};
use std::io::{self, Write};

/// What stands before the stylesheets of reports: the page is light or dark as its reader prefers.
const HEAD: &str = "<!DOCTYPE html>
<html lang=\"en\">
<head>
<meta charset=\"utf-8\">
<meta name=\"viewport\" content=\"width=device-width, initial-scale=1\">
<title>redraw</title>
<style>
:root { color-scheme: light dark; }
body { display: flex; flex-direction: column; margin: 1em auto; max-width: 100em; padding: 0 1em;
  font-family: sans-serif; }
main { order: 1; }
svg { display: none; }
.skip:not(:focus) { position: absolute; clip-path: inset(50%); }
pre { margin: 0; overflow-x: auto; font-family: monospace; line-height: 1.3; }
article { position: relative; margin: 1em 0; padding-left: 0.75em; border-left: 0.25em solid #767676; }
article.error { border-color: #b3001b; }
article.warning { border-color: #7a5b00; }
@media (prefers-color-scheme: dark) {
  article { border-color: #8c8c8c; }
  article.error { border-color: #ff7b72; }
  article.warning { border-color: #e3b341; }
}
article:target { outline: 0.125em solid; }
article > a { position: absolute; right: 0; text-decoration: none; }
h1, h2, legend { font-size: 1em; }
h2 { margin: 0 1.5em 0.5em 0; overflow-wrap: anywhere; }
fieldset { border: 0; margin: 0; padding: 0; }
legend { padding: 0; font-weight: bold; }
ul { list-style: none; margin: 0; padding: 0; }
li { overflow-wrap: anywhere; }
#levels label { margin-right: 1em; white-space: nowrap; }
body:has(#errors:checked) article:not(.error),
body:has(#warnings:checked) article:not(.warning),
body:has(#others:checked) article:is(.error, .warning) { display: none; }
@media print { #levels, .skip, input, article > a { display: none; } article { break-inside: avoid; } }
";

/// What stands between the stylesheets and what is drawn: by levels the reader chooses which reports are shown.
const BODY: &str = "</style>
</head>
<body>
<a class=\"skip\" href=\"#index\">Counts and files</a>
<h1>Reports</h1>
<fieldset id=\"levels\">
<legend>Show</legend>
<label><input type=\"radio\" name=\"show\" id=\"all\" checked> all</label>
<label><input type=\"radio\" name=\"show\" id=\"errors\"> errors</label>
<label><input type=\"radio\" name=\"show\" id=\"warnings\"> warnings</label>
<label><input type=\"radio\" name=\"show\" id=\"others\"> others</label>
</fieldset>
<main>
";

/// What stands after all reports.
const MAIN_END: &str = "</main>\n";

/// What stands after all that is drawn.
const END: &str = "</body>\n</html>\n";

/// Begins a document, where HTML is written.
pub fn begin<W: Write>(markup: Markup, out: &mut Stream<W>) -> io::Result<()>
    ensures prints { PrintsBytes result (known W.contents out.old) (known W.contents out.new)
        (spec.html_start markup) }
{
    match markup {
        Markup::Html => print_head(out),
        Markup::Bare | Markup::Markdown => Ok(()),
    }
}

/// Prints what stands before all that is drawn.
fn print_head<W: Write>(out: &mut Stream<W>) -> io::Result<()>
    ensures prints { PrintsBytes result (known W.contents out.old) (known W.contents out.new) spec.head }
{
    match out.write(HEAD.as_bytes()) {
        Ok(()) => print_styles(out),
        Err(error) => Err(error),
    }
}

/// Prints the stylesheets, and what stands after them.
fn print_styles<W: Write>(out: &mut Stream<W>) -> io::Result<()>
    ensures prints { PrintsBytes result (known W.contents out.old) (known W.contents out.new) spec.styles }
{
    match out.write(HTML_STYLESHEET.as_bytes()) {
        Ok(()) => print_page_styles(out),
        Err(error) => Err(error),
    }
}

/// Prints the stylesheet of articles, and what stands after it.
fn print_page_styles<W: Write>(out: &mut Stream<W>) -> io::Result<()>
    ensures prints { PrintsBytes result (known W.contents out.old) (known W.contents out.new) spec.page_styles }
{
    match out.write(HTML_PAGE_STYLESHEET.as_bytes()) {
        Ok(()) => print(BODY, out),
        Err(error) => Err(error),
    }
}

/// Ends a document, where HTML is written: with how many reports there are, and the files that they lie in.
pub fn end<W: Write>(
    markup: Markup,
    page: &Page,
    tally: &Tally,
    out: &mut Stream<W>,
) -> io::Result<()>
    ensures ends { Ends result (known W.contents out.old) (known W.contents out.new)
        (spec.html_end markup tally.now page.now.files.entries) }
{
    match markup {
        Markup::Html => end_page(page, counts_of(tally), out),
        Markup::Bare | Markup::Markdown => Ok(()),
    }
}

/// What was counted of what was drawn.
fn counts_of(tally: &Tally) -> Counts
    ensures value { result ≡ spec.counts_of tally.now }
{
    Counts {
        errors: tally.errors,
        warnings: tally.warnings,
        others: tally.notes,
    }
}

/// Ends a page; nothing is printed where there is no memory for the list of its files.
fn end_page<W: Write>(page: &Page, counts: Counts, out: &mut Stream<W>) -> io::Result<()>
    ensures ends { Ends result (known W.contents out.old) (known W.contents out.new)
        (spec.ending counts page.now.files.entries) }
{
    match page.index(counts) {
        Ok(index) => print_ending(index.as_str(), out),
        Err(AllocError) => Err(io::Error::from(AllocError)),
    }
}

/// Prints the end of what is drawn, and what stands after it.
fn print_ending<W: Write>(index: &str, out: &mut Stream<W>) -> io::Result<()>
    ensures prints { PrintsBytes result (known W.contents out.old) (known W.contents out.new)
        (spec.main_end ++ (index.now ++ spec.page_end)) }
{
    match out.write(MAIN_END.as_bytes()) {
        Ok(()) => print_index(index, out),
        Err(error) => Err(error),
    }
}

/// Prints the list of files, and what stands after it.
fn print_index<W: Write>(index: &str, out: &mut Stream<W>) -> io::Result<()>
    ensures prints { PrintsBytes result (known W.contents out.old) (known W.contents out.new)
        (index.now ++ spec.page_end) }
{
    match out.write(index.as_bytes()) {
        Ok(()) => print(END, out),
        Err(error) => Err(error),
    }
}

/// Prints a text, and hands on what was written.
fn print<W: Write>(text: &str, out: &mut Stream<W>) -> io::Result<()>
    ensures prints { PrintsBytes result (known W.contents out.old) (known W.contents out.new) text.now }
{
    match out.write(text.as_bytes()) {
        Ok(()) => flush(out),
        Err(error) => Err(error),
    }
}

/// Hands on what was written.
fn flush<W: Write>(out: &mut Stream<W>) -> io::Result<()>
    ensures prints { PrintsBytes result (known W.contents out.old) (known W.contents out.new) [] }
{
    match out.flush() {
        Ok(()) => Ok(()),
        Err(error) => Err(error),
    }
}

/// A line with an escape for each character that HTML gives a meaning, in an element of its own. The line need not be
/// UTF-8.
pub fn preformatted(alloc: Global, line: &[u8]) -> Result<Vec<u8>, AllocError>
    ensures value { IfOk result (λ text. text.items ≡ preformatted line.now) }
{
    let mut text = Vec::new(alloc);
    text.extend_from_slice(b"<pre>\n")?;
    add_line(&mut text, line)?;
    text.extend_from_slice(b"</pre>\n")?;
    Ok(text)
}

/// Adds a line, with escapes.
fn add_line(text: &mut Vec<u8>, line: &[u8]) -> Result<(), AllocError>
    ensures added { OnOk result (text.new.items ≡ text.old.items ++ html.escaped line.now) }
{
    for byte in line {
        add_escaped(text, *byte)?;
    }
    Ok(())
}

/// Adds a byte, or the escape that stands for it.
fn add_escaped(text: &mut Vec<u8>, byte: u8) -> Result<(), AllocError>
    ensures added { OnOk result (text.new.items ≡ text.old.items ++ html.escape byte) }
{
    match byte {
        b'&' => text.extend_from_slice(b"&amp;")?,
        b'<' => text.extend_from_slice(b"&lt;")?,
        b'>' => text.extend_from_slice(b"&gt;")?,
        b'"' => text.extend_from_slice(b"&quot;")?,
        b'\'' => text.extend_from_slice(b"&#39;")?,
        _ => text.push(byte)?,
    }
    Ok(())
}
