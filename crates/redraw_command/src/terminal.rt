//! How reports look: by the options, and by where they are shown.
ghost use Rattle.std.specs.Prelude.{◌≡◌};
ghost use Rattle.redraw_command.specs.Arguments.{argument_at};
ghost use Rattle.redraw_command.specs.Look as spec;

use program::number::number_after_plus;

/// When colors are written.
#[derive(Clone, Copy, PartialEq, Eq)]
pub enum When {
    /// On a terminal that shows them.
    Auto,
    Always,
    Never,
}

/// The markup that all that is printed is written in.
#[derive(Clone, Copy, PartialEq, Eq)]
pub enum Markup {
    /// None: a text for a terminal.
    Bare,
    /// One document in HTML.
    Html,
    Markdown,
}

impl Markup {
    /// Whether it is that of HTML.
    pub fn is_html(self) -> bool
        ensures value { result ≡ spec.is_html self }
    {
        matches!(self, Markup::Html)
    }
}

/// How reports are to look, by the options.
#[derive(Clone, Copy)]
pub struct Look {
    /// Whether strokes are drawn with line-drawing characters.
    pub unicode: bool,
    /// Whether reports are written without graphics.
    pub text: bool,
    /// Whether reports are written on one line each.
    pub short: bool,
    /// Whether titles, messages and labels are broken where they are wider than the width that lines are cut to.
    pub fit: bool,
    /// The markup that all is written in. In HTML reports are in the graphic form.
    pub markup: Markup,
    /// Whether findings are written as workflow commands of GitHub.
    pub github: bool,
    /// When reports are written with style codes.
    pub colors: When,
    /// Whether the names of errors link to pages that explain them, where style codes are written.
    pub links: bool,
    /// Whether they do so on a terminal.
    pub links_auto: bool,
    /// The width that lines are cut to, in columns, where one is given.
    pub width: Option<usize>,
}

/// Where the program runs, as far as it matters: what `main` finds there, and hands on as a value.
#[derive(Clone, Copy)]
pub struct Surroundings<'a> {
    /// Whether standard output is a terminal.
    pub is_terminal: bool,
    /// Whether colors aren't wanted, or the terminal shows none: by `NO_COLOR` and `TERM`.
    pub is_colorless: bool,
    /// The width of the terminal in columns, by `COLUMNS`.
    pub columns: Option<usize>,
    /// The folder that the program runs in.
    pub folder: Option<&'a str>,
}

impl Look {
    /// Whether style codes are written there.
    pub fn has_colors(&self, around: Surroundings<'_>) -> bool
        ensures value { result ≡ spec.has_colors self.now around.entry }
    {
        match self.colors {
            When::Auto => around.is_terminal && !around.is_colorless,
            When::Always => true,
            When::Never => false,
        }
    }

    /// Whether links are written there, if style codes are: where they are asked for, anywhere or on a terminal.
    pub fn has_links(&self, around: Surroundings<'_>) -> bool
        ensures value { result ≡ spec.has_links self.now around.entry }
    {
        self.links || self.links_auto && around.is_terminal
    }
}

/// Whether colors aren't wanted, or the terminal shows none, by what `NO_COLOR` and `TERM` are set to.
pub fn is_colorless(no_color: Option<&str>, term: Option<&str>) -> bool
    ensures value { result ≡ spec.is_colorless (argument_at no_color.entry) (argument_at term.entry) }
{
    is_set(no_color) || is_dumb(term)
}

/// Whether a variable is set to anything but nothing.
fn is_set(value: Option<&str>) -> bool
    ensures value { result ≡ spec.is_set (argument_at value.entry) }
{
    match value {
        Some(text) => !text.is_empty(),
        None => false,
    }
}

/// Whether a terminal of this name shows no colors.
fn is_dumb(name: Option<&str>) -> bool
    ensures value { result ≡ spec.is_dumb (argument_at name.entry) }
{
    match name {
        Some(name) => name == "dumb",
        None => false,
    }
}

/// The width of the terminal in columns, by what `COLUMNS` is set to; `None` where that is no number, or 0.
pub fn columns_of(value: Option<&str>) -> Option<usize>
    ensures value { result ≡ spec.columns_of (argument_at value.entry) }
{
    match number_after_plus(value?) {
        Some(0) => None,
        columns => columns,
    }
}
