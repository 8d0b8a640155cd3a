//! The settings of a renderer: the two that are made of them all, and a method that changes each.

ghost use Rattle.std.specs.Prelude.{◌≡◌};
ghost use Rattle.annotate_snippets.specs.Settings.{plain_settings, styled_settings};

use crate::renderer::Renderer;
use crate::renderer::style::{Style, Stylesheet};
use snippet_style::DecorStyle;

/// The width that lines are cut to where no other is set, in columns.
pub const DEFAULT_TERM_WIDTH: usize = 140;

impl Renderer {
    /// A renderer that writes no style codes.
    pub fn plain() -> Renderer
        ensures settings { result ≡ plain_settings }
        ensures width { result.term_width ≡ DEFAULT_TERM_WIDTH }
    {
        Renderer {
            anonymized_origin_line_numbers: false,
            anonymized_snippet_line_numbers: false,
            term_width: DEFAULT_TERM_WIDTH,
            decor_style: DecorStyle::Ascii,
            stylesheet: Stylesheet::plain(),
            hyperlink: false,
            short_message: false,
            no_graphics: false,
            show_line_feeds: false,
            context_before: 0,
            context_after: 0,
            wrap: false,
            mask_controls: false,
            label_lines: false,
        }
    }

    /// A renderer that writes the codes of the `DEFAULT_*_STYLE` constants, and links.
    pub fn styled() -> Renderer
        ensures settings { result ≡ styled_settings }
    {
        Renderer {
            stylesheet: Stylesheet::styled(),
            hyperlink: true,
            ..Renderer::plain()
        }
    }

    /// The width that lines are cut to, in columns.
    pub fn term_width(mut self, term_width: usize) -> Renderer
        ensures changed { result ≡ record self { term_width = term_width } }
    {
        self.term_width = term_width;
        self
    }

    /// Whether the numbers of lines in snippets are shown as `LL`, so that texts don't change where lines move.
    pub fn anonymized_snippet_line_numbers(mut self, anonymized: bool) -> Renderer
        ensures changed { result ≡ record self { anonymized_snippet_line_numbers = anonymized } }
    {
        self.anonymized_snippet_line_numbers = anonymized;
        self
    }

    /// The switch [`anonymized_snippet_line_numbers`](Renderer::anonymized_snippet_line_numbers), by another name.
    pub fn anonymized_line_numbers(self, anonymized: bool) -> Renderer
        ensures changed { result ≡ record self { anonymized_snippet_line_numbers = anonymized } }
    {
        self.anonymized_snippet_line_numbers(anonymized)
    }

    /// Whether the numbers of lines after paths are shown as `LL`.
    pub fn anonymized_origin_line_numbers(mut self, anonymized: bool) -> Renderer
        ensures changed { result ≡ record self { anonymized_origin_line_numbers = anonymized } }
    {
        self.anonymized_origin_line_numbers = anonymized;
        self
    }

    /// The characters that strokes are drawn with.
    pub fn decor_style(mut self, decor_style: DecorStyle) -> Renderer
        ensures changed { result ≡ record self { decor_style = decor_style } }
    {
        self.decor_style = decor_style;
        self
    }

    /// Whether the identifiers of titles link to their addresses.
    pub fn hyperlink(mut self, hyperlink: bool) -> Renderer
        ensures changed { result ≡ record self { hyperlink = hyperlink } }
    {
        self.hyperlink = hyperlink;
        self
    }

    /// An error's level and its primary marks and labels are in this style.
    pub fn error(mut self, error: Style) -> Renderer
        ensures changed { result ≡ record self { stylesheet = record self.stylesheet { error = error } } }
    {
        self.stylesheet.error = error;
        self
    }

    /// A warning's level and its primary marks and labels are in this style.
    pub fn warning(mut self, warning: Style) -> Renderer
        ensures changed { result ≡ record self { stylesheet = record self.stylesheet { warning = warning } } }
    {
        self.stylesheet.warning = warning;
        self
    }

    /// An info's level and its primary marks and labels are in this style.
    pub fn info(mut self, info: Style) -> Renderer
        ensures changed { result ≡ record self { stylesheet = record self.stylesheet { info = info } } }
    {
        self.stylesheet.info = info;
        self
    }

    /// A note's level and its primary marks and labels are in this style.
    pub fn note(mut self, note: Style) -> Renderer
        ensures changed { result ≡ record self { stylesheet = record self.stylesheet { note = note } } }
    {
        self.stylesheet.note = note;
        self
    }

    /// A help's level and its primary marks and labels are in this style.
    pub fn help(mut self, help: Style) -> Renderer
        ensures changed { result ≡ record self { stylesheet = record self.stylesheet { help = help } } }
    {
        self.stylesheet.help = help;
        self
    }

    /// Line numbers and the strokes of the gutter are in this style.
    pub fn line_num(mut self, line_num: Style) -> Renderer
        ensures changed { result ≡ record self { stylesheet = record self.stylesheet { line_num = line_num } } }
    {
        self.stylesheet.line_num = line_num;
        self
    }

    /// The text of a title that stands out is in this style.
    pub fn emphasis(mut self, emphasis: Style) -> Renderer
        ensures changed { result ≡ record self { stylesheet = record self.stylesheet { emphasis = emphasis } } }
    {
        self.stylesheet.emphasis = emphasis;
        self
    }

    /// Marks and labels of context are in this style.
    pub fn context(mut self, context: Style) -> Renderer
        ensures changed { result ≡ record self { stylesheet = record self.stylesheet { context = context } } }
    {
        self.stylesheet.context = context;
        self
    }

    /// Text that a suggestion adds is in this style.
    pub fn addition(mut self, addition: Style) -> Renderer
        ensures changed { result ≡ record self { stylesheet = record self.stylesheet { addition = addition } } }
    {
        self.stylesheet.addition = addition;
        self
    }

    /// Text that a suggestion removes is in this style.
    pub fn removal(mut self, removal: Style) -> Renderer
        ensures changed { result ≡ record self { stylesheet = record self.stylesheet { removal = removal } } }
    {
        self.stylesheet.removal = removal;
        self
    }

    /// Everything that has no style of its own is in this style.
    pub fn none(mut self, none: Style) -> Renderer
        ensures changed { result ≡ record self { stylesheet = record self.stylesheet { none = none } } }
    {
        self.stylesheet.none = none;
        self
    }

    /// Whether a report is drawn on one line, for editors and logs: the title of its first group, after the place of
    /// its first annotated snippet and before the labels of that. Such a report needs a first group, with a title.
    pub fn short_message(mut self, short_message: bool) -> Renderer
        ensures changed { result ≡ record self { short_message = short_message } }
    {
        self.short_message = short_message;
        self
    }

    /// Whether a report is written without graphics, for speech and Braille; `short_message` isn't looked at then.
    pub fn no_graphics(mut self, no_graphics: bool) -> Renderer
        ensures changed { result ≡ record self { no_graphics = no_graphics } }
    {
        self.no_graphics = no_graphics;
        self
    }

    /// Whether line feeds of labels, paths, identifiers and level names are shown, as `␊`, U+240A, so that no such text
    /// can begin a line of the report. In the graphic form each row is then one line of the text.
    ///
    /// ```text
    /// 1 | let x = 1;
    ///   |     ^ here␊2 | let y = 666;
    /// ```
    ///
    /// They are drawn as they are unless this says otherwise. Nothing changes in sources, in patches, and in the texts
    /// of titles and messages, each line of which has a row. In the text form, where what a patch puts in has none, its
    /// line feeds are too: there each line begins a title, message, place or edit, or goes on with a title or message.
    pub fn show_line_feeds(mut self, show_line_feeds: bool) -> Renderer
        ensures changed { result ≡ record self { show_line_feeds = show_line_feeds } }
    {
        self.show_line_feeds = show_line_feeds;
        self
    }

    /// How many lines before and after each line that an annotated snippet keeps for its spans are shown too. They have
    /// no marks; where one line is left out between two that are shown it is shown as well, and more are elided.
    ///
    /// ```text
    /// Renderer::plain().context_lines(1, 2)
    ///
    ///   |
    /// 3 | for price in prices {
    /// 4 |     total += price;
    ///   |              ^^^^^
    /// 5 | }
    /// 6 | total
    ///   |
    /// ```
    ///
    /// None are shown unless this says so, nor in the short or text form, of suggestions, or past a source's ends.
    pub fn context_lines(mut self, before: usize, after: usize) -> Renderer
        ensures changed { result ≡ record self { context_before = before; context_after = after } }
    {
        self.context_before = before;
        self.context_after = after;
        self
    }

    /// Whether a line of a title, message or label that is wider than the room right of where it begins is broken: at
    /// the blanks, spaces or tabs, before the first word that has no room, which go; or where a word alone is wider
    /// before the first character that has no room. What follows is indented as further lines are.
    ///
    /// ```text
    /// Renderer::plain().term_width(40).wrap(true)
    ///
    /// error[E0502]: cannot borrow `scores` as
    ///               mutable because it is also
    ///               borrowed as immutable
    /// ```
    ///
    /// The room is that of the `term_width`; widths are those of [`str_width`](crate::text::str_width), but the codes
    /// of a text that may hold some take no room, and none is broken. Nothing is broken where the room has fewer than 4
    /// columns, for a label 20, nor in the short form and the text form, nor unless this says so. Labels are cut at
    /// their line feeds too, as where [`label_lines`](Renderer::label_lines) says so. Right of one that holds a
    /// character of more than one column nothing stands in its rows, and left of a mark that goes past the `term_width`
    /// none stands in the row of the marks.
    pub fn wrap(mut self, wrap: bool) -> Renderer
        ensures changed { result ≡ record self { wrap = wrap } }
    {
        self.wrap = wrap;
        self
    }

    /// Whether controls are masked that could change how a terminal shows the text around them: U+0080 to U+009F, the
    /// marks of direction U+061C, U+200E and U+200F, and the separators U+2028 and U+2029. For each stands a sign of as
    /// many bytes, `¤`, U+00A4, or U+FFFD, in all texts but addresses, so that spans stay. In secondary titles and
    /// messages the listed characters are shown as they are in other texts.
    ///
    /// They are drawn as they are unless this says otherwise.
    pub fn mask_controls(mut self, mask_controls: bool) -> Renderer
        ensures changed { result ≡ record self { mask_controls = mask_controls } }
    {
        self.mask_controls = mask_controls;
        self
    }

    /// Whether labels are cut at their line feeds in the graphic form. Each line of a label then stands in a row of its
    /// own, in the column in which the label begins, and what hangs lower stands below all of them:
    ///
    /// ```text
    /// 1 | let x = f(y);
    ///   |         - ^ expected `u8`
    ///   |         |   found `i8`
    ///   |         |
    ///   |         this function
    /// ```
    ///
    /// A line feed of a label breaks the page unless this, [`wrap`](Renderer::wrap), or
    /// [`show_line_feeds`](Renderer::show_line_feeds), says otherwise.
    pub fn label_lines(mut self, label_lines: bool) -> Renderer
        ensures changed { result ≡ record self { label_lines = label_lines } }
    {
        self.label_lines = label_lines;
        self
    }
}
