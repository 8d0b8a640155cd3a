//! The objects of the format, and what may stand where.

ghost use Rattle.std.specs.Prelude.{◌≡◌, OnOk};
ghost use Rattle.serde_json.specs.View.{view};
ghost use Rattle.json_lines.specs.Field.{lent_texts};
ghost use Rattle.replay_read.specs.Shape.{HasShape, names_of};

use json_lines::fault::Fault;
use json_lines::node::Node;
use std::fmt;

/// The fields of the settings.
const SETTINGS: &[&str] = &[
    "no_graphics",
    "short_message",
    "term_width",
    "unicode",
    "anonymized_snippet",
    "anonymized_origin",
    "hyperlink",
    "show_line_feeds",
    "context_before",
    "context_after",
    "wrap",
    "mask_controls",
    "label_lines",
];

/// The fields of a sheet.
const SHEET: &[&str] = &[
    "error", "warning", "info", "note", "help", "line_num", "emphasis", "none", "context",
    "addition", "removal",
];

/// The fields of an annotated source.
const CAUSE: &[&str] = &[
    "source",
    "path",
    "line_start",
    "line_numbering",
    "fold",
    "unit",
    "annotations",
];

/// The fields of a suggestion.
const SUGGESTION: &[&str] = &[
    "source",
    "path",
    "line_start",
    "line_numbering",
    "fold",
    "unit",
    "patches",
];

/// The fields of an annotation.
const ANNOTATION: &[&str] = &[
    "kind",
    "start",
    "end",
    "from",
    "to",
    "label",
    "highlight_source",
];

/// The fields of the answer to a case that is refused.
const REFUSAL: &[&str] = &[
    "id", "refused", "text", "group", "element", "marker", "first", "second",
];

/// An object of the format, which has fields of its own names.
#[derive(Clone, Copy)]
pub enum Shape {
    Case,
    Settings,
    Sheet,
    Style,
    Color,
    Group,
    Title,
    Level,
    Element,
    Message,
    Cause,
    Suggestion,
    Annotation,
    Patch,
    Place,
    Origin,
    Padding,
    Texts,
    Refusal,
}

impl Shape {
    /// The names of its fields.
    pub fn names(self) -> &'static [&'static str]
        ensures value { lent_texts result.now ≡ names_of self }
    {
        match self {
            Shape::Case => &[
                "id",
                "settings",
                "sheets",
                "html",
                "html_page",
                "markdown",
                "sources",
                "groups",
            ],
            Shape::Settings => SETTINGS,
            Shape::Sheet => SHEET,
            Shape::Style => &["fg", "bg", "effects"],
            Shape::Color => &["ansi256", "rgb"],
            Shape::Group => &["title", "level", "elements"],
            Shape::Title => &["level", "text", "primary", "id", "url"],
            Shape::Level => &["kind", "name"],
            Shape::Element => &["message", "cause", "suggestion", "origin", "padding"],
            Shape::Message => &["level", "text"],
            Shape::Cause => CAUSE,
            Shape::Suggestion => SUGGESTION,
            Shape::Annotation => ANNOTATION,
            Shape::Patch => &["start", "end", "from", "to", "text"],
            Shape::Place => &["line", "column"],
            Shape::Origin => &["path", "line", "column"],
            Shape::Padding => &[],
            Shape::Texts => &["id", "ok"],
            Shape::Refusal => REFUSAL,
        }
    }
}

/// Nothing, if the value is an object and has only fields of this shape.
pub fn has_shape(node: &Node<'_, '_>, shape: Shape) -> Result<(), Fault>
    ensures only { OnOk result (HasShape shape (view node.now.value.now)) }
{
    node.has_only(shape.names())
}

/// A value of the format that has to stand at a place.
#[derive(Clone, Copy)]
pub enum FormatValue {
    ObjectOrNull,
    LevelKind,
    AnnotationKind,
    SpanUnit,
    /// The source of a snippet.
    Source,
    /// Nothing, beside a span's places.
    NoNumber,
    Element,
    Sheet,
    Color,
    Rgb,
    Effect,
}

impl fmt::Display for FormatValue {
    fn fmt<W: fmt::Write>(&self, f: &mut fmt::Formatter<W>) -> fmt::Result {
        f.write_str(match self {
            FormatValue::ObjectOrNull => "an object or null",
            FormatValue::LevelKind => "\"error\", \"warning\", \"info\", \"note\" or \"help\"",
            FormatValue::AnnotationKind => "\"primary\", \"context\" or \"visible\"",
            FormatValue::SpanUnit => "\"byte\", \"char\" or \"utf16\"",
            FormatValue::Source => "a text, or the number of one of the sources",
            FormatValue::NoNumber => "nothing beside from and to",
            FormatValue::Element => {
                "an object with one of message, cause, suggestion, origin and padding"
            }
            FormatValue::Sheet => "\"plain\", \"default\" or an object",
            FormatValue::Color => {
                "the name of a colour, as \"BrightRed\", or an object with ansi256 or rgb"
            }
            FormatValue::Rgb => "a list of three whole numbers from 0 to 255",
            FormatValue::Effect => "the name of an effect, as \"BOLD\"",
        })
    }
}
