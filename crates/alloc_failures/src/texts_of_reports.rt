//! The texts that the reports have to give.

use crate::drawn::Texts;
use crate::reports::Subject;
use annotate_snippets::renderer::DEFAULT_TERM_WIDTH;

/// The reports that are drawn, each with its texts.
pub const REPORTS: &[(Subject, Texts)] = &[
    (
        Subject::Labelled,
        Texts {
            name: "one span with a label",
            width: DEFAULT_TERM_WIDTH,
            graphic: "error: unused\n  |\n1 | let x = 1;\n  |     ^ here",
            short: "error: unused: here",
            text_form: "error: unused\n on line 1, column 5: here",
            styled: "\u{1b}[1m\u{1b}[91merror\u{1b}[0m\u{1b}[1m: unused\u{1b}[0m\n  \u{1b}[1m\u{1b}[94m|\u{1b}[0m\n\
                \u{1b}[1m\u{1b}[94m1\u{1b}[0m \u{1b}[1m\u{1b}[94m|\u{1b}[0m let x = 1;\n  \u{1b}[1m\u{1b}[94m\
                |\u{1b}[0m     \u{1b}[1m\u{1b}[91m^\u{1b}[0m \u{1b}[1m\u{1b}[91mhere\u{1b}[0m",
        },
    ),
    (
        Subject::TwoLabels,
        Texts {
            name: "two spans with labels on a line",
            width: DEFAULT_TERM_WIDTH,
            graphic: "error: e\n  |\n1 | ab cd\n  | -- ^^ c\n  | |\n  | a",
            short: "error: e: c",
            text_form: "error: e\n on line 1, column 4: c\n on line 1: a",
            styled: concat!(
                "\u{1b}[1m\u{1b}[91merror\u{1b}[0m\u{1b}[1m: e\u{1b}[0m\n",
                "  \u{1b}[1m\u{1b}[94m|\u{1b}[0m\n",
                "\u{1b}[1m\u{1b}[94m1\u{1b}[0m \u{1b}[1m\u{1b}[94m|\u{1b}[0m ab cd\n",
                "  \u{1b}[1m\u{1b}[94m|\u{1b}[0m \u{1b}[1m\u{1b}[94m--\u{1b}[0m \u{1b}[1m\u{1b}[91m\
                    ^^\u{1b}[0m \u{1b}[1m\u{1b}[91mc\u{1b}[0m\n",
                "  \u{1b}[1m\u{1b}[94m|\u{1b}[0m \u{1b}[1m\u{1b}[94m|\u{1b}[0m\n",
                "  \u{1b}[1m\u{1b}[94m|\u{1b}[0m \u{1b}[1m\u{1b}[94ma\u{1b}[0m",
            ),
        },
    ),
    (
        Subject::SeveralLines,
        Texts {
            name: "a span of several lines",
            width: DEFAULT_TERM_WIDTH,
            graphic: "error: e\n  |\n1 | / a {\n2 | |  b\n3 | | }\n  | |_^",
            short: "error: e",
            text_form: "error: e\n on line 1 to line 3",
            styled: concat!(
                "\u{1b}[1m\u{1b}[91merror\u{1b}[0m\u{1b}[1m: e\u{1b}[0m\n",
                "  \u{1b}[1m\u{1b}[94m|\u{1b}[0m\n",
                "\u{1b}[1m\u{1b}[94m1\u{1b}[0m \u{1b}[1m\u{1b}[94m|\u{1b}[0m \u{1b}[1m\u{1b}[91m/\u{1b}[0m a {\n",
                "\u{1b}[1m\u{1b}[94m2\u{1b}[0m \u{1b}[1m\u{1b}[94m|\u{1b}[0m \u{1b}[1m\u{1b}[91m|\u{1b}[0m  b\n",
                "\u{1b}[1m\u{1b}[94m3\u{1b}[0m \u{1b}[1m\u{1b}[94m|\u{1b}[0m \u{1b}[1m\u{1b}[91m|\u{1b}[0m }\n",
                "  \u{1b}[1m\u{1b}[94m|\u{1b}[0m \u{1b}[1m\u{1b}[91m|_^\u{1b}[0m",
            ),
        },
    ),
    (
        Subject::CutLine,
        Texts {
            name: "a line that is cut on both sides",
            width: 20,
            graphic: "error: e\n  |\n1 | ...aaaaTaaaaa...\n  |        ^",
            short: "error: e",
            text_form: "error: e\n on line 1, column 31",
            styled: concat!(
                "\u{1b}[1m\u{1b}[91merror\u{1b}[0m\u{1b}[1m: e\u{1b}[0m\n",
                "  \u{1b}[1m\u{1b}[94m|\u{1b}[0m\n",
                "\u{1b}[1m\u{1b}[94m1\u{1b}[0m \u{1b}[1m\u{1b}[94m|\u{1b}[0m \u{1b}[1m\u{1b}[94m...\u{1b}[0m\
                    aaaaTaaaaa\u{1b}[1m\u{1b}[94m...\u{1b}[0m\n",
                "  \u{1b}[1m\u{1b}[94m|\u{1b}[0m        \u{1b}[1m\u{1b}[91m^\u{1b}[0m",
            ),
        },
    ),
    (
        Subject::NoteBelow,
        Texts {
            name: "a note below a snippet",
            width: DEFAULT_TERM_WIDTH,
            graphic: "error: e\n  |\n1 | ab\n  | ^\n  |\n  = note: m",
            short: "error: e",
            text_form: "error: e\n on line 1\n note: m",
            styled: concat!(
                "\u{1b}[1m\u{1b}[91merror\u{1b}[0m\u{1b}[1m: e\u{1b}[0m\n",
                "  \u{1b}[1m\u{1b}[94m|\u{1b}[0m\n",
                "\u{1b}[1m\u{1b}[94m1\u{1b}[0m \u{1b}[1m\u{1b}[94m|\u{1b}[0m ab\n",
                "  \u{1b}[1m\u{1b}[94m|\u{1b}[0m \u{1b}[1m\u{1b}[91m^\u{1b}[0m\n",
                "  \u{1b}[1m\u{1b}[94m|\u{1b}[0m\n",
                "  \u{1b}[1m\u{1b}[94m= \u{1b}[0m\u{1b}[1mnote\u{1b}[0m: m",
            ),
        },
    ),
    (
        Subject::Origin,
        Texts {
            name: "a title with an id, and an origin",
            width: DEFAULT_TERM_WIDTH,
            graphic: "error[E0308]: mismatched types\n--> $DIR/mismatched-types.rs",
            short: "error[E0308]: mismatched types",
            text_form: "error E0308: mismatched types\n at $DIR/mismatched-types.rs",
            styled: "\u{1b}[1m\u{1b}[91merror[E0308]\u{1b}[0m\u{1b}[1m: mismatched types\u{1b}[0m\n\
                \u{1b}[1m\u{1b}[94m--> \u{1b}[0m$DIR/mismatched-types.rs",
        },
    ),
    (
        Subject::TwoOffers,
        Texts {
            name: "two suggestions",
            width: DEFAULT_TERM_WIDTH,
            graphic: "help: t\n  |\n1 | foo(x)\n  |     +\n1 | foo(y)\n  |     +",
            short: "help: t",
            text_form: "help: t\n option 1\n  on line 1, column 5 add: x\n option 2\n  on line 1, column 5 add: y",
            styled: concat!(
                "\u{1b}[1m\u{1b}[96mhelp\u{1b}[0m: t\n",
                "  \u{1b}[1m\u{1b}[94m|\u{1b}[0m\n",
                "\u{1b}[1m\u{1b}[94m1\u{1b}[0m \u{1b}[1m\u{1b}[94m| \u{1b}[0mfoo(\u{1b}[92mx\u{1b}[0m)\n",
                "  \u{1b}[1m\u{1b}[94m|\u{1b}[0m     \u{1b}[92m+\u{1b}[0m\n",
                "\u{1b}[1m\u{1b}[94m1\u{1b}[0m \u{1b}[1m\u{1b}[94m| \u{1b}[0mfoo(\u{1b}[92my\u{1b}[0m)\n",
                "  \u{1b}[1m\u{1b}[94m|\u{1b}[0m     \u{1b}[92m+\u{1b}[0m",
            ),
        },
    ),
    (
        Subject::TwoPatches,
        Texts {
            name: "a suggestion of two patches",
            width: DEFAULT_TERM_WIDTH,
            graphic: "help: t\n  |\n1 ~ xa\n2 | c\n  |",
            short: "help: t",
            text_form: "help: t\n on line 1, column 1 add: x\n on line 2, column 1",
            styled: "\u{1b}[1m\u{1b}[96mhelp\u{1b}[0m: t\n  \u{1b}[1m\u{1b}[94m|\u{1b}[0m\n\
                \u{1b}[1m\u{1b}[94m1\u{1b}[0m \u{1b}[92m~ x\u{1b}[0ma\n\
                \u{1b}[1m\u{1b}[94m2\u{1b}[0m \u{1b}[1m\u{1b}[94m|\u{1b}[0m c\n  \u{1b}[1m\u{1b}[94m|\u{1b}[0m",
        },
    ),
    (
        Subject::Unset,
        Texts {
            name: "a title whose level has no name, with an id that has neither text nor address",
            width: DEFAULT_TERM_WIDTH,
            graphic: "e",
            short: "e",
            text_form: "e",
            styled: "\u{1b}[1me\u{1b}[0m",
        },
    ),
];
