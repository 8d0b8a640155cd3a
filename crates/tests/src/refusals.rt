//! What refusals print: `Display`, which is derived and has no contract, prints the words that have one.
use annotate_snippets::renderer::{RenderError, RenderToError};
use std::alloc::{AllocError, Global};
use std::io;
use std::test::Fail;

/// The refusals that name numbers, with these ones.
fn numbered(a: usize, b: usize, c: usize, d: usize) -> [RenderError; 5] {
    [
        RenderError::SpanReversed {
            group: a,
            element: b,
            marker: c,
        },
        RenderError::SpanPastEnd {
            group: a,
            element: b,
            marker: c,
        },
        RenderError::SpanOffBoundary {
            group: a,
            element: b,
            marker: c,
        },
        RenderError::PatchesOverlap {
            group: a,
            element: b,
            first: c,
            second: d,
        },
        RenderError::LineNumberTooLarge {
            group: a,
            element: b,
        },
    ]
}

/// The refusals that name no numbers.
fn bare() -> [RenderError; 3] {
    [
        RenderError::NoGroup,
        RenderError::NoTitle,
        RenderError::Memory(AllocError),
    ]
}

/// Whether a refusal prints its words, alone and as what stopped a writer.
fn prints_its_words(alloc: Global, refusal: RenderError) -> Result<bool, AllocError> {
    let words = format!(in alloc; "{}", refusal.words())?;
    let alone = format!(in alloc; "{refusal}")?;
    let stop = RenderToError::Refused(refusal);
    let stop_words = format!(in alloc; "{}", stop.words())?;
    let stopped = format!(in alloc; "{stop}")?;
    Ok(alone == words && stopped == words && stop_words == words)
}

#[test]
fn prints_each_refusal_by_its_words(rt: HostRuntime) -> Result<(), Fail> {
    for refusal in bare() {
        assert!(rt; prints_its_words(rt.alloc(), refusal)?);
    }
    let big = usize::MAX;
    for (a, b, c, d) in [
        (0, 9, 10, big),
        (9, 10, big, 0),
        (10, big, 0, 9),
        (big, 0, 9, 10),
    ] {
        for refusal in numbered(a, b, c, d) {
            assert!(rt; prints_its_words(rt.alloc(), refusal)?);
        }
    }
    Ok(())
}

#[test]
fn says_where_and_what(rt: HostRuntime) -> Result<(), Fail> {
    let shown = [
        "group 9, element 10, marker 0: span is reversed",
        "group 9, element 10, marker 0: span ends past the source",
        "group 9, element 10, marker 0: span is off a character border",
        "group 9, element 10: markers 0 and 18446744073709551615 overlap",
        "group 9, element 10: line numbers are too large",
    ];
    for (refusal, text) in numbered(9, 10, 0, usize::MAX).iter().zip(shown) {
        assert_eq!(rt; format!(in rt.alloc(); "{refusal}")?.as_str(), text);
    }
    let shown = [
        "a short message needs a group",
        "a short message needs a title",
        "out of memory",
    ];
    for (refusal, text) in bare().iter().zip(shown) {
        assert_eq!(rt; format!(in rt.alloc(); "{refusal}")?.as_str(), text);
    }
    Ok(())
}

#[test]
fn says_why_a_writer_failed(rt: HostRuntime) -> Result<(), Fail> {
    let stop = RenderToError::Write(io::Error::new(io::ErrorKind::Other, "no room"));
    assert_eq!(rt;
        format!(in rt.alloc(); "{stop}")?.as_str(),
        "the report can't be written: no room"
    );
    assert_eq!(rt;
        format!(in rt.alloc(); "{}", stop.words())?.as_str(),
        "the report can't be written"
    );
    Ok(())
}
