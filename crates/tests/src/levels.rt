//! The order of levels: by their names, those of their own last, and then by their kinds.

use annotate_snippets::OptionCow;
use annotate_snippets::level::{ERROR, HELP, INFO, Level, NOTE, WARNING};
use annotate_snippets::renderer::parts::LevelInner;
use std::cmp::Ordering;

/// Levels in ascending order.
fn levels() -> [Level<'static>; 9] {
    [
        ERROR,
        WARNING,
        INFO,
        NOTE,
        HELP,
        ERROR.no_name(),
        HELP.no_name(),
        ERROR.with_name(OptionCow::from("a")),
        ERROR.with_name(OptionCow::from("b")),
    ]
}

/// Whether a level of this number compares with each level as the numbers do, and equals itself alone.
fn is_in_order(level: &Level<'_>, number: usize, levels: &[Level<'_>]) -> bool {
    levels.iter().enumerate().all(|(other_number, other)| {
        level.cmp(other) == number.cmp(&other_number)
            && (level == other) == (number == other_number)
    })
}

#[test]
fn orders_levels(rt: HostRuntime) {
    let levels = levels();
    for (number, level) in levels.iter().enumerate() {
        assert!(rt; is_in_order(level, number, &levels));
    }
}

/// Whether this is the level of a kind, by both of its names.
fn is_of_kind(kind: LevelInner, level: Level<'_>, own: Level<'_>) -> bool {
    Level::standard(kind) == level && level == own
}

#[test]
fn names_a_level_of_each_kind(rt: HostRuntime) {
    assert!(rt; is_of_kind(LevelInner::Error, ERROR, Level::ERROR));
    assert!(rt; is_of_kind(LevelInner::Warning, WARNING, Level::WARNING));
    assert!(rt; is_of_kind(LevelInner::Info, INFO, Level::INFO));
    assert!(rt; is_of_kind(LevelInner::Note, NOTE, Level::NOTE));
    assert!(rt; is_of_kind(LevelInner::Help, HELP, Level::HELP));
}
