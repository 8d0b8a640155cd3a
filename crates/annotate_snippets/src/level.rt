//! Levels, and their constants.

use crate::renderer::parts::LevelInner;
pub use snippet_model::level::{ERROR, HELP, INFO, Level, LevelName, NOTE, WARNING};

/// Proves, and does nothing else, that each constant that this module gives is the level of the kind that its name
/// says, shown by the name of the kind.
fn prove_constants() {
    prove!(matches!(
        &ERROR,
        Level {
            name: LevelName::Standard,
            kind: LevelInner::Error
        }
    ));
    prove!(matches!(
        &WARNING,
        Level {
            name: LevelName::Standard,
            kind: LevelInner::Warning
        }
    ));
    prove!(matches!(
        &INFO,
        Level {
            name: LevelName::Standard,
            kind: LevelInner::Info
        }
    ));
    prove!(matches!(
        &NOTE,
        Level {
            name: LevelName::Standard,
            kind: LevelInner::Note
        }
    ));
    prove!(matches!(
        &HELP,
        Level {
            name: LevelName::Standard,
            kind: LevelInner::Help
        }
    ));
}
