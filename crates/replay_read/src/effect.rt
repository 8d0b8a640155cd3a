//! The effects of a style, by their names.

ghost use Rattle.std.specs.Prelude.{◌≡◌};
ghost use Rattle.replay_read.specs.Sheet as spec;

use snippet_style::Effects;

/// Which effect is meant.
#[derive(Clone, Copy)]
pub enum EffectName {
    Bold,
    Dimmed,
    Italic,
    Underline,
    Blink,
    Invert,
    Hidden,
    Strikethrough,
}

/// The effects, in the order of [REPORTS.md](../../../docs/REPORTS.md).
pub const EFFECTS: [EffectName; 8] = [
    EffectName::Bold,
    EffectName::Dimmed,
    EffectName::Italic,
    EffectName::Underline,
    EffectName::Blink,
    EffectName::Invert,
    EffectName::Hidden,
    EffectName::Strikethrough,
];

impl EffectName {
    /// How it is written.
    pub fn as_str(self) -> &'static str
        ensures value { result.now ≡ spec.effect_name self }
    {
        match self {
            EffectName::Bold => "BOLD",
            EffectName::Dimmed => "DIMMED",
            EffectName::Italic => "ITALIC",
            EffectName::Underline => "UNDERLINE",
            EffectName::Blink => "BLINK",
            EffectName::Invert => "INVERT",
            EffectName::Hidden => "HIDDEN",
            EffectName::Strikethrough => "STRIKETHROUGH",
        }
    }

    /// The effect, alone.
    pub fn alone(self) -> Effects
        ensures value { result ≡ spec.effect_of self }
    {
        match self {
            EffectName::Bold => Effects::BOLD,
            EffectName::Dimmed => Effects::DIMMED,
            EffectName::Italic => Effects::ITALIC,
            EffectName::Underline => Effects::UNDERLINE,
            EffectName::Blink => Effects::BLINK,
            EffectName::Invert => Effects::INVERT,
            EffectName::Hidden => Effects::HIDDEN,
            EffectName::Strikethrough => Effects::STRIKETHROUGH,
        }
    }
}
