//! How many reports there are, by kind.
ghost use Rattle.std.specs.Prelude.{◌≡◌, ◌++◌, ◌==◌, ◌&&◌, IfOk, OnOk, string_bytes};
ghost use Rattle.redraw_run.specs.Counts as spec;

use itoa::Buffer;
use std::alloc::AllocError;

/// What a report counts as.
#[derive(Clone, Copy)]
pub enum Kind {
    Error,
    Warning,
    Other,
    /// It isn't counted: it only sums up others, or has no level.
    Uncounted,
}

/// How many reports there are of each kind.
#[derive(Clone, Copy)]
pub struct Counts {
    pub errors: u64,
    pub warnings: u64,
    pub others: u64,
}

impl Counts {
    /// None.
    pub fn new() -> Counts
        ensures value { result ≡ spec.no_counts }
    {
        Counts {
            errors: 0,
            warnings: 0,
            others: 0,
        }
    }

    /// With a report of this kind more.
    pub fn with(mut self, kind: Kind) -> Counts
        ensures value { result ≡ spec.counted self kind }
    {
        match kind {
            Kind::Error => self.errors = self.errors.saturating_add(1),
            Kind::Warning => self.warnings = self.warnings.saturating_add(1),
            Kind::Other => self.others = self.others.saturating_add(1),
            Kind::Uncounted => {}
        }
        self
    }

    /// Adds them in words, those that aren't none.
    pub fn add_to(self, text: &mut String) -> Result<(), AllocError>
        ensures added { OnOk result (string_bytes text.new ≡ string_bytes text.old ++ spec.counts_words self) }
    {
        let is_first = add_part(true, self.errors, "error", text)?;
        let is_first = add_part(is_first, self.warnings, "warning", text)?;
        if add_part(is_first, self.others, "other", text)? {
            text.push_str("no errors or warnings")?;
        }
        Ok(())
    }
}

/// Adds how many there are of one kind, if any, after a comma where others stand before it; and says whether none
/// stands there yet.
fn add_part(is_first: bool, count: u64, name: &str, text: &mut String) -> Result<bool, AllocError>
    ensures added { OnOk result (string_bytes text.new
        ≡ string_bytes text.old ++ spec.part is_first count name.now) }
    ensures first { IfOk result (λ still. still ≡ is_first && (count == 0)) }
{
    if count == 0 {
        return Ok(is_first);
    }
    if !is_first {
        text.push_str(", ")?;
    }
    let mut buffer = Buffer::new();
    text.push_str(buffer.format(count))?;
    text.push_str(" ")?;
    text.push_str(name)?;
    if count > 1 {
        text.push_str("s")?;
    }
    Ok(false)
}
