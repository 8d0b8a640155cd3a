//! What a pointer to kept sources leads to.

ghost use Rattle.std.specs.Prelude.{◌≡◌, ◌++◌, ◌<◌, ◌^◌, [], ◌∷◌, IfOk, OnErr, OnOk, length};
ghost use Rattle.yazgult_c.specs.Keeping as spec;
ghost use Rattle.yazgult_c.specs.Keeping.{IsKeeping};

use report_bytes::KeptSource;
use std::alloc::{AllocError, Global};

/// Sources that are kept, in the order of their numbers, and the answer that the last report over them was given no
/// room for.
#[derive(Drop)]
pub struct Kept {
    pub sources: Vec<KeptSource<'static>>,
    pub answer: Vec<u8>,
}

/// What became of a text that was to be kept.
#[derive(Clone, Copy)]
pub enum Keeping {
    /// It is kept.
    Done,
    /// A growth of memory was refused.
    Memory,
    /// It isn't UTF-8, or has 2^56 bytes or more.
    NoText,
}

/// A list of no sources. The one error is that memory ran out.
pub fn none(alloc: Global) -> Result<Box<Kept>, AllocError>
    ensures none { IfOk result (λ kept. kept.value.sources.items ≡ []) }
    ensures no_answer { IfOk result (λ kept. kept.value.answer.items ≡ []) }
{
    let kept = Kept {
        sources: Vec::new(alloc),
        answer: Vec::new(alloc),
    };
    Ok(Box::new(alloc, kept)?)
}

/// Keeps one source more, if its text is one.
pub fn keep(alloc: Global, text: &[u8], sources: &mut Vec<KeptSource<'static>>) -> Keeping
    ensures keeping { IsKeeping text.now sources.old.items sources.new.items result }
{
    if text.len() >= 1 << 56 {
        return Keeping::NoText;
    }
    match std::str::from_utf8(text) {
        Ok(text) => match push(alloc, text, sources) {
            Ok(()) => Keeping::Done,
            Err(_) => Keeping::Memory,
        },
        Err(_) => Keeping::NoText,
    }
}

/// Keeps one source more. The one error is that memory ran out: then nothing changes.
fn push(alloc: Global, text: &str, sources: &mut Vec<KeptSource<'static>>) -> Result<(), AllocError>
    requires fits { length text.now < 2 ^ 56 }
    ensures added { OnOk result (sources.new.items ≡ sources.old.items ++ text.now ∷ []) }
    ensures refused { OnErr result (sources.new.items ≡ sources.old.items) }
{
    let source = KeptSource::new(alloc, text)?;
    Ok(sources.push(source)?)
}

/// Keeps these sources after the others, shared with who had them. The one error is that memory ran out: then nothing
/// changes.
pub fn share(
    alloc: Global,
    from: &[KeptSource<'static>],
    into: &mut Vec<KeptSource<'static>>,
) -> Result<(), AllocError>
    ensures added { OnOk result (into.new.items ≡ into.old.items ++ from.now) }
    ensures refused { OnErr result (into.new.items ≡ into.old.items) }
{
    let mut more = shares(alloc, from)?;
    into.append(&mut more)
}

/// One more owner of each of these sources.
fn shares(
    alloc: Global,
    from: &[KeptSource<'static>],
) -> Result<Vec<KeptSource<'static>>, AllocError>
    ensures same { IfOk result (λ more. more.items ≡ from.now) }
{
    let mut more = Vec::new(alloc);
    for source in from {
        more.push(source.share()?)?;
    }
    Ok(more)
}

/// The number of what became of a text.
pub fn keeping_number(keeping: Keeping) -> i32
    ensures number { result ≡ spec.keeping_number keeping }
{
    match keeping {
        Keeping::Done => 0,
        Keeping::Memory => 1,
        Keeping::NoText => 2,
    }
}
