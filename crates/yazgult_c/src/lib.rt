//! The library for other languages: exports over bytes. Each that draws fills the caller's bytes as `snprintf` does: as
//! far as there is room, and answers how many bytes there are. Nothing is kept between calls but for sources that are
//! kept and given back.
#![tactic(auto)]

ghost use Rattle.std.specs.Prelude.{◌≡◌, ◌≢◌, ◌++◌, [], ℕ, List, codes, length, pos};
ghost use Rattle.yazgult_c.specs.AnswerBytes.{IsAnswerTo, IsLineAnswerTo, answer_bytes};
ghost use Rattle.yazgult_c.specs.GivenBytes.{IsGiven};
ghost use Rattle.yazgult_c.specs.Keeping.{IsKeeping, IsKept, IsLeft, answer_kept, keeping_number, left_of, texts_of};
ghost use Rattle.yazgult_c.specs.declared.sources.kept.Keeping.{Keeping};
ghost use Rattle.yazgult_c.specs.declared.answer.Answer.{Answer};

mod answer;
mod room;
mod sources;
mod write;

use answer::answer_to;
use replay_answer::line::line_answer;
use report_bytes::KeptSource;
use room::give;
use sources::Sources;
use sources::kept::{keep, keeping_number, none, share};
use std::alloc::Global;
use write::{NO_MEMORY, written};

/// Draws the report that stands in `input`, in the form of `docs/BINDINGS.md`, and gives the answer: texts, or why
/// there are none.
#[unsafe(no_mangle)]
pub extern "C" fn yazgult_draw(alloc: Global, input: &[u8], output: &mut [u8]) -> usize
    ensures answers { (answer : Answer) × IsAnswerTo [] input.now answer
        × IsGiven (answer_bytes answer) output.old output.new result }
{
    draw_over(alloc, &[], input, output).length
}

/// Draws the report that stands in `input`, over these sources that are kept, as `yazgult_draw` does: where the report
/// has a number in place of a source's text, it has the text of that one. An answer that there isn't room for is kept.
#[unsafe(no_mangle)]
pub extern "C" fn yazgult_draw_with(
    alloc: Global,
    input: &[u8],
    sources: &mut Sources,
    output: &mut [u8],
) -> usize
    requires there { IsKept sources.old }
    ensures answers { (answer : Answer) × IsAnswerTo (texts_of sources.old) input.now answer
        × IsGiven (answer_bytes answer) output.old output.new result
        × IsLeft answer (length output.old) (answer_kept sources.new) }
    ensures kept { texts_of sources.new ≡ texts_of sources.old }
    ensures there { IsKept sources.new }
{
    let mut kept = sources.take(alloc);
    kept.answer = Vec::new(alloc);
    let Drawn { length, left } = draw_over(alloc, &kept.sources, &*input, output);
    kept.answer = left;
    sources.put(kept);
    length
}

/// Gives the answer to the last report over these sources, if there wasn't room for it, and keeps it no longer.
#[unsafe(no_mangle)]
pub extern "C" fn yazgult_sources_answer(
    alloc: Global,
    sources: &mut Sources,
    output: &mut [u8],
) -> usize
    requires there { IsKept sources.old }
    ensures given { IsGiven (answer_kept sources.old) output.old output.new result }
    ensures gone { answer_kept sources.new ≡ [] }
    ensures kept { texts_of sources.new ≡ texts_of sources.old }
    ensures there { IsKept sources.new }
{
    let mut kept = sources.take(alloc);
    let length = give(&kept.answer, output);
    kept.answer = Vec::new(alloc);
    sources.put(kept);
    length
}

/// How many bytes an answer has, and the answer itself, if there wasn't room for it.
#[derive(Drop)]
struct Drawn {
    length: usize,
    left: Vec<u8>,
}

/// Draws a report over these sources that are kept, and leaves the answer if there isn't room for it.
#[tactic(auto, using(crate::proofs::Leaving::of_bytes, crate::proofs::Leaving::of_memory))]
fn draw_over<'v, 's>(
    alloc: Global,
    kept: &'v [KeptSource<'s>],
    input: &'v [u8],
    output: &mut [u8],
) -> Drawn
    ensures answers { (answer : Answer) × IsAnswerTo kept.now input.now answer
        × IsGiven (answer_bytes answer) output.old output.new result.length
        × IsLeft answer (length output.old) result.left.items }
{
    let room = output.len();
    let answer = answer_to(alloc, kept, input);
    match written(alloc, &answer) {
        Ok(bytes) => Drawn {
            length: give(&bytes, output),
            left: left_over(alloc, bytes, room),
        },
        Err(_) => Drawn {
            length: give(&NO_MEMORY, output),
            left: Vec::new(alloc),
        },
    }
}

/// The bytes of an answer, if there isn't room for them, else none.
fn left_over(alloc: Global, bytes: Vec<u8>, room: usize) -> Vec<u8>
    ensures left { result.items ≡ left_of room bytes.items }
{
    if bytes.len() > room {
        bytes
    } else {
        Vec::new(alloc)
    }
}

/// Puts an empty list of kept sources in place of what `sources` had, which isn't freed. Gives 0, or 1 where memory ran
/// out: then nothing changes.
#[unsafe(no_mangle)]
pub extern "C" fn yazgult_sources_new(alloc: Global, sources: &mut Sources) -> i32
    ensures made { result ≡ pos 0 → IsKept sources.new × (texts_of sources.new ≡ []) }
    ensures refused { result ≢ pos 0 → sources.new ≡ sources.old }
{
    match none(alloc) {
        Ok(kept) => {
            sources.put(kept);
            0
        }
        Err(_) => 1,
    }
}

/// Keeps one source more: copies its text and finds its lines. Gives 0; 1 where memory ran out; 2 where the text isn't
/// UTF-8, or has 2^56 bytes or more. Then nothing more is kept.
#[unsafe(no_mangle)]
pub extern "C" fn yazgult_sources_add(alloc: Global, text: &[u8], sources: &mut Sources) -> i32
    requires there { IsKept sources.old }
    ensures keeping { (keeping : Keeping) × (result ≡ keeping_number keeping)
        × IsKeeping text.now (texts_of sources.old) (texts_of sources.new) keeping }
    ensures there { IsKept sources.new }
{
    let mut kept = sources.take(alloc);
    let keeping = keep(alloc, text, &mut kept.sources);
    sources.put(kept);
    keeping_number(keeping)
}

/// Keeps the sources of `from` after those of `into`, too: both lists share them. Gives 0, or 1 where memory ran out:
/// then nothing changes.
#[unsafe(no_mangle)]
pub extern "C" fn yazgult_sources_share(
    alloc: Global,
    from: &mut Sources,
    into: &mut Sources,
) -> i32
    requires there { IsKept from.old × IsKept into.old }
    ensures shared { result ≡ pos 0 → texts_of into.new ≡ texts_of into.old ++ texts_of from.old }
    ensures refused { result ≢ pos 0 → texts_of into.new ≡ texts_of into.old }
    ensures same { texts_of from.new ≡ texts_of from.old }
    ensures there { IsKept from.new × IsKept into.new }
{
    let theirs = from.take(alloc);
    let mut ours = into.take(alloc);
    let done = share(alloc, &theirs.sources, &mut ours.sources);
    from.put(theirs);
    into.put(ours);
    match done {
        Ok(()) => 0,
        Err(_) => 1,
    }
}

/// Frees kept sources: there are none afterwards.
#[unsafe(no_mangle)]
pub extern "C" fn yazgult_sources_free(alloc: Global, sources: &mut Sources)
    requires there { IsKept sources.old }
{
    drop(sources.take(alloc));
}

/// What is given for a line where there was no memory to answer it.
const NO_MEMORY_LINE: &str = "{\"error\":\"out of memory\",\"line\":1}";

/// Draws the report that stands in `input`, a line of JSON in the form of `docs/REPORTS.md`, and gives what `replay
/// --keep-going` answers to that line, without a line feed.
#[unsafe(no_mangle)]
pub extern "C" fn yazgult_draw_json(alloc: Global, input: &[u8], output: &mut [u8]) -> usize
    ensures answers { (text : List ℕ) × IsLineAnswerTo input.now text × IsGiven text output.old output.new result }
{
    match line_answer(alloc, input) {
        Ok(text) => give(text.as_bytes(), output),
        Err(_) => give(NO_MEMORY_LINE.as_bytes(), output),
    }
}

/// Gives the version of the library.
#[unsafe(no_mangle)]
pub extern "C" fn yazgult_version(output: &mut [u8]) -> usize
    ensures version { IsGiven (codes "1.0.0") output.old output.new result }
{
    give(b"1.0.0", output)
}
