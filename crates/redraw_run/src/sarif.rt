//! A log, whose results are drawn one after another.
ghost use Rattle.std.specs.Prelude.{◌≡◌, ◌<◌, IfErr, length, map, slice_index_or};
ghost use Rattle.std.specs.Global.{Vec};
ghost use Rattle.serde_json.specs.Data.{Data};
ghost use Rattle.serde_json.specs.View.{view};
ghost use Rattle.json_lines.specs.Cut.{IsCutOf};
ghost use Rattle.json_lines.specs.declared.cut.Stretch.{Stretch};
ghost use Rattle.redraw_run.specs.Deeds.{Happens, TellsAll, standing};
ghost use Rattle.redraw_run.specs.Fates.{AreRuns, IsCutLog, IsCutRun, IsLogRun, IsResult};
ghost use Rattle.redraw_tools.specs.Log.{IsRunOf};
ghost use Rattle.redraw_tools.specs.declared.log.LogForm.{LogForm};
ghost use Rattle.output_stream.specs.Standing.{known};

use crate::draw::Drawing;
use crate::results::Results;
use json_lines::cut::{CutLog, Stretch};
use json_lines::lenient::{LenientNode, List, Problems, items_of};
use json_lines::place::JsonPath;
use output_stream::Stream;
use redraw_command::stop::Stop;
use redraw_read::sources::SourceFiles;
use redraw_tools::log::{LogForm, LogRun};
use serde_json::Value;
use std::io::Write;

/// Draws what the results of a log's runs tell, each before the next is read.
pub fn draw_runs<S: SourceFiles + Drop, W: Write, V: Write>(
    runs: &[Value],
    place: JsonPath<'_>,
    form: LogForm,
    drawing: &mut Drawing<'_, S>,
    out: &mut Stream<W>,
    err: &mut Stream<V>,
) -> Result<(), Stop>
    ensures does { Happens result (AreRuns form (map view runs.now))
        (standing drawing.old (known W.contents out.old) (known V.contents err.old))
        (standing drawing.new (known W.contents out.new) (known V.contents err.new)) }
{
    let runs = List { items: runs, place };
    for (index, value) in runs.items.iter().enumerate() {
        draw_run(runs.node(index, value), form, drawing, out, err)?;
    }
    Ok(())
}

/// Draws what the results of a run tell.
pub fn draw_run<S: SourceFiles + Drop, W: Write, V: Write>(
    node: LenientNode<'_, '_>,
    form: LogForm,
    drawing: &mut Drawing<'_, S>,
    out: &mut Stream<W>,
    err: &mut Stream<V>,
) -> Result<(), Stop>
    ensures does { Happens result (IsLogRun form (view node.entry.value.now))
        (standing drawing.old (known W.contents out.old) (known V.contents err.old))
        (standing drawing.new (known W.contents out.new) (known V.contents err.new)) }
{
    let mut problems = Problems::new(drawing.alloc);
    let columns = drawing.choice.columns;
    let run = LogRun::new(drawing.alloc, form, node, columns, &mut problems);
    let results = run.results(&mut problems);
    tell_all(&problems, drawing, err)?;
    for (index, value) in results.items.iter().enumerate() {
        draw_result(&run, &results.node(index, value), drawing, out, err)?;
    }
    Ok(())
}

/// Draws what the results of a log's runs tell that is read without them: they stand in this text, and each is drawn
/// before the next is read.
pub fn draw_cut_runs<S: SourceFiles + Drop, W: Write, V: Write>(
    log: &CutLog,
    text: &[u8],
    drawing: &mut Drawing<'_, S>,
    out: &mut Stream<W>,
    err: &mut Stream<V>,
) -> Result<(), Stop>
    ensures does { (d : Data) → IsCutOf d log.now → Happens result (IsCutLog text.now d)
        (standing drawing.old (known W.contents out.old) (known V.contents err.old))
        (standing drawing.new (known W.contents out.new) (known V.contents err.new)) }
{
    let document = JsonPath::Document;
    let place = JsonPath::Field(&document, "runs");
    let items = items_of(log.value.get("runs"));
    let runs = List { items, place };
    let mut results = Results::new(drawing.alloc, text);
    for (index, value) in runs.items.iter().enumerate() {
        let places = places_of(log, index);
        draw_cut_run(
            runs.node(index, value),
            places,
            &mut results,
            drawing,
            out,
            err,
        )?;
    }
    Ok(())
}

/// Where the results of the run with this index stand.
fn places_of(log: &CutLog, index: usize) -> &[Stretch]
    ensures own { (own : Vec Stretch) → index < length log.now.results.items
        → result.now ≡ (slice_index_or log.now.results.items index own).items }
{
    if index < log.results.len() {
        log.results[index].as_slice()
    } else {
        &[]
    }
}

/// Draws what the results of a run tell that stand in these places.
fn draw_cut_run<'x, S: SourceFiles + Drop, W: Write, V: Write>(
    node: LenientNode<'x, 'x>,
    places: &[Stretch],
    results: &mut Results<'_>,
    drawing: &mut Drawing<'_, S>,
    out: &mut Stream<W>,
    err: &mut Stream<V>,
) -> Result<(), Stop>
    ensures does { Happens result (IsCutRun results.old.text.now (length places.now) (view node.entry.value.now))
        (standing drawing.old (known W.contents out.old) (known V.contents err.old))
        (standing drawing.new (known W.contents out.new) (known V.contents err.new)) }
    ensures kept { results.new.text ≡ results.old.text }
{
    let mut problems = Problems::new(drawing.alloc);
    let columns = drawing.choice.columns;
    let run = LogRun::new(drawing.alloc, LogForm::Sarif, node, columns, &mut problems);
    let list = run.results(&mut problems);
    tell_all(&problems, drawing, err)?;
    for (index, place) in places.iter().enumerate() {
        let value = results.read(*place)?;
        let reported = LenientNode {
            value: &value,
            place: JsonPath::Item(&list.place, index),
        };
        draw_result(&run, &reported, drawing, out, err)?;
    }
    Ok(())
}

/// Draws what a result of a run reports, after what is wrong with it.
fn draw_result<S: SourceFiles + Drop, W: Write, V: Write>(
    run: &LogRun<'_, '_>,
    reported: &LenientNode<'_, '_>,
    drawing: &mut Drawing<'_, S>,
    out: &mut Stream<W>,
    err: &mut Stream<V>,
) -> Result<(), Stop>
    ensures does { (form : LogForm) (d : Data) → IsRunOf form drawing.old.choice.columns d run.now
        → Happens result (IsResult form d (view reported.now.value.now))
        (standing drawing.old (known W.contents out.old) (known V.contents err.old))
        (standing drawing.new (known W.contents out.new) (known V.contents err.new)) }
{
    let mut problems = Problems::new(drawing.alloc);
    let found = run.finding(drawing.alloc, reported, &mut problems)?;
    tell_all(&problems, drawing, err)?;
    match found {
        Some(diagnostic) => drawing.take(diagnostic, None, out, err),
        None => {
            drawing.leave_out();
            Ok(())
        }
    }
}

/// Tells what is wrong with a part of a log.
fn tell_all<S: SourceFiles + Drop, V: Write>(
    problems: &Problems,
    drawing: &Drawing<'_, S>,
    err: &mut Stream<V>,
) -> Result<(), Stop>
    ensures told { TellsAll (known V.contents err.old) (known V.contents err.new) }
    ensures memory { IfErr result (λ stop. stop ≡ Stop.Memory) }
{
    for line in &problems.lines {
        drawing.tell(line.as_str(), err);
    }
    if problems.is_refused {
        return Err(Stop::Memory);
    }
    Ok(())
}
