//! The texts of a report in the forms that are drawn whole before they are printed: the short form and the text form.
ghost use Rattle.std.specs.Prelude.{◌≡◌, All, None, IfOk, map, string_bytes};
ghost use Rattle.std.specs.List.{AllZip};
ghost use Rattle.annotate_snippets.specs.Fault as fault;
ghost use Rattle.annotate_snippets.specs.Laws.Forms.{LawsIn};
ghost use Rattle.annotate_snippets.specs.WithLaws.{IsTextUnder};
ghost use Rattle.annotate_snippets.specs.Walk.{IsShortForm};
ghost use Rattle.annotate_snippets.specs.Forms.{ShowsForm};
ghost use Rattle.annotate_snippets.specs.PreparedReport.{IsGroupDrawable};
ghost use Rattle.annotate_snippets.specs.declared.renderer.form.Form.TheVariants as form;

use crate::renderer::Renderer;
use crate::renderer::short::{ShortForm, short_form};
use crate::renderer::text_form::text_form;
use crate::snippet::Report;
use snippet_model::snippet::Group;
use snippet_style::Stylesheet;
use std::alloc::{AllocError, Global};

/// The text of a report's short form under a sheet.
///
/// # Errors
///
/// There is no memory for the text, or for what it is made of.
pub fn short_form_text(
    alloc: Global,
    renderer: &Renderer,
    groups: Report<'_>,
    sheet: &Stylesheet,
) -> Result<String, AllocError>
    requires drawable { All IsGroupDrawable groups.now }
    requires titled { fault.missing_title form.Short groups.now ≡ None }
    ensures text { IfOk result (λ text.
        IsTextUnder form.Short renderer.now groups.now sheet.now (string_bytes text)) }
{
    let form = first_title(alloc, renderer, groups)?;
    form.rows.render(alloc, form.level, sheet)
}

/// The texts of a report's short form, one under each of some sheets, in order.
///
/// # Errors
///
/// There is no memory for the texts, or for what they are made of.
pub fn short_form_texts(
    alloc: Global,
    renderer: &Renderer,
    groups: Report<'_>,
    sheets: &[Stylesheet],
) -> Result<Vec<String>, AllocError>
    requires drawable { All IsGroupDrawable groups.now }
    requires titled { fault.missing_title form.Short groups.now ≡ None }
    ensures shows { IfOk result (λ texts.
        ShowsForm form.Short renderer.now groups.now sheets.now (map string_bytes texts.items)) }
    ensures laws { IfOk result (λ texts.
        AllZip (LawsIn form.Short renderer.now groups.now) sheets.now (map string_bytes texts.items)) }
{
    let form = first_title(alloc, renderer, groups)?;
    let mut texts = Vec::new(alloc);
    for sheet in sheets {
        texts.push(form.rows.render(alloc, form.level, sheet)?)?;
    }
    Ok(texts)
}

/// The text of a report's text form under a sheet.
///
/// # Errors
///
/// There is no memory for the text, or for what it is made of.
pub fn text_form_text(
    alloc: Global,
    renderer: &Renderer,
    groups: Report<'_>,
    sheet: &Stylesheet,
) -> Result<String, AllocError>
    requires drawable { All IsGroupDrawable groups.now }
    ensures text { IfOk result (λ text.
        IsTextUnder form.Text renderer.now groups.now sheet.now (string_bytes text)) }
{
    let form = text_form(alloc, renderer, groups)?;
    form.render(alloc, sheet)
}

/// The texts of a report's text form, one under each of some sheets, in order.
///
/// # Errors
///
/// There is no memory for the texts, or for what they are made of.
pub fn text_form_texts(
    alloc: Global,
    renderer: &Renderer,
    groups: Report<'_>,
    sheets: &[Stylesheet],
) -> Result<Vec<String>, AllocError>
    requires drawable { All IsGroupDrawable groups.now }
    ensures shows { IfOk result (λ texts.
        ShowsForm form.Text renderer.now groups.now sheets.now (map string_bytes texts.items)) }
    ensures laws { IfOk result (λ texts.
        AllZip (LawsIn form.Text renderer.now groups.now) sheets.now (map string_bytes texts.items)) }
{
    let form = text_form(alloc, renderer, groups)?;
    let mut texts = Vec::new(alloc);
    for sheet in sheets {
        texts.push(form.render(alloc, sheet)?)?;
    }
    Ok(texts)
}

/// The short form: that of the first group, which has a title.
fn first_title<'a>(
    alloc: Global,
    renderer: &Renderer,
    groups: &'a [Group<'a>],
) -> Result<ShortForm<'a>, AllocError>
    requires drawable { All IsGroupDrawable groups.now }
    requires titled { fault.missing_title form.Short groups.now ≡ None }
    ensures drawn { IfOk result (λ form. IsShortForm renderer.now groups.now form) }
{
    match groups.first() {
        Some(group) => match &group.title {
            Some(title) => short_form(alloc, renderer, group, title),
            None => unreachable!(),
        },
        None => unreachable!(),
    }
}
