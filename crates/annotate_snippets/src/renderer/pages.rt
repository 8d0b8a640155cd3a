//! The texts of a report under several sheets. In the graphic form each group is drawn once, and printed under each
//! sheet.
ghost use Rattle.std.specs.Prelude.{◌≡◌, [], ◌∷◌, All, IfOk, None, OnOk, map, string_bytes};
ghost use Rattle.std.specs.List.{AllZip};
ghost use Rattle.annotate_snippets.specs.Fault as spec;
ghost use Rattle.annotate_snippets.specs.Laws.Forms.{LawsIn};
ghost use Rattle.annotate_snippets.specs.WithLaws.{IsTextUnder};
ghost use Rattle.annotate_snippets.specs.Forms.{ShowsForm};
ghost use Rattle.annotate_snippets.specs.PreparedReport.{IsGroupDrawable};
ghost use Rattle.annotate_snippets.specs.Written.{AddsToPage, IsEmptyPage};
ghost use Rattle.annotate_snippets.specs.declared.renderer.form.Form.TheVariants as form;

use crate::renderer::Renderer;
use crate::renderer::drawn::{short_form_texts, text_form_texts};
use crate::renderer::element_context::GroupContext;
use crate::renderer::form::Form;
use crate::renderer::graphic::{draw_group, draw_page};
use crate::renderer::page::{SheetPage, fed, text_in_form};
use crate::renderer::page_sink::PageSink;
use crate::renderer::preprocess::PreparedGroup;
use crate::snippet::Report;
use snippet_grid::{SheetCodes, StyledBuffer};
use snippet_style::{LevelInner, Stylesheet};
use std::alloc::{AllocError, Global};
use std::mem;

/// The texts of a report in a form, one under each of some sheets, in order. Without sheets nothing is drawn.
///
/// # Errors
///
/// There is no memory for the texts, or for what they are made of.
pub fn texts_in_form(
    alloc: Global,
    renderer: &Renderer,
    form: Form,
    groups: Report<'_>,
    sheets: &[Stylesheet],
) -> Result<Vec<String>, AllocError>
    requires drawable { All IsGroupDrawable groups.now }
    requires titled { spec.missing_title form groups.now ≡ None }
    ensures shows { IfOk result (λ texts.
        ShowsForm form renderer.now groups.now sheets.now (map string_bytes texts.items)) }
    ensures laws { IfOk result (λ texts.
        AllZip (LawsIn form renderer.now groups.now) sheets.now (map string_bytes texts.items)) }
{
    if sheets.is_empty() {
        return Ok(Vec::new(alloc));
    }
    if let [sheet] = sheets {
        let text = text_in_form(alloc, renderer, form, groups, sheet)?;
        return alone(alloc, text);
    }
    match form {
        Form::Graphic => page_texts(alloc, renderer, groups, sheets),
        Form::Short => short_form_texts(alloc, renderer, groups, sheets),
        Form::Text => text_form_texts(alloc, renderer, groups, sheets),
    }
}

/// A list of one text.
fn alone(alloc: Global, text: String) -> Result<Vec<String>, AllocError>
    ensures value { IfOk result (λ texts. texts.items ≡ text ∷ []) }
{
    let mut texts = Vec::new(alloc);
    texts.push(text)?;
    Ok(texts)
}

/// The texts of a report's graphic form, a group at a time.
fn page_texts(
    alloc: Global,
    renderer: &Renderer,
    groups: Report<'_>,
    sheets: &[Stylesheet],
) -> Result<Vec<String>, AllocError>
    requires drawable { All IsGroupDrawable groups.now }
    ensures texts { IfOk result (λ texts.
        AllZip (IsTextUnder form.Graphic renderer.now groups.now) sheets.now (map string_bytes texts.items)) }
{
    let mut pages = SheetPages {
        pages: empty_pages(alloc, sheets)?,
    };
    draw_page(alloc, renderer, groups, &mut pages)?;
    texts_of(alloc, pages.pages)
}

/// The pages of a report, one under each of some sheets, as far as they are printed.
#[derive(Drop)]
struct SheetPages {
    /// The pages.
    pages: Vec<SheetPage>,
}

impl PageSink for SheetPages {
    ghost use Rattle.std.specs.List.{AllZip};
    ghost use Rattle.annotate_snippets.specs.Page.{group_rows};
    ghost use Rattle.annotate_snippets.specs.Written.{AddsToPage};

    type Error = AllocError;

    ghost took = { λ first g p q. AllZip (AddsToPage first g.level (group_rows g)) p.pages.items q.pages.items };

    ghost stopped = { λ first g error old new. Unit {0} };

    fn add<'a>(
        &mut self,
        alloc: Global,
        renderer: &Renderer,
        around: &GroupContext<'_>,
        group: PreparedGroup<'a>,
        empty: StyledBuffer<'a>,
    ) -> Result<StyledBuffer<'a>, AllocError> {
        let level = group.group.level;
        let mut buffer = draw_group(renderer, around, group, empty)?;
        print_rows(
            alloc,
            &buffer,
            level,
            around.place.is_first(),
            &mut self.pages,
        )?;
        buffer.clear();
        Ok(buffer)
    }
}

/// Pages on which nothing is printed yet, one under each of these sheets.
fn empty_pages(alloc: Global, sheets: &[Stylesheet]) -> Result<Vec<SheetPage>, AllocError>
    ensures empty { IfOk result (λ pages. AllZip IsEmptyPage sheets.now pages.items) }
{
    let mut pages = Vec::with_capacity(alloc, sheets.len())?;
    for sheet in sheets {
        pages.push(SheetPage {
            codes: SheetCodes::new(sheet),
            text: String::new(alloc),
        })?;
    }
    Ok(pages)
}

/// Prints a group's rows on each page, after a line feed unless it is the first.
fn print_rows(
    alloc: Global,
    rows: &StyledBuffer<'_>,
    level: LevelInner,
    is_first: bool,
    pages: &mut [SheetPage],
) -> Result<(), AllocError>
    ensures printed { OnOk result (AllZip (AddsToPage is_first level rows.now) pages.old pages.new) }
{
    for page in pages.iter_mut() {
        print_on(alloc, rows, level, is_first, page)?;
    }
    Ok(())
}

/// Prints a group's rows on a page, after a line feed unless it is the first.
fn print_on(
    alloc: Global,
    rows: &StyledBuffer<'_>,
    level: LevelInner,
    is_first: bool,
    page: &mut SheetPage,
) -> Result<(), AllocError>
    ensures printed { OnOk result (AddsToPage is_first level rows.now page.old page.new) }
{
    let text = mem::replace(&mut page.text, String::new(alloc));
    let lead = fed(text, is_first)?;
    page.text = rows.render_after(lead, level, &page.codes)?;
    Ok(())
}

/// The texts of some pages.
fn texts_of(alloc: Global, pages: Vec<SheetPage>) -> Result<Vec<String>, AllocError>
    ensures value { IfOk result (λ texts. texts.items ≡ map (λ page. page.text) pages.items) }
{
    let mut texts = Vec::with_capacity(alloc, pages.len())?;
    for page in pages {
        texts.push(page.text)?;
    }
    Ok(texts)
}
