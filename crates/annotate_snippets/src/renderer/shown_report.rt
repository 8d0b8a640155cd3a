//! The report that is shown in place of one, as the renderer is set.
ghost use Rattle.std.specs.Prelude.{◌≡◌, ◌≤◌, All, Err, IfOk, IfSome, IsOkUnless, None, alloc_error};
ghost use Rattle.std.specs.Cow.{cow_slice_items};
ghost use Rattle.snippet_model.specs.Fits.{ReportFits};
ghost use Rattle.snippet_shown.specs.AsMasked.{IsGroupMasked};
ghost use Rattle.snippet_shown.specs.AsWrapped.{IsGroupWrapped};
ghost use Rattle.snippet_shown.specs.WithContext.{IsGroupWithContext};
ghost use Rattle.snippet_shown.specs.Asked.{IsGroupSound};
ghost use Rattle.annotate_snippets.specs.AsSet as set;
ghost use Rattle.annotate_snippets.specs.AsSet.{IsStep};
ghost use Rattle.annotate_snippets.specs.Drawable.{IsDrawableAsSet};
ghost use Rattle.annotate_snippets.specs.Fault as spec;
ghost use Rattle.annotate_snippets.specs.Gutter.{gutter_of_report};
ghost use Rattle.annotate_snippets.specs.PreparedReport.{IsGroupDrawable};

use crate::renderer::Renderer;
use crate::renderer::error::RenderError;
use crate::renderer::form::Form;
use crate::renderer::gutter::gutter_of;
use crate::renderer::preprocess::prepare_groups;
use crate::renderer::validate::first_refusal;
use crate::snippet::Report;
use snippet_model::report_fits;
use snippet_model::snippet::Group;
use snippet_shown::{LinesAround, Masking, Wrapping, groups_as_set, groups_remade};
use std::alloc::{AllocError, Global};
use std::borrow::CowSlice;

impl Renderer {
    /// Whether a report is shown in a form just as it is given: nothing is set that makes another of it.
    pub(crate) fn shows_as_given(&self, form: Form) -> bool
        ensures value { result ≡ set.shows_as_given form self.now }
    {
        !self.show_line_feeds
            && !self.mask_controls
            && !self.adds_context(form)
            && !self.wraps(form)
    }

    /// Whether lines around those that are kept are shown too: in the graphic form, where a number of them is set.
    fn adds_context(&self, form: Form) -> bool
        ensures value { result ≡ set.adds_context form self.now }
    {
        match form {
            Form::Graphic => !(self.context_before == 0 && self.context_after == 0),
            Form::Short | Form::Text => false,
        }
    }

    /// Whether titles and messages are wrapped: in the graphic form, where that is set.
    fn wraps(&self, form: Form) -> bool
        ensures value { result ≡ set.wraps form self.now }
    {
        match form {
            Form::Graphic => self.wrap,
            Form::Short | Form::Text => false,
        }
    }

    /// The report that is shown in a form in place of one: the one given, where nothing is set that makes another of
    /// it; else that with its line feeds shown, then with its controls masked, then with the lines around those that it
    /// keeps, and then with its titles and messages wrapped.
    ///
    /// # Errors
    ///
    /// Why the one given is refused, the first reason in order; and `Memory` where there is none for the other, or a
    /// text of it no longer fits.
    pub(crate) fn shown<'a>(
        &self,
        alloc: Global,
        form: Form,
        groups: Report<'a>,
    ) -> Result<CowSlice<'a, Group<'a>>, RenderError>
        requires fits { ReportFits groups.now }
        ensures refused { IfSome (spec.refusal_in form groups.now) (λ refusal. result ≡ Err refusal) }
        ensures renders { spec.refusal_in form groups.now ≡ None
            → IsOkUnless result (RenderError.Memory alloc_error) }
        ensures shown { IfOk result (λ shown. IsDrawableAsSet form self.now groups.now (cow_slice_items shown)) }
    {
        if let Some(refusal) = first_refusal(form, groups) {
            return Err(refusal);
        }
        if self.shows_as_given(form) {
            return Ok(CowSlice::Borrowed(groups));
        }
        let made = self.remade(alloc, form, groups)?;
        Ok(CowSlice::Owned(made))
    }

    /// The report that is made of one that isn't refused.
    fn remade<'a>(
        &self,
        alloc: Global,
        form: Form,
        groups: Report<'a>,
    ) -> Result<Vec<Group<'a>>, AllocError>
        requires fits { ReportFits groups.now }
        requires faultless { spec.first_fault groups.now ≡ None }
        ensures set { IfOk result (λ made. set.IsRemade form self.now groups.now made.items) }
        ensures fits { IfOk result (λ made. ReportFits made.items) }
    {
        let made = groups_as_set(alloc, self.show_line_feeds, groups)?;
        let fed = fitting(made)?;
        let masked = self.with_masks(alloc, fed)?;
        let around = self.with_context(alloc, form, masked)?;
        self.with_wrapped(alloc, form, around)
    }

    /// A report with the controls of its texts masked, where that is set.
    fn with_masks<'a>(
        &self,
        alloc: Global,
        groups: Vec<Group<'a>>,
    ) -> Result<Vec<Group<'a>>, AllocError>
        requires fits { ReportFits groups.items }
        ensures made { IfOk result (λ made. IsStep self.now.mask_controls IsGroupMasked groups.entry.items made.items) }
        ensures fits { IfOk result (λ made. ReportFits made.items) }
    {
        if self.mask_controls {
            let made = groups_remade(alloc, &Masking, groups)?;
            fitting(made)
        } else {
            Ok(groups)
        }
    }

    /// A report with the lines around those that it keeps, where they are shown.
    fn with_context<'a>(
        &self,
        alloc: Global,
        form: Form,
        groups: Vec<Group<'a>>,
    ) -> Result<Vec<Group<'a>>, AllocError>
        requires sound { All IsGroupSound groups.items }
        requires fits { ReportFits groups.items }
        ensures made { IfOk result (λ made. IsStep (set.adds_context form self.now)
            (IsGroupWithContext self.now.context_before self.now.context_after) groups.entry.items made.items) }
        ensures fits { IfOk result (λ made. ReportFits made.items) }
    {
        if self.adds_context(form) {
            let around = LinesAround {
                before: self.context_before,
                after: self.context_after,
            };
            groups_remade(alloc, &around, groups)
        } else {
            Ok(groups)
        }
    }

    /// A report with its titles and messages wrapped, beside the gutter that it has, where that is set.
    fn with_wrapped<'a>(
        &self,
        alloc: Global,
        form: Form,
        groups: Vec<Group<'a>>,
    ) -> Result<Vec<Group<'a>>, AllocError>
        requires fits { ReportFits groups.items }
        requires faultless { spec.first_fault groups.items ≡ None }
        ensures made { IfOk result (λ made. IsStep (set.wraps form self.now)
            (IsGroupWrapped self.now.term_width (gutter_of_report self.now groups.entry.items))
            groups.entry.items made.items) }
        ensures fits { IfOk result (λ made. ReportFits made.items) }
    {
        if self.wraps(form) {
            let gutter = self.gutter_for(alloc, &groups)?;
            let wrapping = Wrapping {
                term_width: self.term_width,
                gutter,
            };
            let made = groups_remade(alloc, &wrapping, groups)?;
            fitting(made)
        } else {
            Ok(groups)
        }
    }

    /// The width of a report's gutter, in cells, before any row is drawn.
    fn gutter_for(&self, alloc: Global, groups: Report<'_>) -> Result<usize, AllocError>
        requires drawable { All IsGroupDrawable groups.now }
        ensures value { IfOk result (λ gutter. gutter ≡ gutter_of_report self.now groups.now) }
        ensures small { IfOk result (λ gutter. gutter ≤ 20) }
    {
        let prepared = prepare_groups(alloc, groups)?;
        Ok(gutter_of(self, &prepared))
    }
}

/// A report each text of which fits. Where one doesn't, there is no memory for it.
fn fitting<'a>(groups: Vec<Group<'a>>) -> Result<Vec<Group<'a>>, AllocError>
    ensures same { IfOk result (λ same. same ≡ groups.entry) }
    ensures fits { IfOk result (λ same. ReportFits same.items) }
{
    if report_fits(&groups) {
        Ok(groups)
    } else {
        Err(AllocError)
    }
}
