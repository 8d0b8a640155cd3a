//! How snippets get their annotations and patches.
ghost use Rattle.std.specs.Prelude.{◌≡◌, List, [], ◌∷◌, ◌++◌, IfOk};
ghost use Rattle.std.specs.Iterator.{IsFiniteIterable, Drains};
ghost use Rattle.snippet_model.specs.KeptSettings.{KeepsSettings};

use super::{Annotation, Patch, Snippet};
use std::alloc::AllocError;

impl<'a> Snippet<'a, Annotation<'a>> {
    /// The snippet with one more annotation after those it has. The one error is that memory ran out.
    pub fn annotation(
        mut self,
        annotation: Annotation<'a>,
    ) -> Result<Snippet<'a, Annotation<'a>>, AllocError>
        ensures annotations { IfOk result
            (λ s. s.markers.items ≡ self.entry.markers.items ++ annotation.entry ∷ []) }
        ensures settings { IfOk result (λ s. KeepsSettings self.entry s) }
    {
        self.markers.push(annotation)?;
        Ok(self)
    }

    /// The snippet with these annotations after those it has, in their order. The iterator has to end. The one error
    /// is that memory ran out.
    pub fn annotations<I: IntoIterator<Item = Annotation<'a>>>(
        mut self,
        annotations: I,
    ) -> Result<Snippet<'a, Annotation<'a>>, AllocError>
        requires ends { IsFiniteIterable I.into_iter_gives I.IntoIter.can_next I.IntoIter.remaining annotations }
        ensures annotations { IfOk result (λ s. (it : I.IntoIter) × (xs : List Annotation)
            × I.into_iter_gives annotations it × Drains I.IntoIter.next_gives it xs
            × (s.markers.items ≡ self.entry.markers.items ++ xs)) }
        ensures settings { IfOk result (λ s. KeepsSettings self.entry s) }
    {
        self.markers.extend(annotations)?;
        Ok(self)
    }
}

impl<'a> Snippet<'a, Patch<'a>> {
    /// The snippet with one more patch after those it has. The one error is that memory ran out.
    pub fn patch(mut self, patch: Patch<'a>) -> Result<Snippet<'a, Patch<'a>>, AllocError>
        ensures patches { IfOk result
            (λ s. s.markers.items ≡ self.entry.markers.items ++ patch.entry ∷ []) }
        ensures settings { IfOk result (λ s. KeepsSettings self.entry s) }
    {
        self.markers.push(patch)?;
        Ok(self)
    }

    /// The snippet with these patches after those it has, in their order. The iterator has to end. The one error is
    /// that memory ran out.
    pub fn patches<I: IntoIterator<Item = Patch<'a>>>(
        mut self,
        patches: I,
    ) -> Result<Snippet<'a, Patch<'a>>, AllocError>
        requires ends { IsFiniteIterable I.into_iter_gives I.IntoIter.can_next I.IntoIter.remaining patches }
        ensures patches { IfOk result (λ s. (it : I.IntoIter) × (xs : List Patch)
            × I.into_iter_gives patches it × Drains I.IntoIter.next_gives it xs
            × (s.markers.items ≡ self.entry.markers.items ++ xs)) }
        ensures settings { IfOk result (λ s. KeepsSettings self.entry s) }
    {
        self.markers.extend(patches)?;
        Ok(self)
    }
}
