//! The roles of the strokes and labels of a kind.
ghost use Rattle.std.specs.Prelude.{◌≡◌};
ghost use Rattle.snippet_model.specs.AnnotationKind as kinds;
ghost use Rattle.snippet_labels.specs.PlacedEntries as spec;

use snippet_model::AnnotationKind;
use snippet_style::ElementStyle;

/// Whether marks of this kind are drawn as primary ones.
pub fn is_primary(kind: AnnotationKind) -> bool
    ensures value { result ≡ kinds.is_primary kind }
{
    matches!(kind, AnnotationKind::Primary)
}

/// The role of labels of this kind.
pub fn label_role(kind: AnnotationKind) -> ElementStyle
    ensures value { result ≡ spec.label_role kind }
{
    match kind {
        AnnotationKind::Primary => ElementStyle::LabelPrimary,
        AnnotationKind::Context | AnnotationKind::Visible => ElementStyle::LabelSecondary,
    }
}
