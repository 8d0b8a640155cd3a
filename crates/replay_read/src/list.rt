//! How lists are read, item by item.

ghost use Rattle.std.specs.Prelude.{◌≡◌, ℕ, List, Option, Some, IfOk, All};
ghost use Rattle.snippet_model.specs.Fits.{TextFits};
ghost use Rattle.serde_json.specs.Data.{Data};
ghost use Rattle.serde_json.specs.Find.{as_str};
ghost use Rattle.serde_json.specs.View.{view};
ghost use Rattle.json_lines.specs.Field.{SaysAt, ListSays, as_whole};
ghost use Rattle.replay_read.specs.declared.span.SpanUnit.{SpanUnit};

use crate::ruler::Ruler;
use crate::source::NamedSource;
use json_lines::expectation::Expectation;
use json_lines::fault::Fault;
use json_lines::node::Node;

/// What an item of a list may be read as.
pub trait Read<'v> {
    /// What an item says, where it is read as this.
    ghost says: { Data → Self → Type 0 };

    /// What holds of whatever is read: that its texts fit.
    ghost fits: { Self → Type 0 };

    /// What the item is read as; a fault where it isn't what is expected.
    fn read(node: &Node<'v, '_>) -> Result<Self, Fault>
        ensures value { IfOk result (says (view node.now.value.now)) }
        ensures fits { IfOk result fits };
}

/// What a part of a report may be read as, by the sources that its case names.
pub trait ReadPart<'v> {
    /// What an item says, where these are the sources and it is read as this.
    ghost says: { List (List ℕ) → Data → Self → Type 0 };

    /// What holds of whatever is read: that its texts fit.
    ghost fits: { Self → Type 0 };

    /// What the item is read as; a fault where it isn't what is expected.
    fn read(node: &Node<'v, '_>, sources: &'v [NamedSource<'_>]) -> Result<Self, Fault>
        ensures value { IfOk result (says sources.now (view node.now.value.now)) }
        ensures fits { IfOk result fits };
}

/// What an item of a list of markers may be read as, by the source that they mark.
pub trait ReadMarker<'v> {
    /// What an item says of this source, in this unit, where it is read as this.
    ghost says: { List ℕ → Option SpanUnit → Data → Self → Type 0 };

    /// What holds of whatever is read: that its texts fit.
    ghost fits: { Self → Type 0 };

    /// What the item is read as; a fault where it isn't what is expected.
    fn read(node: &Node<'v, '_>, ruler: &Ruler<'_>) -> Result<Self, Fault>
        ensures value { IfOk result (says ruler.now.source.now ruler.now.unit (view node.now.value.now)) }
        ensures fits { IfOk result fits };
}

/// The number of a byte.
impl<'v> Read<'v> for u8 {
    ghost says = { λ d byte. as_whole d ≡ Some byte };

    ghost fits = { λ _. Unit {0} };

    fn read(node: &Node<'v, '_>) -> Result<Self, Fault> {
        node.as_byte()
    }
}

/// A text within the library's limit.
impl<'v> Read<'v> for &'v str {
    ghost says = { λ d text. as_str d ≡ Some text.now };

    ghost fits = { λ text. TextFits text.now };

    fn read(node: &Node<'v, '_>) -> Result<Self, Fault> {
        node.as_text()
    }
}

/// What the items of the list are read as, in order.
pub fn items_of<'v, T: Read<'v> + Drop>(list: &Node<'v, '_>) -> Result<Vec<T>, Fault>
    ensures value { IfOk result (λ xs. ListSays T.says (view list.now.value.now) xs.items) }
    ensures fits { IfOk result (λ xs. All T.fits xs.items) }
{
    let Some(values) = list.value.as_array() else {
        return Err(list.unexpected(Expectation::List));
    };
    let mut items = Vec::new(list.alloc);
    for (index, value) in values.iter().enumerate() {
        items.push(T::read(&list.item(index, value))?)?;
    }
    Ok(items)
}

/// What the items of the list in the field of this name are read as, in order.
pub fn list_at<'v, T: Read<'v> + Drop>(object: &Node<'v, '_>, name: &str) -> Result<Vec<T>, Fault>
    ensures value { IfOk result (λ xs. SaysAt (ListSays T.says) name.now (view object.now.value.now) xs.items) }
    ensures fits { IfOk result (λ xs. All T.fits xs.items) }
{
    items_of(&object.needed(name, Expectation::List)?)
}

/// What the items of the list in the field of this name are read as, in order, by these sources.
pub fn parts_at<'v, T: ReadPart<'v> + Drop>(
    object: &Node<'v, '_>,
    name: &str,
    sources: &'v [NamedSource<'_>],
) -> Result<Vec<T>, Fault>
    ensures value { IfOk result (λ xs.
        SaysAt (ListSays (T.says sources.now)) name.now (view object.now.value.now) xs.items) }
    ensures fits { IfOk result (λ xs. All T.fits xs.items) }
{
    parts_of(&object.needed(name, Expectation::List)?, sources)
}

/// What the items of a list are read as, in order, by these sources.
fn parts_of<'v, T: ReadPart<'v> + Drop>(
    list: &Node<'v, '_>,
    sources: &'v [NamedSource<'_>],
) -> Result<Vec<T>, Fault>
    ensures value { IfOk result (λ xs. ListSays (T.says sources.now) (view list.now.value.now) xs.items) }
    ensures fits { IfOk result (λ xs. All T.fits xs.items) }
{
    let Some(values) = list.value.as_array() else {
        return Err(list.unexpected(Expectation::List));
    };
    let mut items = Vec::new(list.alloc);
    for (index, value) in values.iter().enumerate() {
        items.push(T::read(&list.item(index, value), sources)?)?;
    }
    Ok(items)
}

/// What the items of a list of markers are read as, in order.
pub fn markers_of<'v, T: ReadMarker<'v> + Drop>(
    list: &Node<'v, '_>,
    ruler: &Ruler<'_>,
) -> Result<Vec<T>, Fault>
    ensures value { IfOk result (λ xs.
        ListSays (T.says ruler.now.source.now ruler.now.unit) (view list.now.value.now) xs.items) }
    ensures fits { IfOk result (λ xs. All T.fits xs.items) }
{
    let Some(values) = list.value.as_array() else {
        return Err(list.unexpected(Expectation::List));
    };
    let mut items = Vec::new(list.alloc);
    for (index, value) in values.iter().enumerate() {
        items.push(T::read(&list.item(index, value), ruler)?)?;
    }
    Ok(items)
}
