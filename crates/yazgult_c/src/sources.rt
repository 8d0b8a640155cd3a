//! Sources as a program in another language keeps them: a pointer to a box. What goes through that pointer is proved by
//! hand: `behind_null`, `of_parts`, `into_parts` and what `parts` has.

ghost use denote.RawPtr.{InBlock, null_ptr};
ghost use Rattle.std.specs.Prelude.{◌≡◌};
ghost use Rattle.yazgult_c.specs.declared.sources.kept.Kept.{Kept};
ghost use Rattle.yazgult_c.specs.KeptSources.{kept_coded, kept_owns};

pub mod kept;
mod parts;

use kept::Kept;
use parts::Parts;
use std::alloc::Global;
use std::marker::Model;

/// Sources that are kept, behind a pointer that another language holds; none, where that is null.
#[repr(C)]
#[derive(Drop)]
pub struct Sources {
    at: *mut u8,
    alloc: Global,
    pub ghost kept: { Kept } by { kept_coded },
}

impl Model for Sources {
    ghost also_owns = { λ s. kept_owns s.alloc s.at s.kept };
}

impl Sources {
    /// What null leads to: no sources.
    fn behind_null(at: *mut u8, alloc: Global) -> Sources
        requires null { at ≡ null_ptr }
        ensures null { result.at ≡ null_ptr }
    {
        Sources { at, alloc }
    }

    /// What these parts of a box hold.
    fn of_parts(parts: Parts<Kept, Global>) -> Sources
        ensures kept { (result.kept ≡ parts.value) × InBlock result.at }
    {
        let Parts { ptr, alloc } = parts;
        Sources {
            at: ptr as *mut u8,
            alloc,
        }
    }

    /// The parts of the box that holds these.
    fn into_parts(self) -> Parts<Kept, Global>
        requires there { InBlock self.at }
        ensures kept { result.value ≡ self.kept }
    {
        let Sources { at, alloc } = self;
        Parts {
            ptr: at as *mut Kept,
            alloc,
        }
    }

    /// Takes what is kept, and leaves what null leads to.
    pub fn take(&mut self, alloc: Global) -> Box<Kept>
        requires there { InBlock self.old.at }
        ensures kept { result.value ≡ self.old.kept }
    {
        let nothing = Sources::behind_null(null(), alloc);
        let whole = std::mem::replace(self, nothing);
        whole.into_parts().into_box()
    }

    /// Puts something there; what stood there before isn't freed.
    pub fn put(&mut self, kept: Box<Kept>)
        ensures kept { self.new.kept ≡ kept.value }
        ensures there { InBlock self.new.at }
    {
        *self = Sources::of_parts(Parts::of(kept));
    }
}

/// The pointer that leads nowhere.
fn null() -> *mut u8
    ensures null { result ≡ null_ptr }
{
    std::ptr::null_mut()
}

/// They may go to another thread: each is owned by one list or shared by lists, and none changes.
unsafe impl Send for Sources {}
