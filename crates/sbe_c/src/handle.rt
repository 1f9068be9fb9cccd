//! What C holds of an open schema.
ghost use Rattle.std.specs.Prelude.{◌≡◌};
ghost use Rattle.std.specs.declared.option.Option.{Option};
ghost use Rattle.std.specs.declared.option.Option.TheVariants.{None, Some};
ghost use Rattle.std.specs.Option.{option_map};
ghost use Rattle.sbe_types.specs.declared.schema.WireSchema.{WireSchema};
ghost use Rattle.sbe_c.specs.Handles.{handle_owns, opened_coded};

use crate::opened::Opened;
use crate::parts::Parts;
use std::alloc::Global;
use std::marker::Model;

/// A schema that C keeps, and passes by its address. An open one owns a box of an [`Opened`], and a closed one nothing.
///
/// The pointer's type is that of bytes, since C may not be given a pointer to a type that borrows.
#[repr(C)]
pub struct Handle {
    ptr: *mut u8,
    alloc: Global,
    is_open: bool,
    /// The schema that it owns.
    pub ghost opened: { Option WireSchema } by { opened_coded },
}

impl Model for Handle {
    ghost also_owns = { λ h. handle_owns h.alloc h.ptr h.is_open h.opened };
}

impl Handle {
    /// A handle that owns nothing.
    fn closed(alloc: Global, ptr: *mut u8) -> Handle
        ensures { result.opened ≡ None }
    {
        Handle {
            ptr,
            alloc,
            is_open: false,
        }
    }

    /// A handle that owns what a box owned.
    fn of_parts(parts: Parts<Opened, Global>) -> Handle
        ensures { result.opened ≡ Some parts.value }
    {
        let Parts { ptr, alloc } = parts;
        Handle {
            ptr: ptr as *mut u8,
            alloc,
            is_open: true,
        }
    }

    /// Returns what the handle owned, in parts.
    fn into_parts(self) -> Option<Parts<Opened, Global>>
        ensures { option_map (λ b. b.value) result ≡ self.opened }
    {
        let Handle {
            ptr,
            alloc,
            is_open,
        } = self;
        if is_open {
            return Some(Parts {
                ptr: ptr as *mut Opened,
                alloc,
            });
        }
        None
    }

    /// Takes the schema out of the handle, which is closed then.
    pub fn take(&mut self, alloc: Global) -> Option<Box<Opened>>
        ensures value { option_map (λ b. b.value) result ≡ self.old.opened }
        ensures after { self.new.opened ≡ None }
    {
        let at = std::ptr::null_mut();
        let closed = Handle::closed(alloc, at);
        match std::mem::replace(self, closed).into_parts() {
            Some(parts) => Some(parts.into_box()),
            None => None,
        }
    }

    /// Opens the handle with a schema. What it owned before is freed.
    pub fn put(&mut self, opened: Box<Opened>)
        ensures { self.new.opened ≡ Some opened.value }
    {
        let open = Handle::of_parts(Parts::of(opened));
        match std::mem::replace(self, open).into_parts() {
            Some(parts) => drop(parts.into_box()),
            None => {}
        }
    }
}
