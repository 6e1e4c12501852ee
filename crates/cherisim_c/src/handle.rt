//! What C holds of a machine.

ghost use Rattle.std.specs.Prelude.{◌≡◌, Option, Some, None};
ghost use Rattle.std.specs.Option.{MatchOption};
ghost use Rattle.cherisim_c.specs.Handle.{handle_owns};
ghost use Rattle.steps.specs.State.{State};
ghost use Rattle.std.specs.Coded.{codes};
ghost use Rattle.tagged_memory.specs.Layout.{memory_code};

use loose::Loose;
use machine::Machine;
use std::alloc::Global;
use std::marker::Model;
use std::mem::replace;
use std::ptr::null_mut;
use word_cap::WordCap;

/// A machine, or none.
#[repr(C)]
pub struct Handle {
    at: *mut u8,
    alloc: Global,
    ghost machine: { Option State } by { Prim.hlevel (codes, memory_code) },
}

impl Model for Handle {
    ghost also_owns = { λ h. handle_owns h.alloc h.at h.machine };
}

impl Handle {
    /// No machine.
    pub(crate) fn closed(alloc: Global) -> Handle
        ensures { result.machine ≡ None }
    {
        Handle {
            at: null_mut(),
            alloc,
        }
    }

    /// This machine.
    fn open(machine: Loose<Machine<WordCap>, Global>) -> Handle
        ensures { result.machine ≡ Some machine.value }
    {
        let Loose { at, alloc } = machine;
        Handle {
            at: at as *mut u8,
            alloc,
        }
    }

    /// The machine, if there is one.
    fn opened(self) -> Option<Loose<Machine<WordCap>, Global>>
        ensures { MatchOption result (self.machine ≡ None) (λ l. self.machine ≡ Some l.value) }
    {
        let Handle { at, alloc } = self;
        if at.is_null() {
            None
        } else {
            Some(Loose {
                at: at as *mut Machine<WordCap>,
                alloc,
            })
        }
    }

    /// Takes the machine out, if there is one, and leaves none.
    pub(crate) fn take(&mut self, alloc: Global) -> Option<Box<Machine<WordCap>>>
        ensures value { MatchOption result (self.old.machine ≡ None) (λ machine. self.old.machine ≡ Some machine.value) }
        ensures none { self.new.machine ≡ None }
    {
        match replace(self, Handle::closed(alloc)).opened() {
            Some(parts) => Some(parts.into_box()),
            None => None,
        }
    }

    /// Puts a machine in; one that was there is freed.
    pub(crate) fn put(&mut self, machine: Box<Machine<WordCap>>)
        ensures { self.new.machine ≡ Some machine.value }
    {
        *self = Handle::open(Loose::of(machine));
    }
}

impl Drop for Handle {
    fn drop(self) {
        if let Some(parts) = self.opened() {
            drop(parts.into_box());
        }
    }
}
