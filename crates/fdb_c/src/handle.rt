//! Handles, as C holds them: a box as a pointer and what it takes to free it, or nothing; of a
//! chain, a queue, an audit and a watch.

ghost use Rattle.std.specs.Prelude.{◌≡◌, IfOk, Option, None, Some, IsNone, option_map, ℕ};
ghost use Rattle.std.specs.Box.Ownership.{box_owns};
ghost use Rattle.fdb_chain.specs.Recent.{Recent};
ghost use Rattle.fdb_queue.specs.Queue.{Queue};
ghost use Rattle.fdb_c.specs.Audited.{AuditState};
ghost use Rattle.fdb_c.specs.Watch.{Watch};

use crate::audited::Audited;
use crate::watched::Watched;
use fdb_chain::RecentChain;
use fdb_queue::GrvQueue;
use std::alloc::{AllocError, Allocator, Global};
use std::marker::Model;
use std::{mem, ptr};

/// A box of what C may hand to another thread, as each handle: so it has to be `Send`.
pub(crate) fn boxed<T: Drop + Send>(alloc: Global, value: T) -> Result<Box<T>, AllocError>
    ensures { IfOk result (λ made. made.value ≡ value) }
{
    match Box::new(alloc, value) {
        Ok(made) => Ok(made),
        Err(_) => Err(AllocError),
    }
}

/// What was a box: the pointer to its value, and its allocator. It owns the value and the right to
/// free its block.
pub(crate) struct Parts<T, A: Allocator> {
    pub(crate) ptr: *mut T,
    pub(crate) alloc: A,
    pub(crate) ghost value: { T },
}

impl<T, A: Allocator> Model for Parts<T, A> {
    ghost also_owns = { λ parts.
        box_owns (A.dealloc_token parts.alloc) T.row parts.ptr parts.value };
}

impl<T: Drop, A: Allocator> Parts<T, A> {
    /// The parts of a box.
    pub(crate) fn of(whole: Box<T, A>) -> Parts<T, A>
        ensures { result.value ≡ whole.value }
    {
        let (ptr, alloc) = Box::into_raw_with_allocator(whole);
        Parts { ptr, alloc }
    }

    /// The box again.
    pub(crate) fn into_box(self) -> Box<T, A>
        ensures { result.value ≡ self.value }
    {
        let Parts { ptr, alloc } = self;
        unsafe { Box::from_raw(alloc, ptr) }
    }
}

/// What a handle has, or nothing. It has no drop, so that nothing is let go by the way: what is
/// here goes to a handle, or its box is taken out.
pub(crate) struct Held<T> {
    pub(crate) at: *mut T,
    pub(crate) ghost it: { Option T },
}

impl<T> Model for Held<T> {
    ghost use Rattle.fdb_c.specs.Held.{held};

    ghost also_owns = { λ it. held T.row it.at it.it };
}

impl<T> Held<T> {
    /// Nothing.
    pub(crate) fn none() -> Held<T>
        ensures { result.it ≡ None }
    {
        Held {
            at: ptr::null_mut(),
        }
    }

    /// What these are the parts of.
    fn of(parts: Parts<T, Global>) -> Held<T>
        ensures { result.it ≡ Some parts.value }
    {
        let Parts { ptr, alloc: _ } = parts;
        Held { at: ptr }
    }

    /// Its parts, if there is something.
    fn into_parts(self, alloc: Global) -> Option<Parts<T, Global>>
        ensures { option_map (λ parts. parts.value) result ≡ self.it }
    {
        let Held { at } = self;
        if at.is_null() {
            None
        } else {
            Some(Parts { ptr: at, alloc })
        }
    }

    /// Lets go of nothing.
    pub(crate) fn gone(self)
        requires { IsNone self.it }
    {
        let Held { at: _ } = self;
    }
}

impl<T: Drop> Held<T> {
    /// What is in this box.
    pub(crate) fn new(it: Box<T>) -> Held<T>
        ensures { result.it ≡ Some it.value }
    {
        Held::of(Parts::of(it))
    }

    /// Its box, if there is something.
    pub(crate) fn into_box(self, alloc: Global) -> Option<Box<T>>
        ensures { option_map (λ it. it.value) result ≡ self.it }
    {
        match self.into_parts(alloc) {
            Some(parts) => Some(parts.into_box()),
            None => None,
        }
    }
}

/// A chain that C holds, or none.
#[repr(C)]
pub struct FdbChain {
    at: *mut u8,
    ghost chain: { Option Recent },
}

impl Model for FdbChain {
    ghost use Rattle.fdb_c.specs.Held.{chain_held};

    ghost also_owns = { λ handle. chain_held handle.at handle.chain };
}

impl FdbChain {
    /// A handle that has this.
    fn of(held: Held<RecentChain>) -> FdbChain
        ensures { result.chain ≡ held.it }
    {
        let Held { at } = held;
        FdbChain { at: at as *mut u8 }
    }

    /// What it has.
    fn into_held(self) -> Held<RecentChain>
        ensures { result.it ≡ self.chain }
    {
        let FdbChain { at } = self;
        Held {
            at: at as *mut RecentChain,
        }
    }

    /// Gives it this, and takes what it had.
    pub(crate) fn swap(&mut self, held: Held<RecentChain>) -> Held<RecentChain>
        ensures taken { result.it ≡ self.old.chain }
        ensures given { self.new.chain ≡ held.it }
    {
        mem::replace(self, FdbChain::of(held)).into_held()
    }
}

/// A queue that C holds, or none.
#[repr(C)]
pub struct FdbQueue {
    at: *mut u8,
    ghost queue: { Option (Queue ℕ) },
}

impl Model for FdbQueue {
    ghost use Rattle.fdb_c.specs.Held.{queue_held};

    ghost also_owns = { λ handle. queue_held handle.at handle.queue };
}

impl FdbQueue {
    /// A handle that has this.
    fn of(held: Held<GrvQueue<u64>>) -> FdbQueue
        ensures { result.queue ≡ held.it }
    {
        let Held { at } = held;
        FdbQueue { at: at as *mut u8 }
    }

    /// What it has.
    fn into_held(self) -> Held<GrvQueue<u64>>
        ensures { result.it ≡ self.queue }
    {
        let FdbQueue { at } = self;
        Held {
            at: at as *mut GrvQueue<u64>,
        }
    }

    /// Gives it this, and takes what it had.
    pub(crate) fn swap(&mut self, held: Held<GrvQueue<u64>>) -> Held<GrvQueue<u64>>
        ensures taken { result.it ≡ self.old.queue }
        ensures given { self.new.queue ≡ held.it }
    {
        mem::replace(self, FdbQueue::of(held)).into_held()
    }
}

/// An audit that C holds, or none.
#[repr(C)]
pub struct FdbAudit {
    at: *mut u8,
    ghost audit: { Option AuditState },
}

impl Model for FdbAudit {
    ghost use Rattle.fdb_c.specs.Held.{audit_held};

    ghost also_owns = { λ handle. audit_held handle.at handle.audit };
}

impl FdbAudit {
    /// A handle that has this.
    fn of(held: Held<Audited>) -> FdbAudit
        ensures { result.audit ≡ held.it }
    {
        let Held { at } = held;
        FdbAudit { at: at as *mut u8 }
    }

    /// What it has.
    fn into_held(self) -> Held<Audited>
        ensures { result.it ≡ self.audit }
    {
        let FdbAudit { at } = self;
        Held {
            at: at as *mut Audited,
        }
    }

    /// Gives it this, and takes what it had.
    pub(crate) fn swap(&mut self, held: Held<Audited>) -> Held<Audited>
        ensures taken { result.it ≡ self.old.audit }
        ensures given { self.new.audit ≡ held.it }
    {
        mem::replace(self, FdbAudit::of(held)).into_held()
    }
}

/// A watch that C holds, or none.
#[repr(C)]
pub struct FdbWatch {
    at: *mut u8,
    ghost watch: { Option Watch },
}

impl Model for FdbWatch {
    ghost use Rattle.fdb_c.specs.Held.{watch_held};

    ghost also_owns = { λ handle. watch_held handle.at handle.watch };
}

impl FdbWatch {
    /// A handle that has this.
    fn of(held: Held<Watched>) -> FdbWatch
        ensures { result.watch ≡ held.it }
    {
        let Held { at } = held;
        FdbWatch { at: at as *mut u8 }
    }

    /// What it has.
    fn into_held(self) -> Held<Watched>
        ensures { result.it ≡ self.watch }
    {
        let FdbWatch { at } = self;
        Held {
            at: at as *mut Watched,
        }
    }

    /// Gives it this, and takes what it had.
    pub(crate) fn swap(&mut self, held: Held<Watched>) -> Held<Watched>
        ensures taken { result.it ≡ self.old.watch }
        ensures given { self.new.watch ≡ held.it }
    {
        mem::replace(self, FdbWatch::of(held)).into_held()
    }
}
