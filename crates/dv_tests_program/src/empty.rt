//! Empty stores and hubs. Nothing drops them: to prove a drop of all that they may hold would take longer than to prove the tests.

use dv_core::Store;
use dv_wire::Hub;
use std::alloc::Global;
use std::mem::ManuallyDrop;

/// A store without collections.
pub(crate) fn store(alloc: Global) -> ManuallyDrop<Store> {
    ManuallyDrop::new(Store::new(alloc))
}

/// A hub without sessions, over such a store.
pub(crate) fn hub(alloc: Global) -> ManuallyDrop<Hub> {
    ManuallyDrop::new(Hub::new(alloc, Store::new(alloc)))
}
