//! Stale views, recomputed before what depends on them is read.

ghost use Rattle.std.specs.Prelude.{◌≡◌, ◌∷◌, [], false, ℕ, List, OnOk};
ghost use Rattle.dv_views.specs.Forms as forms;
ghost use Rattle.dv_views.specs.Inner.Views as views;
ghost use Rattle.dv_catalog.specs.Inner.CatalogParts as parts;
ghost use Rattle.dv_catalog.specs.Inner.CatalogParts.{AreLive, KeepsItsRows, ShowsItsRows, marked_of};
ghost use Rattle.dv_catalog.specs.Inner.Parts.{Reads};
ghost use Rattle.dv_catalog.specs.State.{Namespaces, lists_of};

use crate::collections::Collections;
use crate::sources::documents_under;
use dv_pipe::Pipeline;
use dv_value::{NoMemory, Str};
use dv_views::{ToldRegistry, ViewState, names_read};
use std::alloc::Global;

/// Recomputes the stale views that are needed for the rows of the namespace. Fails when memory runs out; then some of them may be
/// recomputed.
pub(crate) fn refresh_under(
    alloc: Global,
    collections: &Collections,
    registry: &mut ToldRegistry,
    namespace: &str,
) -> Result<(), NoMemory>
    ensures right { views.AreRight (lists_of collections.now) registry.old → views.AreRight (lists_of collections.now) registry.new }
    ensures live { OnOk result (AreLive (namespace.now ∷ []) registry.new) }
    ensures marks { Reads (namespace.now ∷ []) (marked_of collections.now registry.old) result (marked_of collections.now registry.new) }
{
    if !registry.has_stale() {
        return Ok(());
    }
    let mut names = Vec::with_capacity(alloc, 1)?;
    names.push(Str::of(String::from_str(alloc, namespace)?))?;
    refresh_needed(alloc, collections, registry, names)
}

/// Recomputes the stale views that are needed for what a pipeline over `source` reads. Fails when memory runs out; then some of
/// them may be recomputed.
pub(crate) fn refresh_read(
    alloc: Global,
    collections: &Collections,
    registry: &mut ToldRegistry,
    source: &str,
    pipeline: &Pipeline,
) -> Result<(), NoMemory>
    ensures right { views.AreRight (lists_of collections.now) registry.old → views.AreRight (lists_of collections.now) registry.new }
    ensures live { OnOk result (AreLive (forms.names_read pipeline.now source.now) registry.new) }
    ensures marks { Reads (forms.names_read pipeline.now source.now) (marked_of collections.now registry.old) result (marked_of collections.now registry.new) }
{
    if !registry.has_stale() {
        return Ok(());
    }
    let names = names_read(alloc, source, pipeline)?;
    refresh_needed(alloc, collections, registry, names)
}

/// Recomputes the stale views that are needed for the rows of the names. Fails when memory runs out; then some of them may be
/// recomputed.
fn refresh_needed(
    alloc: Global,
    collections: &Collections,
    registry: &mut ToldRegistry,
    names: Vec<Str>,
) -> Result<(), NoMemory>
    ensures right { views.AreRight (lists_of collections.now) registry.old → views.AreRight (lists_of collections.now) registry.new }
    ensures live { OnOk result (AreLive names.items registry.new) }
    ensures marks { Reads names.items (marked_of collections.now registry.old) result (marked_of collections.now registry.new) }
{
    dv_views::laws::what_is_asked_for_is_needed();
    let needed = registry.needed(names)?;
    if !is_one_stale(registry, &needed) {
        return Ok(());
    }
    let sources = documents_under(alloc, collections, &needed)?;
    registry.refresh(&needed, &sources)
}

/// Whether a view of one of the names is stale. Takes no memory.
fn is_one_stale(registry: &ToldRegistry, names: &[Str]) -> bool
    ensures stale { result ≡ parts.is_one_stale names.now registry.now }
    ensures live { result ≡ false → AreLive names.now registry.now }
{
    // No two views have one name.
    registry.law_sound();
    'names: for name in names {
        if is_stale(registry, name.as_str()) {
            return true;
        }
    }
    false
}

/// Whether there is a view of this name, and it is stale. Takes no memory.
fn is_stale(registry: &ToldRegistry, name: &str) -> bool
    ensures { result ≡ parts.is_stale_view (views.view_under name.now registry.now) }
{
    match registry.state(name) {
        Some(ViewState::Stale) => true,
        Some(ViewState::Live) | None => false,
    }
}

/// A law: the rows that a view shows are those of its name, if the views are right.
pub(crate) fn law_shown(registry: &ToldRegistry)
    ensures shown { (namespaces : Namespaces) (name : List ℕ) → views.AreRight (lists_of namespaces) registry.now → ShowsItsRows name namespaces registry.now }
    ensures kept { (namespaces : Namespaces) (name : List ℕ) → views.AreRight (lists_of namespaces) registry.now
        → AreLive (name ∷ []) registry.now → KeepsItsRows name namespaces registry.now }
{
    dv_views::laws::what_is_shown_is_right();
    // No two views have one name.
    registry.law_sound();
}
