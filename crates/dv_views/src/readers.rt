//! Which views a change of a namespace reaches.

ghost use Rattle.std.specs.Prelude.{◌≡◌, ◌∷◌, ◌++◌, [], ℕ, List, OnOk, IfOk};
ghost use Rattle.dv_views.specs.Inner.Readers as defined;
ghost use Rattle.dv_views.specs.Inner.Readers.{AreListed, AreReaders, listing_seen, listing_without, places_under, with_list, without};
ghost use Rattle.dv_views.specs.Inner.Seen.{form_seen, forms_seen};

use crate::view::View;
use dv_value::NoMemory;
use indexmap::IndexMap;
use std::alloc::Global;

/// For each namespace that a view reads, the places of the views that a change of it reaches, ascending: of those that read it,
/// directly or through other views.
#[derive(Debug, Drop)]
pub(crate) struct Readers {
    lists: IndexMap<String, Vec<usize>>,
}

impl Readers {
    /// Of no views. Memory for lists will be allocated by `alloc`.
    pub(crate) fn new(alloc: Global) -> Self
        ensures { listing_seen result.lists.entries ≡ [] }
    {
        Readers {
            lists: IndexMap::new(alloc),
        }
    }

    /// The places of the views that a change of the namespace reaches. Takes no memory.
    pub(crate) fn under(&self, namespace: &str) -> &[usize]
        ensures { result.now ≡ places_under namespace.now (listing_seen self.now.lists.entries) }
    {
        match self.lists.get(namespace) {
            Some(places) => places.as_slice(),
            None => &[],
        }
    }

    /// The lists with one more view, which will be after the others. Fails when memory runs out.
    pub(crate) fn with(
        &self,
        alloc: Global,
        views: &IndexMap<String, View>,
        view: &View,
    ) -> Result<Readers, NoMemory>
        requires { AreReaders (forms_seen views.now.entries) (listing_seen self.now.lists.entries) }
        ensures { (name : List ℕ) → IfOk result (λ readers. AreReaders (forms_seen views.now.entries ++ form_seen name view.now ∷ []) (listing_seen readers.lists.entries)) }
    {
        let mut lists = self.lists_with(alloc, views, view)?;
        list_under(alloc, &mut lists, view.source(), views.len())?;
        'names: for name in view.lookups() {
            list_under(alloc, &mut lists, name.as_str(), views.len())?;
        }
        Ok(Readers { lists })
    }

    /// Each list, with one more view if a change of the list's namespace reaches this view.
    fn lists_with(
        &self,
        alloc: Global,
        views: &IndexMap<String, View>,
        view: &View,
    ) -> Result<IndexMap<String, Vec<usize>>, NoMemory>
        requires { AreReaders (forms_seen views.now.entries) (listing_seen self.now.lists.entries) }
        ensures { (name : List ℕ) → IfOk result (λ lists. AreListed (forms_seen views.now.entries) (form_seen name view.now) [] (listing_seen lists.entries)) }
    {
        let mut lists = IndexMap::new(alloc);
        'lists: for (namespace, places) in &self.lists {
            let more = places_with(alloc, places.as_slice(), namespace.as_str(), views, view)?;
            lists.insert(String::from_str(alloc, namespace.as_str())?, more)?;
        }
        Ok(lists)
    }

    /// Removes a place from the lists; each place after it becomes one lower. Takes no memory.
    pub(crate) fn take_out(&mut self, place: usize)
        ensures { listing_seen self.new.lists.entries ≡ listing_without place (listing_seen self.old.lists.entries) }
    {
        self.lists.retain(|_, places| {
            take_out_of(places, place);
            !places.is_empty()
        });
    }
}

/// The places, with that of one more view if a change of the namespace reaches it. Fails when memory runs out.
fn places_with(
    alloc: Global,
    places: &[usize],
    namespace: &str,
    views: &IndexMap<String, View>,
    view: &View,
) -> Result<Vec<usize>, NoMemory>
    ensures { IfOk result (λ more. more.items ≡ defined.places_with namespace.now view.now.stages view.now.source views.now.entries places.now) }
{
    let mut more = Vec::from_slice(alloc, places)?;
    if view.reads(namespace) || reads_one(view, views, places) {
        more.push(views.len())?;
    }
    Ok(more)
}

/// Whether the view reads one of the views at these places.
fn reads_one(view: &View, views: &IndexMap<String, View>, places: &[usize]) -> bool
    ensures { result ≡ defined.reads_one view.now.stages view.now.source views.now.entries places.now }
{
    places.iter().any(|place| match views.get_index(*place) {
        Some((name, _)) => view.reads(name.as_str()),
        None => false,
    })
}

/// Lists this place under the name, if nothing is listed there. Fails when memory runs out.
fn list_under(
    alloc: Global,
    lists: &mut IndexMap<String, Vec<usize>>,
    name: &str,
    place: usize,
) -> Result<(), NoMemory>
    ensures { OnOk result (listing_seen lists.new.entries ≡ with_list name.now place (listing_seen lists.old.entries)) }
{
    if lists.contains_key(name) {
        return Ok(());
    }
    let mut places = Vec::with_capacity(alloc, 1)?;
    places.push(place)?;
    lists.insert(String::from_str(alloc, name)?, places)?;
    Ok(())
}

/// Removes a place from the list; each place after it becomes one lower.
fn take_out_of(places: &mut Vec<usize>, place: usize)
    ensures { places.new.items ≡ without place places.old.items }
{
    places.retain(|other| *other != place);
    'places: for other in places.iter_mut() {
        if *other > place {
            *other -= 1;
        }
    }
}
