//! Views among others in creation order: a view knows only the older ones.

ghost use Rattle.std.specs.Prelude.{◌≡◌, map, take};
ghost use Rattle.std.specs.Option.{option_map};
ghost use Rattle.dv_views.specs.Inner.Older.{place_of_name, told_named};
ghost use Rattle.dv_views.specs.Inner.Seen.{view_seen, entry_view};
ghost use Rattle.dv_views.specs.Inner.Views.{view_under};

use crate::view::View;
use indexmap::IndexMap;

/// The place of the view of this name, if it is before a given place.
pub(crate) fn place_before(
    views: &IndexMap<String, View>,
    place: usize,
    name: &str,
) -> Option<usize>
    ensures { result ≡ place_of_name name.now (take place views.now.entries) }
{
    let found = views.get_index_of(name)?;
    if found < place { Some(found) } else { None }
}

/// The view of this name, if it is before a given place.
pub(crate) fn older<'a>(
    views: &'a IndexMap<String, View>,
    place: usize,
    name: &str,
) -> Option<&'a View>
    ensures view { option_map (λ view. view_seen name.now view.now) result ≡ view_under name.now (map entry_view (take place views.now.entries)) }
    ensures told { option_map (λ view. view.now.told) result ≡ told_named name.now (take place views.now.entries) }
{
    let found = place_before(views, place, name)?;
    Some(&views[found])
}
