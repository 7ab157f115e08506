//! Whether the position of each row of a view is the key of its `_id`.

ghost use Rattle.std.specs.Prelude.{◌≡◌, ◌<◌, codes, length, map, IfSome};
ghost use Rattle.std.specs.List.{list_any};
ghost use Rattle.dv_row.specs.Inner.Shown.{begins_with_name, is_alone};
ghost use Rattle.dv_views.specs.Inner.Based.{IsBasedOn};
ghost use Rattle.dv_views.specs.Inner.ById as defined;
ghost use Rattle.dv_views.specs.Inner.Seen.{entry_view};
ghost use Rattle.dv_views.specs.Inner.Views.{AreNamedApart};

use crate::older::place_before;
use crate::view::View;
use dv_pipe::{Paths, Project, Stage};
use indexmap::IndexMap;

/// The name of the field by which documents are ordered.
const ID: &str = "_id";

/// A namespace whose documents decide whether the position of each row of the view at a place is the key of its `_id`: it is if
/// each of these documents begins with its `_id`. `None` if the stages don't keep such positions. Takes time proportional to the
/// number of views that are each over the next, and no memory.
#[cycle(base)]
pub(crate) fn base_at(views: &IndexMap<String, View>, place: usize) -> Option<&str>
    requires place { place < length views.now.entries }
    requires apart { AreNamedApart (map entry_view views.now.entries) }
    ensures { IfSome result (λ base. IsBasedOn base.now place views.now.entries) }
{
    let view = &views[place];
    let stages = view.pipeline().stages();
    if are_at_ids(false, stages) {
        return Some(view.source());
    }
    if !are_at_ids(true, stages) {
        return None;
    }
    match place_before(views, place, view.source()) {
        Some(found) => base_at(views, found),
        None => Some(view.source()),
    }
}

/// Whether the position of each row after these stages is the key of its `_id`, given whether it is before them.
fn are_at_ids(before: bool, stages: &[Stage]) -> bool
    ensures { result ≡ defined.at_ids_through before stages.now }
{
    let mut are = before;
    'stages: for stage in stages {
        are = are_behind(are, stage);
    }
    are
}

/// The same after one stage. The position of a group's row is the group's key.
fn are_behind(before: bool, stage: &Stage) -> bool
    ensures { result ≡ defined.at_ids_behind before stage.now }
{
    match stage {
        Stage::Match(_) | Stage::Limit(_) => before,
        Stage::Project(project) => before && shows_id(project),
        Stage::Lookup(lookup) => before && lookup.target.as_str() != ID,
        Stage::Group(_) => true,
        Stage::Unwind(_) | Stage::Sort(_) => false,
    }
}

/// Whether `_id` is shown as it is.
fn shows_id(project: &Project) -> bool
    ensures { result ≡ defined.shows_id project.now }
{
    match project {
        Project::Include(paths, _) => has_id(paths),
        Project::Exclude(paths) => !has_any_from_id(paths),
    }
}

/// Whether one of the paths is `_id` alone.
fn has_id(paths: &Paths) -> bool
    ensures { result ≡ list_any (is_alone (codes "_id")) paths.now }
{
    paths.as_slice().iter().any(|path| match path.components() {
        [name] => ID == name.as_str(),
        _ => false,
    })
}

/// Whether one of the paths begins with `_id`.
fn has_any_from_id(paths: &Paths) -> bool
    ensures { result ≡ list_any (begins_with_name (codes "_id")) paths.now }
{
    paths.as_slice().iter().any(|path| match path.components() {
        [name, ..] => ID == name.as_str(),
        [] => false,
    })
}
