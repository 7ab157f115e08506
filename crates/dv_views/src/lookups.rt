//! The namespaces that stages read by `$lookup`.

ghost use Rattle.std.specs.Prelude.{◌≡◌, ◌++◌, IfOk, OnOk};
ghost use Rattle.std.specs.String.{string_bytes};
ghost use Rattle.dv_pipe.specs.Stages as pipes;
ghost use Rattle.dv_views.specs.Forms as forms;
ghost use Rattle.dv_views.specs.Forms.{is_name_among, names_read};
ghost use Rattle.dv_views.specs.Placed as defined;

use crate::view::View;
use dv_pipe::{Pipeline, Stage};
use dv_value::{NoMemory, Str};
use std::alloc::Global;

/// The namespaces that the stages of a pipeline over `source` read by `$lookup`, in their order. Fails with `NoMemory` when memory
/// runs out.
pub fn lookups_of(alloc: Global, source: &str, stages: &[Stage]) -> Result<Vec<Str>, NoMemory>
    ensures { IfOk result (λ lookups. lookups.items ≡ defined.lookups_of stages.now source.now) }
{
    let mut lookups = Vec::new(alloc);
    'stages: for stage in stages {
        if let Some(collection) = stage.foreign() {
            lookups.push(Str::of(beside(alloc, source, collection)?))?;
        }
    }
    Ok(lookups)
}

/// The names that the pipeline over `source` reads: `source`, and each that a stage reads by `$lookup`, in their order. Fails with
/// `NoMemory` when memory runs out.
pub fn names_read(alloc: Global, source: &str, pipeline: &Pipeline) -> Result<Vec<Str>, NoMemory>
    ensures { IfOk result (λ names. names.items ≡ forms.names_read pipeline.now source.now) }
{
    let mut names = Vec::new(alloc);
    names.push(Str::of(String::from_str(alloc, source)?))?;
    'stages: for stage in pipeline.stages() {
        if let Some(collection) = stage.foreign() {
            names.push(Str::of(beside(alloc, source, collection)?))?;
        }
    }
    Ok(names)
}

/// The namespace of the collection in the database of `source`. Fails with `NoMemory` when memory runs out.
pub fn beside(alloc: Global, source: &str, collection: &str) -> Result<String, NoMemory>
    ensures { IfOk result (λ namespace. string_bytes namespace ≡ pipes.beside source.now collection.now) }
{
    let database = match source.split_once('.') {
        Some((database, _)) => database,
        None => source,
    };
    let mut namespace = String::from_str(alloc, database)?;
    namespace.push('.')?;
    namespace.push_str(collection)?;
    Ok(namespace)
}

/// Whether the name is one of these.
pub(crate) fn is_listed(names: &[Str], name: &str) -> bool
    ensures { result ≡ is_name_among name.now names.now }
{
    'names: for other in names {
        if other.as_str() == name {
            return true;
        }
    }
    false
}

/// Appends the names that the view reads. Fails when memory runs out.
pub(crate) fn push_names_read(names: &mut Vec<Str>, view: &View) -> Result<(), NoMemory>
    ensures { OnOk result (names.new.items ≡ names.old.items ++ names_read view.now.stages view.now.source) }
{
    let alloc = *names.allocator();
    names.push(Str::of(String::from_str(alloc, view.source())?))?;
    'lists: for name in view.lookups() {
        names.push(name.try_clone()?)?;
    }
    Ok(())
}
