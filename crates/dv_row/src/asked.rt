//! The members of a `$project`.

ghost use Rattle.std.specs.Prelude.{◌≡◌, ◌∷◌, [], true, false, map, Some, None, Ok, OnOk, OnErr, if◌then◌else◌};
ghost use Rattle.std.specs.List.{list_any};
ghost use Rattle.dv_value.specs.View.{tree};
ghost use Rattle.dv_value.specs.Results.{Gives};
ghost use Rattle.dv_row.specs.declared.fault.PipelineFault.TheVariants.{NoMemory as no_memory};
ghost use Rattle.dv_candidates.specs.Path.{path_of};
ghost use Rattle.dv_row.specs.Inner.AskedView.{asked as seen};
ghost use Rattle.dv_row.specs.Inner.Conflicts.{TakesMember, paths_conflict as list_conflicts};
ghost use Rattle.dv_row.specs.ExpressionView.{expression_seen, named};
ghost use Rattle.dv_row.specs.ProjectParsing as defined;
ghost use Rattle.dv_row.specs.declared.fault.PipelineFault.TheVariants.{Conflict};

use crate::conflict::{has_conflict, one_begins};
use crate::expr::{Computed, ComputedField, Expr};
use crate::fault::PipelineFault;
use crate::paths::Paths;
use crate::project::Project;
use crate::switch::switch_of;
use dv_candidates::{Component, Path};
use dv_path::has_dot;
use dv_value::{Document, NoMemory, Str, Value};
use std::alloc::Global;

/// What the members ask for: the paths that are included, those that are excluded, the fields that are computed.
#[derive(Debug, Drop)]
pub(crate) struct Asked {
    included: Vec<Path>,
    excluded: Vec<Path>,
    computed: Vec<ComputedField>,
}

impl Project {
    /// The projection that the value is, a document that isn't empty, or its first fault in written order: `BadSpec`, or `Conflict`
    /// if a path equals or begins an earlier one, or an earlier one begins it. Fails with `NoMemory` when memory runs out.
    #[tactic(auto, unfolding(crate::specs::ProjectParsing::project_in))]
    pub fn parse(alloc: Global, value: &Value) -> Result<Project, PipelineFault>
        ensures { Gives no_memory (λ project. project) result (defined.project_in (tree value.now)) }
    {
        let Value::Doc(document) = value else {
            return Err(PipelineFault::BadSpec);
        };
        if document.is_empty() {
            return Err(PipelineFault::BadSpec);
        }
        let asked = members_of(alloc, document)?;
        asked.into_project(alloc)
    }
}

/// What the members ask for, or the first fault. All paths are checked for conflicts at once. If a member has another fault, the
/// paths before it are checked: their conflict comes first.
fn members_of(alloc: Global, document: &Document) -> Result<Asked, PipelineFault>
    ensures { Gives no_memory seen result (defined.members_in defined.nothing_asked document.now) }
{
    let mut asked = Asked::new(alloc);
    let mut paths = Vec::new(alloc);
    'members: for (name, value) in document.iter() {
        match asked.take(alloc, name, value) {
            Ok(path) => paths.push(path)?,
            Err(fault) => return Err(first_fault(paths, fault)),
        }
    }
    if has_conflict(paths) {
        return Err(PipelineFault::Conflict);
    }
    Ok(asked)
}

/// The first fault of members with these paths, followed by a member that has the fault.
fn first_fault(paths: Vec<Path>, fault: PipelineFault) -> PipelineFault
    ensures { result ≡ (if list_conflicts paths.items then Conflict else fault) }
{
    if has_conflict(paths) {
        PipelineFault::Conflict
    } else {
        fault
    }
}

impl Asked {
    fn new(alloc: Global) -> Self
        ensures { seen result ≡ defined.nothing_asked }
    {
        Asked {
            included: Vec::new(alloc),
            excluded: Vec::new(alloc),
            computed: Vec::new(alloc),
        }
    }

    /// Takes a member, and returns its path. Whether the path conflicts with an earlier one is not checked here.
    fn take(&mut self, alloc: Global, name: &str, value: &Value) -> Result<Path, PipelineFault>
        ensures { TakesMember result (defined.with_member (name.now, tree value.now) (seen self.old)) (seen self.old) (seen self.new) }
    {
        let path = Path::parse(alloc, name)?;
        match switch_of(value) {
            Some(true) => self.include(path),
            Some(false) => self.exclude(path),
            None => self.compute(alloc, path, name, value),
        }
    }

    fn include(&mut self, path: Path) -> Result<Path, PipelineFault>
        ensures { TakesMember result (defined.with_path true path (seen self.old)) (seen self.old) (seen self.new) }
    {
        if is_below_id(path.components()) || self.excludes() {
            return Err(PipelineFault::BadSpec);
        }
        self.included.push(path.try_clone()?)?;
        Ok(path)
    }

    fn exclude(&mut self, path: Path) -> Result<Path, PipelineFault>
        ensures { TakesMember result (defined.with_path false path (seen self.old)) (seen self.old) (seen self.new) }
    {
        if is_below_id(path.components()) || !is_id(path.components()) && self.includes() {
            return Err(PipelineFault::BadSpec);
        }
        self.excluded.push(path.try_clone()?)?;
        Ok(path)
    }

    fn compute(
        &mut self,
        alloc: Global,
        path: Path,
        name: &str,
        value: &Value,
    ) -> Result<Path, PipelineFault>
        requires { path_of name.now ≡ Some path }
        ensures { TakesMember result (defined.with_switch None name.now path (tree value.now) (seen self.old)) (seen self.old) (seen self.new) }
    {
        if has_dot(name) {
            return Err(PipelineFault::BadSpec);
        }
        let expr = Expr::parse_where(alloc, false, value)?;
        if self.excludes() {
            return Err(PipelineFault::BadSpec);
        }
        self.add_computed(alloc, name, expr)?;
        Ok(path)
    }

    /// Adds a computed field. If memory runs out nothing is changed.
    fn add_computed(&mut self, alloc: Global, name: &str, expr: Expr) -> Result<(), NoMemory>
        ensures ok { OnOk result (seen self.new ≡ defined.with_computation name.now (expression_seen expr) (seen self.old)) }
        ensures err { OnErr result (seen self.new ≡ seen self.old) }
    {
        let name = Str::of(String::from_str(alloc, name)?);
        self.computed.push(ComputedField { name, expr })?;
        Ok(())
    }

    /// Whether something other than `_id` is excluded.
    fn excludes(&self) -> bool
        ensures { result ≡ defined.excludes (seen self.now) }
    {
        'paths: for path in &self.excluded {
            if !is_id(path.components()) {
                return true;
            }
        }
        false
    }

    /// Whether something is included or computed.
    fn includes(&self) -> bool
        ensures { result ≡ defined.includes (seen self.now) }
    {
        !(self.included.is_empty() && self.computed.is_empty())
    }

    /// Whether the path conflicts with what the members ask for.
    fn conflicts(&self, path: &[Component]) -> bool
        ensures { result ≡ defined.conflicts_with_asked path.now (seen self.now) }
    {
        any_path(path, &self.included)
            || any_path(path, &self.excluded)
            || any_field(path, &self.computed)
    }

    /// The form of what the members ask for.
    fn into_project(self, alloc: Global) -> Result<Project, PipelineFault>
        ensures { Gives no_memory (λ project. project) result (Ok (defined.project_form (seen self))) }
    {
        if !self.includes() {
            let Asked { excluded, .. } = self;
            let hidden = Paths::of(excluded)?;
            return Ok(Project::Exclude(hidden));
        }
        let id = Path::parse(alloc, "_id")?;
        let has_id = self.conflicts(id.components());
        let Asked {
            mut included,
            computed,
            ..
        } = self;
        if !has_id {
            included.push(id)?;
        }
        let shown = Paths::of(included)?;
        let computed = Computed::of(computed).sharing(alloc)?;
        Ok(Project::Include(shown, computed))
    }
}

/// Whether the path equals or begins one of the others, or one of them begins it.
fn any_path(path: &[Component], others: &[Path]) -> bool
    ensures { result ≡ list_any (defined.one_begins path.now) others.now }
{
    'others: for other in others {
        if one_begins(path, other.components()) {
            return true;
        }
    }
    false
}

/// Whether the path begins with the name of one of the fields.
fn any_field(path: &[Component], fields: &[ComputedField]) -> bool
    ensures { result ≡ list_any (λ c. defined.one_begins path.now (c.0 ∷ [])) (map named fields.now) }
{
    'fields: for field in fields {
        if begins_with(path, field.name.as_str()) {
            return true;
        }
    }
    false
}

/// Whether the path begins with the name.
fn begins_with(path: &[Component], name: &str) -> bool
    ensures { result ≡ defined.one_begins path.now (name.now ∷ []) }
{
    match path.split_first() {
        Some((first, _)) => first.as_str() == name,
        None => true,
    }
}

/// Whether the path is `_id`.
fn is_id(path: &[Component]) -> bool
    ensures { result ≡ defined.is_id_path path.now }
{
    match path {
        [only] => only.as_str() == "_id",
        _ => false,
    }
}

/// Whether the path leads into `_id`.
fn is_below_id(path: &[Component]) -> bool
    ensures { result ≡ defined.is_below_id path.now }
{
    match path {
        [first, _, ..] => first.as_str() == "_id",
        _ => false,
    }
}
