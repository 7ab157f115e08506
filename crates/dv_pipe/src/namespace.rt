//! Namespaces: the name of a database, a dot, and the name of a collection.

ghost use Rattle.std.specs.Prelude.{◌≡◌};
ghost use Rattle.std.specs.Str.{bytes_eq};
ghost use Rattle.dv_pipe.specs.Stages as defined;

/// The database of a namespace.
fn database_of(namespace: &str) -> &str
    ensures { result.now ≡ defined.database_of namespace.now }
{
    match namespace.split_once('.') {
        Some((database, _)) => database,
        None => namespace,
    }
}

/// Whether the namespace is that of the collection in the database of `source`.
pub(crate) fn is_beside(source: &str, collection: &str, namespace: &str) -> bool
    ensures { result ≡ bytes_eq namespace.now (defined.beside source.now collection.now) }
{
    match namespace.split_once('.') {
        Some((database, name)) => database == database_of(source) && name == collection,
        None => false,
    }
}
