//! Paths after a dollar sign.

ghost use Rattle.std.specs.Prelude.{◌≡◌};
ghost use Rattle.std.specs.Option.{option_map};
ghost use Rattle.dv_value.specs.Results.{Gives};
ghost use Rattle.dv_row.specs.declared.fault.PipelineFault.TheVariants.{NoMemory as no_memory};
ghost use Rattle.dv_row.specs.Parsing as defined;
ghost use Rattle.dv_row.specs.Parsing.{path_in};

use crate::fault::PipelineFault;
use dv_candidates::Path;
use dv_value::begins_with_dollar;
use std::alloc::Global;

/// The path after a dollar sign. Refused with `BadSpec` if there is none, or if another dollar sign follows, and with
/// `NoMemory` if memory runs out.
pub(crate) fn field_path(alloc: Global, text: &str) -> Result<Path, PipelineFault>
    ensures { Gives no_memory (λ path. path) result (path_in text.now) }
{
    let Some(path) = behind_dollar(text) else {
        return Err(PipelineFault::BadSpec);
    };
    if begins_with_dollar(path) {
        return Err(PipelineFault::BadSpec);
    }
    Ok(Path::parse(alloc, path)?)
}

/// What follows a dollar sign.
fn behind_dollar(text: &str) -> Option<&str>
    ensures { option_map (λ behind. behind.now) result ≡ defined.behind_dollar text.now }
{
    text.strip_prefix('$')
}
