//! Expressions from values.

ghost use Rattle.std.specs.Prelude.{◌≡◌, true};
ghost use Rattle.std.specs.Option.{option_map};
ghost use Rattle.dv_value.specs.Tree.{string, fields_of};
ghost use Rattle.dv_value.specs.View.{tree};
ghost use Rattle.dv_value.specs.Results.{Gives};
ghost use Rattle.dv_row.specs.declared.fault.PipelineFault.TheVariants.{NoMemory as no_memory};
ghost use Rattle.dv_row.specs.ExpressionView.{expression_seen, named};
ghost use Rattle.dv_row.specs.ExpressionParsing as defined;

use crate::expr::{Computed, ComputedField, Expr};
use crate::fault::PipelineFault;
use crate::field_path::field_path;
use crate::switch::switch_of;
use dv_path::has_dot;
use dv_value::{Document, Str, Value, begins_with_dollar};
use std::alloc::Global;

impl Expr {
    /// The expression that the value is: the path after a dollar sign, the value of `$literal`, a document of expressions, whose
    /// names hold no dot and begin with no dollar sign, or the value itself, for any other value except an array. Refused with
    /// `BadSpec` if it is none, and with `NoMemory` if memory runs out.
    pub fn parse(alloc: Global, value: &Value) -> Result<Expr, PipelineFault>
        ensures { Gives no_memory expression_seen result (defined.expression_in true (tree value.now)) }
    {
        Expr::parse_where(alloc, true, value)
    }

    /// The expression that the value is, where `plain` says whether numbers and booleans stand for themselves.
    #[cycle(expr_parsing)]
    #[tactic(auto, unfolding(crate::specs::ExpressionParsing::expression_in))]
    pub(crate) fn parse_where(
        alloc: Global,
        plain: bool,
        value: &Value,
    ) -> Result<Expr, PipelineFault>
        ensures { Gives no_memory expression_seen result (defined.expression_in plain (tree value.now)) }
    {
        match value {
            Value::Text(text) => text_expression(alloc, text.as_str(), value),
            Value::Doc(document) => document_expression(alloc, plain, document),
            Value::Array(_) => Err(PipelineFault::BadSpec),
            _ => constant(plain, value),
        }
    }
}

/// The expression that a document is.
#[cycle(expr_parsing)]
fn document_expression(
    alloc: Global,
    plain: bool,
    document: &Document,
) -> Result<Expr, PipelineFault>
    ensures { Gives no_memory expression_seen result (defined.literal_or_made (defined.literal_in (fields_of document.now)) (defined.computed_in plain (fields_of document.now))) }
{
    match literal_of(document) {
        Some(value) => Ok(Expr::Constant(value.try_clone()?)),
        None => Ok(Expr::Document(Computed::parse(alloc, plain, document)?)),
    }
}

impl Computed {
    /// The fields of a document of expressions.
    #[cycle(expr_parsing)]
    fn parse(alloc: Global, plain: bool, document: &Document) -> Result<Computed, PipelineFault>
        ensures { Gives no_memory (λ computed. computed) result (defined.computed_in plain (fields_of document.now)) }
    {
        let mut fields = Vec::new(alloc);
        'fields: for (name, value) in document.iter() {
            fields.push(field_of(alloc, plain, name, value)?)?;
        }
        Ok(Computed::of(fields))
    }
}

/// A field of a document of expressions.
#[cycle(expr_parsing)]
fn field_of(
    alloc: Global,
    plain: bool,
    name: &str,
    value: &Value,
) -> Result<ComputedField, PipelineFault>
    ensures { Gives no_memory named result (defined.under_name name.now (defined.expression_in plain (tree value.now))) }
{
    if begins_with_dollar(name) || has_dot(name) {
        return Err(PipelineFault::BadSpec);
    }
    let expr = Expr::parse_where(alloc, plain, value)?;
    let name = Str::of(String::from_str(alloc, name)?);
    Ok(ComputedField { name, expr })
}

/// The expression that a text is. The value is a string with this text.
fn text_expression(alloc: Global, text: &str, value: &Value) -> Result<Expr, PipelineFault>
    requires { tree value.now ≡ string text.now }
    ensures { Gives no_memory expression_seen result (defined.text_expression text.now) }
{
    if begins_with_dollar(text) {
        return Ok(Expr::Path(field_path(alloc, text)?));
    }
    Ok(Expr::Constant(value.try_clone()?))
}

/// A value that stands for itself. A number or a boolean does so only if `plain` is true.
fn constant(plain: bool, value: &Value) -> Result<Expr, PipelineFault>
    ensures { Gives no_memory expression_seen result (defined.constant_in plain (tree value.now)) }
{
    if !plain && switch_of(value).is_some() {
        return Err(PipelineFault::BadSpec);
    }
    Ok(Expr::Constant(value.try_clone()?))
}

/// The value under `$literal`, if that is the document's only field.
fn literal_of(document: &Document) -> Option<&Value>
    ensures { option_map (λ value. tree value.now) result ≡ defined.literal_in (fields_of document.now) }
{
    if document.len() != 1 {
        return None;
    }
    document.get("$literal")
}
