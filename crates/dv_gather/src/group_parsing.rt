//! `$group` from values.

ghost use Rattle.std.specs.Prelude.{◌≡◌, map, codes, IfOk};
ghost use Rattle.dv_value.specs.Names.{value_under, without};
ghost use Rattle.dv_value.specs.View.{tree};
ghost use Rattle.dv_row.specs.ExpressionView.{expression_seen};
ghost use Rattle.dv_value.specs.Results.{Gives, each};
ghost use Rattle.dv_row.specs.declared.fault.PipelineFault.TheVariants.{NoMemory as no_memory};
ghost use Rattle.dv_gather.specs.GroupParsing as defined;
ghost use Rattle.dv_gather.specs.Inner.GroupView.{accumulation};

use crate::accumulator::Accumulator;
use crate::group::{Group, GroupField};
use dv_row::{Expr, PipelineFault};
use dv_value::{Document, NoMemory, Str, Value};
use std::alloc::Global;

impl Group {
    /// The grouping that the value is: a document with an expression under `_id`, at any place, and under each other name a
    /// document of one accumulator, `$sum`, `$min`, `$max` or `$push`, with an expression. Refused with `BadSpec` if it is none,
    /// and with `NoMemory` if memory runs out.
    #[tactic(auto, unfolding(crate::specs::GroupParsing::group_in))]
    pub fn parse(alloc: Global, value: &Value) -> Result<Group, PipelineFault>
        ensures { Gives no_memory (λ group. group) result (defined.group_in (tree value.now)) }
    {
        match value {
            Value::Doc(document) => Group::of_document(alloc, document),
            _ => Err(PipelineFault::BadSpec),
        }
    }

    fn of_document(alloc: Global, document: &Document) -> Result<Group, PipelineFault>
        ensures { Gives no_memory (λ group. group) result (defined.group_of document.now) }
    {
        let key = key_of(alloc, document)?;
        let others = others_of(document)?;
        let fields = fields_of(alloc, &others)?;
        Ok(Group::of(key, fields))
    }
}

/// The expression under `_id`.
fn key_of(alloc: Global, document: &Document) -> Result<Expr, PipelineFault>
    ensures { Gives no_memory expression_seen result (defined.key_form (value_under (codes "_id") document.now)) }
{
    match document.get("_id") {
        Some(key) => Expr::parse(alloc, key),
        None => Err(PipelineFault::BadSpec),
    }
}

/// The fields under other names than `_id`.
fn others_of(document: &Document) -> Result<Document, NoMemory>
    ensures { IfOk result (λ others. others ≡ without (codes "_id") document.now) }
{
    let mut others = document.try_clone()?;
    let _ = others.remove("_id")?;
    Ok(others)
}

/// The fields of a group.
fn fields_of(alloc: Global, document: &Document) -> Result<Vec<GroupField>, PipelineFault>
    ensures { Gives no_memory (λ fields. map accumulation fields.items) result (each defined.field_in document.now) }
{
    let mut fields = Vec::new(alloc);
    'fields: for (name, value) in document.iter() {
        fields.push(field_of(alloc, name, value)?)?;
    }
    Ok(fields)
}

/// The field of this name.
fn field_of(alloc: Global, name: &str, value: &Value) -> Result<GroupField, PipelineFault>
    ensures { Gives no_memory accumulation result (defined.accumulation_in name.now (tree value.now)) }
{
    match value {
        Value::Doc(document) => field_alone(alloc, name, document),
        _ => Err(PipelineFault::BadSpec),
    }
}

/// The field that one accumulator with its expression makes.
fn field_alone(alloc: Global, name: &str, document: &Document) -> Result<GroupField, PipelineFault>
    ensures { Gives no_memory accumulation result (defined.accumulator_alone name.now document.now) }
{
    if document.len() != 1 {
        return Err(PipelineFault::BadSpec);
    }
    let Some((word, argument)) = document.entry(0) else {
        return Err(PipelineFault::BadSpec);
    };
    let accumulator = accumulator_of(word)?;
    let expr = Expr::parse(alloc, argument)?;
    let name = Str::of(String::from_str(alloc, name)?);
    Ok(GroupField {
        name,
        accumulator,
        expr,
    })
}

/// The accumulator of this name.
fn accumulator_of(name: &str) -> Result<Accumulator, PipelineFault>
    ensures { result ≡ defined.accumulator_named name.now }
{
    match name {
        "$sum" => Ok(Accumulator::Sum),
        "$min" => Ok(Accumulator::Min),
        "$max" => Ok(Accumulator::Max),
        "$push" => Ok(Accumulator::Push),
        _ => Err(PipelineFault::BadSpec),
    }
}
