ghost use Rattle.std.specs.Prelude.{◌≡◌, IfOk, IsOkUnless};
ghost use Rattle.serde_json.specs.View.{view};
ghost use Rattle.qq_defs.specs.Reading.{Gives, section_name, path, text_at, flag_at, vhost_at, object_at};

use crate::fault::DefsFault;
use qq_base::{Memory, Text};
use serde_json::Value;
use std::alloc::Global;

/// A list of the definitions.
#[derive(Clone, Copy)]
pub enum Section {
    Queues,
    Exchanges,
    Bindings,
}

/// An element of a list.
#[derive(Clone, Copy)]
pub struct Place {
    pub section: Section,
    /// From 0.
    pub index: usize,
}

fn section_name(section: Section) -> &'static str
    ensures { result.now ≡ section_name section }
{
    match section {
        Section::Queues => "queues",
        Section::Exchanges => "exchanges",
        Section::Bindings => "bindings",
    }
}

#[tactic(auto, unfolding(crate::specs::Reading::path))]
fn path(alloc: Global, at: Place, field: &str) -> Result<Text, Memory>
    ensures ok { IfOk result (λ text. text ≡ path at field.now) }
    ensures want { IsOkUnless result Memory.Want }
{
    let mut text = String::from_str(alloc, section_name(at.section))?;
    text.push_str("[")?;
    text.push_str(format!(in alloc; "{}", at.index)?.as_str())?;
    text.push_str("].")?;
    text.push_str(field)?;
    Ok(Text::from_string(text))
}

/// A text field of an element.
#[tactic(auto, unfolding(crate::specs::Reading::text_at))]
pub fn text_at<'a>(
    alloc: Global,
    at: Place,
    field: &str,
    element: &'a Value,
) -> Result<&'a str, DefsFault>
    ensures { Gives (λ text. text.now) result (text_at at field.now (view element.now)) }
{
    match element.get(field).and_then(Value::as_str) {
        Some(text) => Ok(text),
        None => Err(DefsFault::Missing {
            path: path(alloc, at, field)?,
        }),
    }
}

/// A boolean field of an element.
#[tactic(auto, unfolding(crate::specs::Reading::flag_at))]
pub fn flag_at(alloc: Global, at: Place, field: &str, element: &Value) -> Result<bool, DefsFault>
    ensures { Gives (λ flag. flag) result (flag_at at field.now (view element.now)) }
{
    match element.get(field).and_then(Value::as_bool) {
        Some(flag) => Ok(flag),
        None => Err(DefsFault::Missing {
            path: path(alloc, at, field)?,
        }),
    }
}

/// The virtual host of an element.
#[tactic(auto, unfolding(crate::specs::Reading::vhost_at))]
pub fn vhost_at<'a>(alloc: Global, at: Place, element: &'a Value) -> Result<&'a str, DefsFault>
    ensures { Gives (λ text. text.now) result (vhost_at at (view element.now)) }
{
    let Some(value) = element.get("vhost") else {
        return Ok("/");
    };
    match value.as_str() {
        Some(text) => Ok(text),
        None => Err(DefsFault::Missing {
            path: path(alloc, at, "vhost")?,
        }),
    }
}

/// An object field of an element.
#[tactic(auto, unfolding(crate::specs::Reading::object_at))]
pub fn object_at<'a>(
    alloc: Global,
    at: Place,
    field: &str,
    element: &'a Value,
) -> Result<&'a Value, DefsFault>
    ensures { Gives (λ value. view value.now) result (object_at at field.now (view element.now)) }
{
    if let Some(value) = element.get(field) {
        if value.is_object() {
            return Ok(value);
        }
    }
    Err(DefsFault::Missing {
        path: path(alloc, at, field)?,
    })
}
