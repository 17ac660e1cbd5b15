ghost use Rattle.std.specs.Prelude.{◌≡◌, [], is_none, unwrap_or, ℕ, ◌↔◌, ◌∷◌, ◌++◌, ◌<◌, ◌+◌, ◌-◌, IsTrue, IsSome, IfOk, OnOk, IfErr, MatchOption, true, false, None, Some, drop, length, take, string_bytes};
ghost use Rattle.std.specs.Option.{option_map};
ghost use Rattle.vx_value.specs.Texts.{same_text};
ghost use Rattle.vx_subst.specs.Environment.{value_of};
ghost use Rattle.vx_subst.specs.Pieces.{behind, form_of, pieces_after};
ghost use Rattle.vx_subst.specs.Replaced.{becomes, lacks, name_in, replaced, first_lacking, or_default};
ghost use Rattle.vx_subst.specs.Faults.{ReportsFirst, ReportsLack, ReportsOf};
ghost use Rattle.vx_subst.specs.Views.{piece_view};

use crate::form::{Form, Found, form_of, unclosed_len};
use crate::subst_fault::SubstFault;
use std::alloc::Global;
use vx_value::{Text, Variable, VariableList};

/// A text with its variables replaced by their values.
///
/// `$$` becomes `$`. `$NAME`, with the longest name, and `${NAME}` become the variable's value, and `${NAME:-default}`
/// the value, or the default, which ends before the next `}`, where the variable is missing or empty. Any other `$`
/// stands for itself. A name has letters and digits of ASCII, `_` and `.`, one at least. What is put in isn't read
/// again, and of two variables with one name the first counts.
///
/// `MissingVariable` comes exactly where a variable without a default isn't in the environment; want of memory comes
/// at any text.
pub fn replace(alloc: Global, text: &str, environment: &VariableList) -> Result<Text, SubstFault>
    ensures replaced { IfOk result (λ new. new ≡ replaced environment.now text.now) }
    ensures whole { OnOk result (first_lacking environment.now text.now ≡ None) }
    ensures missing { IfErr result (ReportsFirst environment.now text.now) }
{
    let mut out = String::new(alloc);
    let unclosed = unclosed_len(text);
    let mut rest = text;
    while let Some((before, after)) = rest.split_once('$') {
        push(&mut out, before)?;
        let Found { form, rest: behind } = form_of(after, unclosed);
        let at = text.len() - after.len() - 1;
        push_form(alloc, &mut out, form, environment.as_slice(), at as u64)?;
        rest = behind;
    }
    push(&mut out, rest)?;
    Ok(Text::copy_of(alloc, out.as_str())?)
}

/// Adds a text at the end.
fn push(out: &mut String, text: &str) -> Result<(), SubstFault>
    ensures ok { OnOk result (string_bytes out.new ≡ string_bytes out.old ++ text.now) }
    ensures err { IfErr result (λ fault. fault ≡ SubstFault.WantOfMemory) }
{
    match out.push_str(text) {
        Ok(()) => Ok(()),
        Err(_) => Err(SubstFault::WantOfMemory),
    }
}

/// The value of a variable.
fn value_of<'a>(environment: &'a [Variable], name: &str) -> Option<&'a str>
    ensures { option_map (λ value. value.now) result ≡ value_of environment.now name.now }
{
    for variable in environment {
        if variable.name.as_str() == name {
            return Some(variable.value.as_str());
        }
    }
    None
}

/// Adds the value of the variable of a form that stands at a place.
fn push_value(
    alloc: Global,
    out: &mut String,
    environment: &[Variable],
    name: &str,
    at: u64,
) -> Result<(), SubstFault>
    ensures ok { OnOk result
        (string_bytes out.new ≡ string_bytes out.old
        ++ unwrap_or (value_of environment.now name.now) []) }
    ensures whole { OnOk result (is_none (value_of environment.now name.now) ≡ false) }
    ensures missing { IfErr result
        (ReportsLack (is_none (value_of environment.now name.now)) name.now at) }
{
    match value_of(environment, name) {
        Some(value) => push(out, value),
        None => Err(missing(alloc, name, at)),
    }
}

/// Adds the value of a variable, or the default where it is missing or empty.
fn push_value_or(
    out: &mut String,
    environment: &[Variable],
    name: &str,
    default: &str,
) -> Result<(), SubstFault>
    ensures ok { OnOk result (string_bytes out.new
        ≡ string_bytes out.old ++ or_default (value_of environment.now name.now) default.now) }
    ensures err { IfErr result (λ fault. fault ≡ SubstFault.WantOfMemory) }
{
    match value_of(environment, name) {
        Some(value) => {
            if value.is_empty() {
                push(out, default)
            } else {
                push(out, value)
            }
        }
        None => push(out, default),
    }
}

/// Adds what a form becomes, which stands at a place.
#[tactic(auto, unfolding(crate::specs::Replaced::becomes, crate::specs::Replaced::lacks, crate::specs::Replaced::name_in))]
fn push_form(
    alloc: Global,
    out: &mut String,
    form: Form<'_>,
    environment: &[Variable],
    at: u64,
) -> Result<(), SubstFault>
    ensures ok { OnOk result
        (string_bytes out.new ≡ string_bytes out.old
        ++ becomes environment.now (piece_view form.entry)) }
    ensures whole { OnOk result (lacks environment.now (piece_view form.entry) ≡ false) }
    ensures missing { IfErr result
        (ReportsLack (lacks environment.now (piece_view form.entry))
        (name_in (piece_view form.entry)) at) }
{
    match form {
        Form::Escaped => push(out, "$"),
        Form::Lone => push(out, "$"),
        Form::Named(name) => push_value(alloc, out, environment, name, at),
        Form::InBraces(name) => push_value(alloc, out, environment, name, at),
        Form::InBracesOr(name, default) => push_value_or(out, environment, name, default),
    }
}

/// The fault of a missing variable.
fn missing(alloc: Global, name: &str, at: u64) -> SubstFault
    ensures { ReportsOf name.now at result }
{
    match Text::copy_of(alloc, name) {
        Ok(name) => SubstFault::MissingVariable { name, at },
        Err(_) => SubstFault::WantOfMemory,
    }
}
