ghost use Rattle.std.specs.Prelude.{◌≡◌, find};
ghost use Rattle.std.specs.List.{position_or_len};
ghost use Rattle.std.specs.Option.{option_copied};
ghost use Rattle.vx_value.specs.Texts.{same_text, text_le};
ghost use Rattle.vx_plan.specs.declared.component.Component.{Component};

use crate::component::Component;

/// Whether two texts are the same.
pub(crate) fn same_text(a: &str, b: &str) -> bool
    ensures { result ≡ same_text a.now b.now }
{
    a == b
}

/// Whether a text comes no later than another by its bytes.
pub(crate) fn text_le(a: &[u8], b: &[u8]) -> bool
    ensures { result ≡ text_le a.now b.now }
{
    match a {
        [] => true,
        [first, a @ ..] => match b {
            [] => false,
            [other, b @ ..] => first < other || (first == other && text_le(a, b)),
        },
    }
}

/// The first component of a name.
pub(crate) fn named<'a>(components: &'a [Component], name: &str) -> Option<&'a Component>
    ensures { option_copied result
        ≡ find (λ (c : Component). same_text c.name name.now) components.now }
{
    match components {
        [] => None,
        [first, rest @ ..] => {
            if same_text(first.name.as_str(), name) {
                Some(first)
            } else {
                named(rest, name)
            }
        }
    }
}

/// The place of the first component of a name, or the number of components.
pub(crate) fn place_named(components: &[Component], name: &str) -> usize
    ensures { result ≡ position_or_len
        (λ (c : Component). same_text c.name name.now) components.now }
{
    for (i, component) in components.iter().enumerate() {
        if same_text(component.name.as_str(), name) {
            return i;
        }
    }
    components.len()
}
