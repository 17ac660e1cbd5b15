ghost use Rattle.std.specs.Prelude.{◌≡◌, ℕ, ◌↔◌, ◌∷◌, ◌++◌, ◌-◌, ◌<◌, ◌≤◌, IsTrue, true, false, drop, length, take, nat_lt, slice_index, MatchOption};
ghost use Rattle.std.specs.List.{prefix_len, position_or_len, before_first};
ghost use Rattle.vx_subst.specs.Pieces.{Plain, form_of, bare, braced, with_default, behind, begins_with, end_brace, is_name_byte, is_end_brace};
ghost use Rattle.vx_subst.specs.Unclosed.{IsUnclosed};
ghost use Rattle.vx_subst.specs.Views.{piece_view};

/// A form that begins with `$`.
#[derive(Clone, Copy)]
pub enum Form<'a> {
    /// `$$`.
    Escaped,
    /// A `$` that stands for itself.
    Lone,
    /// `$NAME`.
    Named(&'a str),
    /// `${NAME}`.
    InBraces(&'a str),
    /// `${NAME:-default}`.
    InBracesOr(&'a str, &'a str),
}

/// A form, and what follows it.
#[derive(Clone, Copy)]
pub struct Found<'a> {
    pub form: Form<'a>,
    pub rest: &'a str,
}

/// Whether a byte may stand in a name.
fn is_name_byte(b: u8) -> bool
    ensures { result ≡ is_name_byte b }
{
    b.is_ascii_digit() || b.is_ascii_uppercase() || b.is_ascii_lowercase() || b == b'_' || b == b'.'
}

/// How many bytes of a name a text begins with.
fn name_len(text: &str) -> usize
    ensures { result ≡ prefix_len is_name_byte text.now }
{
    for (i, b) in text.as_bytes().iter().enumerate() {
        if !is_name_byte(*b) {
            return i;
        }
    }
    text.len()
}

/// A name, and what follows it.
fn split_name(text: &str) -> (&str, &str)
    ensures name { result.0.now ≡ take (prefix_len is_name_byte text.now) text.now }
    ensures rest { result.1.now ≡ drop (prefix_len is_name_byte text.now) text.now }
    ensures whole { text.now ≡ result.0.now ++ result.1.now }
{
    text.split_at(name_len(text))
}

/// What follows a first character.
fn behind_first(text: &str, first: char) -> Option<&str>
    requires { first < 128 }
    ensures { MatchOption result (begins_with first text.now ≡ false)
        (λ rest. text.now ≡ first ∷ rest.now) }
{
    text.strip_prefix(first)
}

/// What stands before the first `}`, and what follows it.
fn split_brace(text: &str) -> Option<(&str, &str)>
    ensures none { MatchOption result
        (nat_lt (position_or_len is_end_brace text.now) (length text.now) ≡ false)
        (λ _. nat_lt (position_or_len is_end_brace text.now) (length text.now) ≡ true) }
    ensures some { MatchOption result (Unit {0})
        (λ parts. (parts.0.now ≡ before_first is_end_brace text.now)
        × (text.now ≡ parts.0.now ++ 125 ∷ parts.1.now)) }
{
    text.split_once('}')
}

/// How many bytes follow the last `}` of a text: all of them, where it has none.
pub fn unclosed_len(text: &str) -> usize
    ensures within { result ≤ length text.now }
    ensures unclosed { IsUnclosed result text.now }
    ensures closed { result < length text.now →
        slice_index text.now (length text.now - result - 1) ≡ end_brace }
{
    match text.rfind('}') {
        Some(at) => text.len() - at - 1,
        None => text.len(),
    }
}

/// The form whose `$` stands before a text, among whose last bytes, as many as said, is no `}`.
///
/// A default without an end is told by its length, and no search for the end is in vain.
#[tactic(auto, using(crate::proofs::Drops::drops), unfolding(crate::specs::Pieces::form_of, crate::specs::Pieces::behind))]
pub fn form_of(text: &str, unclosed: usize) -> Found<'_>
    requires { IsUnclosed unclosed text.now }
    ensures form { piece_view result.form ≡ form_of text.now }
    ensures rest { result.rest.now ≡ drop (behind (form_of text.now)) text.now }
{
    if let Some(rest) = behind_first(text, '$') {
        return Found {
            form: Form::Escaped,
            rest,
        };
    }
    match behind_first(text, '{') {
        Some(inner) => braced(text, inner, unclosed),
        None => bare(text),
    }
}

/// The form `$NAME`, by what follows the `$`.
#[tactic(auto, using(crate::proofs::Drops::drops), unfolding(crate::specs::Pieces::bare, crate::specs::Pieces::behind))]
fn bare(text: &str) -> Found<'_>
    ensures form { piece_view result.form
        ≡ bare (take (prefix_len is_name_byte text.now) text.now) }
    ensures rest { result.rest.now ≡ drop (behind (piece_view result.form)) text.now }
{
    let (name, rest) = split_name(text);
    if name.is_empty() {
        lone(text)
    } else {
        Found {
            form: Form::Named(name),
            rest,
        }
    }
}

/// The form that begins with `${`, by what follows the `$` and by what follows the brace.
#[tactic(auto, using(crate::proofs::Drops::drops), unfolding(crate::specs::Pieces::braced, crate::specs::Pieces::behind))]
fn braced<'a>(text: &'a str, inner: &'a str, unclosed: usize) -> Found<'a>
    requires whole { text.now ≡ 123 ∷ inner.now }
    requires unclosed { IsUnclosed unclosed inner.now }
    ensures form { piece_view result.form
        ≡ braced (take (prefix_len is_name_byte inner.now) inner.now)
        (drop (prefix_len is_name_byte inner.now) inner.now) }
    ensures rest { result.rest.now ≡ drop (behind (piece_view result.form)) text.now }
{
    let (name, after) = split_name(inner);
    if name.is_empty() {
        return lone(text);
    }
    if let Some(rest) = behind_first(after, '}') {
        return Found {
            form: Form::InBraces(name),
            rest,
        };
    }
    match behind_first(after, ':') {
        Some(dash) => match behind_first(dash, '-') {
            Some(default) => with_default(text, name, default, unclosed),
            None => lone(text),
        },
        None => lone(text),
    }
}

/// A `$` that stands for itself before a text.
#[tactic(auto, unfolding(crate::specs::Pieces::behind))]
fn lone(text: &str) -> Found<'_>
    ensures form { piece_view result.form ≡ Plain 36 }
    ensures rest { result.rest.now ≡ drop (behind (piece_view result.form)) text.now }
{
    Found {
        form: Form::Lone,
        rest: text,
    }
}

/// The form that begins with `${`, a name and `:-`, by what follows the `$` and by what follows the `:-`.
#[tactic(auto, using(crate::proofs::Drops::drops), unfolding(crate::specs::Pieces::with_default, crate::specs::Pieces::behind))]
fn with_default<'a>(text: &'a str, name: &'a str, default: &'a str, unclosed: usize) -> Found<'a>
    requires whole { text.now ≡ 123 ∷ (name.now ++ 58 ∷ 45 ∷ default.now) }
    requires unclosed { IsUnclosed unclosed default.now }
    ensures form { piece_view result.form ≡ with_default name.now default.now }
    ensures rest { result.rest.now ≡ drop (behind (piece_view result.form)) text.now }
{
    if default.len() <= unclosed {
        return lone(text);
    }
    match split_brace(default) {
        Some((default, rest)) => Found {
            form: Form::InBracesOr(name, default),
            rest,
        },
        None => lone(text),
    }
}
