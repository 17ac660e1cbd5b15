ghost use Rattle.std.specs.Prelude.{◌≡◌, ℕ, true, false, [], ◌∷◌, ◌++◌, MatchOption, ◌&&◌};
ghost use Rattle.vx_value.specs.Texts.{ByteString};
ghost use Rattle.vx_graph.specs.Outputs.{output_text};
ghost use Rattle.vx_graph.specs.Turns.{IsTurn, left_text};
ghost use Rattle.vx_graph.specs.Patterns.{is_like, has_star};

/// What is left of an output's text, in three pieces: a component's name, a dot, and a port's name.
#[derive(Clone, Copy)]
pub struct Left<'a> {
    name: &'a [u8],
    dot: &'a [u8],
    port: &'a [u8],
}

/// The text by which inputs name a component's port, in pieces.
pub fn output_pieces<'a>(name: &'a str, port: &'a str) -> Left<'a>
    ensures { left_text result ≡ output_text name.now port.now }
{
    let name = name.as_bytes();
    let port = port.as_bytes();
    let dot: &[u8] = if port.is_empty() { &[] } else { b"." };
    Left { name, dot, port }
}

/// A whole text.
pub fn whole(text: &str) -> Left<'_>
    ensures { left_text result ≡ text.now }
{
    Left {
        name: text.as_bytes(),
        dot: &[],
        port: &[],
    }
}

/// Whether a text has a `*`.
pub fn has_star(text: &[u8]) -> bool
    ensures { result ≡ has_star text.now }
{
    for c in text {
        if *c == b'*' {
            return true;
        }
    }
    false
}

/// The first byte of some, and what follows it.
fn first_of(text: &[u8]) -> Option<(u8, &[u8])>
    ensures { MatchOption result (text.now ≡ []) (λ found. text.now ≡ found.0 ∷ found.1.now) }
{
    match text {
        [c, rest @ ..] => Some((*c, rest)),
        [] => None,
    }
}

/// The first byte of a text, and what follows it.
fn next<'a>(left: Left<'a>) -> Option<(u8, Left<'a>)>
    ensures { MatchOption result (left_text left.entry ≡ [])
        (λ found. left_text left.entry ≡ found.0 ∷ left_text found.1) }
{
    match left.name {
        [c, name @ ..] => Some((*c, Left { name, ..left })),
        [] => match left.dot {
            [c, dot @ ..] => Some((*c, Left { dot, ..left })),
            [] => match left.port {
                [c, port @ ..] => Some((*c, Left { port, ..left })),
                [] => None,
            },
        },
    }
}

/// What the comparison of a form with a text found.
#[derive(Clone, Copy)]
enum Turn<'a> {
    /// The text is of the form.
    Like,
    /// A `*` follows what they share: what follows it in the form, and what is left of the text.
    Star(&'a [u8], Left<'a>),
    /// The text isn't of the form.
    Unlike,
}

/// Compares a form with a text up to a `*`.
fn compare<'a>(form: &'a [u8], text: Left<'a>) -> Turn<'a>
    ensures { IsTurn form.now (left_text text.entry) result }
{
    let mut form = form;
    let mut left = text;
    'bytes: loop {
        let Some((wanted, behind)) = first_of(form) else {
            return match next(left) {
                None => Turn::Like,
                Some(_) => Turn::Unlike,
            };
        };
        if wanted == b'*' {
            return Turn::Star(behind, left);
        }
        let Some((found, rest)) = next(left) else {
            return Turn::Unlike;
        };
        if found != wanted {
            return Turn::Unlike;
        }
        form = behind;
        left = rest;
    }
}

/// The last byte of some.
fn last_of(text: &[u8]) -> Option<u8>
    ensures { MatchOption result (text.now ≡ [])
        (λ last. (front : ByteString) × (text.now ≡ front ++ last ∷ [])) }
{
    match text {
        [.., last] => Some(*last),
        [] => None,
    }
}

/// The last byte of a text.
fn last_left(text: Left) -> Option<u8>
    ensures { MatchOption result (left_text text.entry ≡ [])
        (λ last. (front : ByteString) × (left_text text.entry ≡ front ++ last ∷ [])) }
{
    match last_of(text.port) {
        Some(last) => Some(last),
        None => match last_of(text.dot) {
            Some(last) => Some(last),
            None => last_of(text.name),
        },
    }
}

/// Whether the last bytes show that a text isn't of a form.
fn ends_apart(form: &[u8], text: Left) -> bool
    ensures { result ≡ true → is_like form.now (left_text text.entry) ≡ false }
{
    let Some(wanted) = last_of(form) else {
        return false;
    };
    let Some(last) = last_left(text) else {
        return false;
    };
    wanted != b'*' && wanted != last
}

/// Whether a text is of a pattern's form, in which each `*` stands for any text.
pub fn is_like(pattern: &[u8], text: Left) -> bool
    ensures { result ≡ is_like pattern.now (left_text text.entry) }
{
    !ends_apart(pattern, text) && fits(pattern, text)
}

/// Whether a text is of a form, by their bytes from the first on.
///
/// Behind a `*` the earliest place counts, so no place is tried twice for one `*`.
#[tactic(auto, using(crate::proofs::Likeness::turns))]
fn fits(pattern: &[u8], text: Left) -> bool
    ensures { result ≡ is_like pattern.now (left_text text.entry) }
{
    let mut form = pattern;
    let mut rest = text;
    let mut starred = false;
    'places: loop {
        match compare(form, rest) {
            Turn::Like => return true,
            Turn::Star(behind, left) => {
                form = behind;
                rest = left;
                starred = true;
            }
            Turn::Unlike => {
                if !starred {
                    return false;
                }
                match next(rest) {
                    Some((_, later)) => rest = later,
                    None => return false,
                }
            }
        }
    }
}
