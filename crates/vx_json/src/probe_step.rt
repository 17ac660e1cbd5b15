ghost use Rattle.std.specs.Prelude.{◌≡◌, ℕ, ◌/◌, ◌==◌, None, false, if◌then◌else◌};
ghost use Rattle.vx_json.specs.Grammar.{is_blank};
ghost use Rattle.vx_json.specs.Machine.{text_move};
ghost use Rattle.vx_json.specs.ProbeModes as probe_modes;
ghost use Rattle.vx_json.specs.ProbeModes.{open_probe_mode, begin_probe_mode, end_probe_mode, after_probe_mode, probe_mode_step, probe_mode_ends};
ghost use Rattle.vx_json.specs.WordViews.{word_rest};
ghost use Rattle.vx_json.specs.Probing.{probe_mode_view, place_view};

use crate::nesting::Nesting;
use crate::number_move::{may_end, number_move};
use crate::number_place::NumberPlace;
use crate::probe_mode::ProbeMode;
use crate::step::{ends, is_blank, place_of};
use crate::text_move::TextMove;
use crate::text_place::TextPlace;
use crate::word_place::WordPlace;

/// Where a byte leads that opens a level, if one more may be open.
fn open(nesting: &mut Nesting, is_object: bool, next: ProbeMode) -> Option<ProbeMode>
    ensures { place_view result nesting.new.kinds
        ≡ open_probe_mode (probe_mode_view next) is_object nesting.old.kinds }
{
    if nesting.is_full() {
        return None;
    }
    nesting.open(is_object);
    Some(next)
}

/// Where a byte leads that closes a level.
fn close(nesting: &mut Nesting, is_object: bool) -> Option<ProbeMode>
    ensures { place_view result nesting.new.kinds
        ≡ probe_modes.stands (probe_modes.Behind is_object) (nesting.old.kinds / 2) }
{
    nesting.close();
    Some(ProbeMode::Behind(is_object))
}

/// Where a byte leads that begins a value.
fn begin(nesting: &mut Nesting, byte: u8) -> Option<ProbeMode>
    ensures { place_view result nesting.new.kinds ≡ begin_probe_mode nesting.old.kinds byte }
{
    match byte {
        b'"' => Some(ProbeMode::InText(TextPlace::Plain)),
        b'-' => Some(ProbeMode::InNumber(NumberPlace::Minus)),
        b'0' => Some(ProbeMode::InNumber(NumberPlace::Zero)),
        b'1'..=b'9' => Some(ProbeMode::InNumber(NumberPlace::Whole)),
        b'[' => open(nesting, false, ProbeMode::FirstItem),
        b'{' => open(nesting, true, ProbeMode::FirstName),
        b'n' => Some(ProbeMode::InWord(WordPlace::N)),
        b't' => Some(ProbeMode::InWord(WordPlace::T)),
        b'f' => Some(ProbeMode::InWord(WordPlace::F)),
        _ => None,
    }
}

/// Where a byte leads behind a bracket that opens an array.
fn first_item(nesting: &mut Nesting, byte: u8) -> Option<ProbeMode>
    ensures { place_view result nesting.new.kinds
        ≡ probe_mode_step probe_modes.FirstItem nesting.old.kinds byte }
{
    if is_blank(byte) {
        return Some(ProbeMode::FirstItem);
    }
    if byte == b']' {
        return close(nesting, false);
    }
    begin(nesting, byte)
}

/// Where a byte leads behind a brace that opens an object.
fn first_name(nesting: &mut Nesting, byte: u8) -> Option<ProbeMode>
    ensures { place_view result nesting.new.kinds
        ≡ probe_mode_step probe_modes.FirstName nesting.old.kinds byte }
{
    if is_blank(byte) {
        return Some(ProbeMode::FirstName);
    }
    match byte {
        b'}' => close(nesting, true),
        b'"' => Some(ProbeMode::InName(TextPlace::Plain)),
        _ => None,
    }
}

/// Where a byte leads behind blanks where one byte has to come.
fn expected(byte: u8, wanted: u8, here: ProbeMode, next: ProbeMode) -> Option<ProbeMode>
    ensures { (n : ℕ) → place_view result n
        ≡ (if is_blank byte then probe_modes.stands (probe_mode_view here) n
        else (if byte == wanted then probe_modes.stands (probe_mode_view next) n else None)) }
{
    if is_blank(byte) {
        return Some(here);
    }
    if byte == wanted { Some(next) } else { None }
}

/// Where a byte leads inside a name.
fn in_name(place: TextPlace, byte: u8) -> Option<ProbeMode>
    ensures { (n : ℕ) → place_view result n ≡ probe_mode_step (probe_modes.InName place) n byte }
{
    let step = TextMove::of(place, byte);
    if ends(step) {
        return Some(ProbeMode::Colon);
    }
    match place_of(step) {
        Some(next) => Some(ProbeMode::InName(next)),
        None => None,
    }
}

/// Where a byte leads inside a text.
fn in_text(place: TextPlace, byte: u8) -> Option<ProbeMode>
    ensures { (n : ℕ) → place_view result n ≡ probe_mode_step (probe_modes.InText place) n byte }
{
    let step = TextMove::of(place, byte);
    if ends(step) {
        return Some(ProbeMode::Behind(false));
    }
    match place_of(step) {
        Some(next) => Some(ProbeMode::InText(next)),
        None => None,
    }
}

/// Where a byte leads inside a word.
fn in_word(word: WordPlace, byte: u8) -> Option<ProbeMode>
    ensures { (n : ℕ) →
        place_view result n ≡ probe_mode_step (probe_modes.InWord (word_rest word) false) n byte }
{
    if byte != word.expected() {
        return None;
    }
    Some(match word {
        WordPlace::N => ProbeMode::InWord(WordPlace::Nu),
        WordPlace::Nu => ProbeMode::InWord(WordPlace::Nul),
        WordPlace::T => ProbeMode::InWord(WordPlace::Tr),
        WordPlace::Tr => ProbeMode::InWord(WordPlace::Tru),
        WordPlace::F => ProbeMode::InWord(WordPlace::Fa),
        WordPlace::Fa => ProbeMode::InWord(WordPlace::Fal),
        WordPlace::Fal => ProbeMode::InWord(WordPlace::Fals),
        WordPlace::Nul | WordPlace::Tru | WordPlace::Fals => ProbeMode::Behind(false),
    })
}

/// Where a byte that is no blank leads behind a value.
fn end(nesting: &mut Nesting, byte: u8) -> Option<ProbeMode>
    ensures { place_view result nesting.new.kinds ≡ end_probe_mode nesting.old.kinds byte }
{
    let is_object = nesting.innermost()?;
    match (is_object, byte) {
        (true, b',') => Some(ProbeMode::NextName),
        (true, b'}') => close(nesting, true),
        (false, b',') => Some(ProbeMode::Before),
        (false, b']') => close(nesting, false),
        _ => None,
    }
}

/// Where a byte leads behind a value.
fn behind(nesting: &mut Nesting, is_object: bool, byte: u8) -> Option<ProbeMode>
    ensures { place_view result nesting.new.kinds ≡ after_probe_mode is_object nesting.old.kinds byte }
{
    if is_blank(byte) {
        return Some(ProbeMode::Behind(is_object));
    }
    end(nesting, byte)
}

/// Where a byte leads inside a number, or behind it.
fn in_number(nesting: &mut Nesting, place: NumberPlace, byte: u8) -> Option<ProbeMode>
    ensures { place_view result nesting.new.kinds
        ≡ probe_mode_step (probe_modes.InNumber place) nesting.old.kinds byte }
{
    if let Some(next) = number_move(place, byte) {
        return Some(ProbeMode::InNumber(next));
    }
    if !may_end(place) {
        return None;
    }
    behind(nesting, false, byte)
}

impl ProbeMode {
    /// Where a byte leads, and what is open then. `None` where no JSON text goes on so, or a level too many opens.
    pub fn step(self, nesting: &mut Nesting, byte: u8) -> Option<ProbeMode>
        ensures { place_view result nesting.new.kinds
            ≡ probe_mode_step (probe_mode_view self) nesting.old.kinds byte }
    {
        match self {
            ProbeMode::Before => {
                if is_blank(byte) {
                    return Some(ProbeMode::Before);
                }
                begin(nesting, byte)
            }
            ProbeMode::FirstItem => first_item(nesting, byte),
            ProbeMode::FirstName => first_name(nesting, byte),
            ProbeMode::NextName => {
                let name = ProbeMode::InName(TextPlace::Plain);
                expected(byte, b'"', ProbeMode::NextName, name)
            }
            ProbeMode::InName(place) => in_name(place, byte),
            ProbeMode::Colon => expected(byte, b':', ProbeMode::Colon, ProbeMode::Before),
            ProbeMode::Behind(is_object) => behind(nesting, is_object, byte),
            ProbeMode::InWord(word) => in_word(word, byte),
            ProbeMode::InNumber(place) => in_number(nesting, place, byte),
            ProbeMode::InText(place) => in_text(place, byte),
        }
    }

    /// Whether a text that is an object ends here.
    pub fn ends_object(self, nesting: &Nesting) -> bool
        ensures { result ≡ probe_mode_ends (probe_mode_view self) nesting.now.kinds }
    {
        match self {
            ProbeMode::Behind(true) => nesting.is_empty(),
            _ => false,
        }
    }
}
