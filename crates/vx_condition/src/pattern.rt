ghost use Rattle.std.specs.Prelude.{◌≡◌, IfOk, IfErr};

use regex::{Error, Regex};
use std::alloc::Global;
use std::marker::Model;
use vx_value::WantOfMemory;

/// Why a text isn't read as a pattern.
#[derive(Clone, Copy)]
pub enum PatternFault {
    /// `regex` refuses it.
    Refused,
    /// No memory was found.
    WantOfMemory,
}

/// A pattern that `regex` reads. Contracts see it as the list of its bytes.
#[derive(Drop)]
pub struct Pattern {
    regex: Regex,
}

impl Model for Pattern {
    ghost use Rattle.std.specs.Prelude.{◌≡◌, List, ℕ};
    ghost use Rattle.regex.specs.Strings.{regex_source, regex_config, IsReadFromSource};
    ghost use Rattle.regex.specs.Patterns.{default_config};

    ghost Value = { List ℕ };

    ghost view = { λ p. regex_source p.regex };

    ghost invariant = { λ p. (regex_config p.regex ≡ default_config) × IsReadFromSource p.regex };
}

impl Pattern {
    ghost use Rattle.vx_condition.specs.Patterns.{has_match, IsRefusedAs};

    /// The pattern that a text is, as `regex` reads it.
    pub fn new(alloc: Global, text: &str) -> Result<Pattern, PatternFault>
        ensures ok { IfOk result (λ pattern. pattern ≡ text.now) }
        ensures refused { IfErr result (IsRefusedAs text.now) }
    {
        match Regex::new(alloc, text) {
            Ok(regex) => Ok(Pattern { regex }),
            Err(Error::OutOfMemory) => Err(PatternFault::WantOfMemory),
            Err(_) => Err(PatternFault::Refused),
        }
    }

    /// Whether a text has a match of the pattern in it.
    pub fn is_in(&self, alloc: Global, text: &str) -> Result<bool, WantOfMemory>
        ensures { IfOk result (λ found. found ≡ has_match self.now text.now) }
    {
        let mut matcher = self.regex.matcher(alloc)?;
        Ok(matcher.is_match(text))
    }
}
