ghost use Rattle.std.specs.Prelude.{◌≡◌};
ghost use Rattle.vx_value.specs.Values.{datum_of};
ghost use Rattle.vx_json.specs.WordViews.{word_first, word_rest, word_datum};

use vx_value::Value;

/// Where a reader stands inside one of the words `null`, `true` and `false`: behind these letters.
#[derive(Clone, Copy)]
pub enum WordPlace {
    N,
    Nu,
    Nul,
    T,
    Tr,
    Tru,
    F,
    Fa,
    Fal,
    Fals,
}

impl WordPlace {
    /// The byte that has to come.
    pub fn expected(self) -> u8
        ensures { result ≡ word_first self }
    {
        match self {
            WordPlace::N => b'u',
            WordPlace::Nu | WordPlace::Nul | WordPlace::Fa => b'l',
            WordPlace::T => b'r',
            WordPlace::Tr => b'u',
            WordPlace::Tru | WordPlace::Fals => b'e',
            WordPlace::F => b'a',
            WordPlace::Fal => b's',
        }
    }

    /// The bytes that have to come up to the word's end.
    pub fn rest(self) -> &'static [u8]
        ensures { result.now ≡ word_rest self }
    {
        match self {
            WordPlace::N => b"ull",
            WordPlace::Nu => b"ll",
            WordPlace::Nul => b"l",
            WordPlace::T => b"rue",
            WordPlace::Tr => b"ue",
            WordPlace::Tru | WordPlace::Fals => b"e",
            WordPlace::F => b"alse",
            WordPlace::Fa => b"lse",
            WordPlace::Fal => b"se",
        }
    }

    /// The value of the word.
    pub fn value(self) -> Value
        ensures { datum_of result ≡ word_datum self }
    {
        match self {
            WordPlace::N | WordPlace::Nu | WordPlace::Nul => Value::Null,
            WordPlace::T | WordPlace::Tr | WordPlace::Tru => Value::Truth(true),
            WordPlace::F | WordPlace::Fa | WordPlace::Fal | WordPlace::Fals => Value::Truth(false),
        }
    }
}
