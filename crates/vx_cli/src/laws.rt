ghost use Rattle.std.specs.Prelude.{◌≡◌, ◌≢◌, false, true, ℕ, ◌<◌, ◌≤◌, ◌++◌, ◌∷◌, [], All, List, codes, length};
ghost use Rattle.std.specs.Str.{IsUtf8, NoCharPasses, chars};
ghost use Rattle.vx_value.specs.Texts.{ByteString};
ghost use Rattle.vx_cli.specs.Commands.{IsCommand, IsNoCommand};
ghost use Rattle.vx_cli.specs.Lines.{IsLine, IsPlainByte};
ghost use Rattle.vx_cli.specs.Shown.{IsCutAt, is_hidden, shown, spelled};
ghost use Rattle.vx_cli.specs.Spellings.{IsHyphened, IsPlain};
ghost use Rattle.vx_cli.specs.declared.command.Command.{Command};
ghost use Rattle.vx_cli.specs.Texts.{text_of};
ghost use Rattle.vx_cli.specs.declared.command.Command.TheVariants.{Run, Validate};
ghost use Rattle.vx_cli.specs.declared.fault.Fault.{Fault};
ghost use Rattle.vx_cli.specs.declared.fault.Fault.TheVariants.{Usage};

/// A list of words is at most one command, and none where it is in no command's grammar.
pub fn one_command()
    ensures one { (words : List ByteString) (a b : Command) → IsCommand words a → IsCommand words b →
        a ≡ b }
    ensures apart { (words : List ByteString) (command : Command) → IsNoCommand words →
        IsCommand words command → ⊥ }
{}

/// How a file is named: by each spelling of the option, and to `validate`; and how the counts, and an end with the files that are there,
/// are asked for.
///
/// Behind `=`, and behind the `--` of `validate`, it is any word. Right behind `-c` it has a byte, and doesn't begin
/// with `=`. As a word of its own it doesn't begin with a hyphen, or is a hyphen alone; `refusals` tells of other words.
pub fn spellings()
    ensures long { (file : ByteString) → IsPlain file →
        IsCommand (codes "--config" ∷ file ∷ []) (Run file false false) }
    ensures long_sign { (file : ByteString) →
        IsCommand ((codes "--config=" ++ file) ∷ []) (Run file false false) }
    ensures short { (file : ByteString) → IsPlain file →
        IsCommand (codes "-c" ∷ file ∷ []) (Run file false false) }
    ensures short_sign { (file : ByteString) →
        IsCommand ((codes "-c=" ++ file) ∷ []) (Run file false false) }
    ensures short_at_once { (b : ℕ) (rest : ByteString) → b ≢ 61 →
        IsCommand ((codes "-c" ++ b ∷ rest) ∷ []) (Run (b ∷ rest) false false) }
    ensures hyphen { IsCommand (codes "--config" ∷ codes "-" ∷ []) (Run (codes "-") false false)
        × IsCommand (codes "-c" ∷ codes "-" ∷ []) (Run (codes "-") false false) }
    ensures stats { (file : ByteString) →
        IsCommand ((codes "--config=" ++ file) ∷ codes "--stats" ∷ []) (Run file false true) }
    ensures stats_first { (file : ByteString) →
        IsCommand (codes "--stats" ∷ (codes "--config=" ++ file) ∷ []) (Run file false true) }
    ensures once { (file : ByteString) →
        IsCommand ((codes "--config=" ++ file) ∷ codes "--once" ∷ []) (Run file true false) }
    ensures once_first { (file : ByteString) →
        IsCommand (codes "--once" ∷ (codes "--config=" ++ file) ∷ []) (Run file true false) }
    ensures once_and_stats { (file : ByteString) →
        IsCommand (codes "--stats" ∷ (codes "--config=" ++ file) ∷ codes "--once" ∷ [])
        (Run file true true) }
    ensures validate { (file : ByteString) → IsPlain file →
        IsCommand (codes "validate" ∷ file ∷ []) (Validate file) }
    ensures validate_hyphen { IsCommand (codes "validate" ∷ codes "-" ∷ []) (Validate (codes "-")) }
    ensures behind_dashes { (file : ByteString) →
        IsCommand (codes "validate" ∷ codes "--" ∷ file ∷ []) (Validate file) }
{}

/// Words that are no command: too few, the option or a flag twice, a value of a flag, a word too many, and the words for help and
/// version.
///
/// A text that begins with a hyphen and has more behind it is no value of the option in a word of its own, and no first
/// FILE of `validate`, whatever words follow.
pub fn refusals()
    ensures none { IsNoCommand [] }
    ensures long_alone { IsNoCommand (codes "--config" ∷ []) }
    ensures short_alone { IsNoCommand (codes "-c" ∷ []) }
    ensures option_as_file { IsNoCommand (codes "--config" ∷ codes "--config" ∷ []) }
    ensures twice { (file other : ByteString) →
        IsNoCommand ((codes "--config=" ++ file) ∷ (codes "--config=" ++ other) ∷ []) }
    ensures twice_short { (file other : ByteString) →
        IsNoCommand ((codes "--config=" ++ file) ∷ (codes "-c=" ++ other) ∷ []) }
    ensures stats_alone { IsNoCommand (codes "--stats" ∷ []) }
    ensures stats_twice { (file : ByteString) →
        IsNoCommand (codes "--stats" ∷ codes "--stats" ∷ (codes "--config=" ++ file) ∷ []) }
    ensures stats_value { (file value : ByteString) →
        IsNoCommand ((codes "--stats=" ++ value) ∷ (codes "--config=" ++ file) ∷ []) }
    ensures once_alone { IsNoCommand (codes "--once" ∷ []) }
    ensures once_twice { (file : ByteString) →
        IsNoCommand (codes "--once" ∷ codes "--once" ∷ (codes "--config=" ++ file) ∷ []) }
    ensures once_value { (file value : ByteString) →
        IsNoCommand ((codes "--once=" ++ value) ∷ (codes "--config=" ++ file) ∷ []) }
    ensures more { (file word : ByteString) → IsPlain word →
        IsNoCommand ((codes "--config=" ++ file) ∷ word ∷ []) }
    ensures validate_alone { IsNoCommand (codes "validate" ∷ []) }
    ensures validate_two { (file word : ByteString) → IsPlain file → IsPlain word →
        IsNoCommand (codes "validate" ∷ file ∷ word ∷ []) }
    ensures long_hyphened { (word : ByteString) (rest : List ByteString) → IsUtf8 word → IsHyphened word →
        IsNoCommand (codes "--config" ∷ word ∷ rest) }
    ensures short_hyphened { (word : ByteString) (rest : List ByteString) → IsUtf8 word → IsHyphened word →
        IsNoCommand (codes "-c" ∷ word ∷ rest) }
    ensures validate_dashes { IsNoCommand (codes "validate" ∷ codes "--" ∷ []) }
    ensures validate_hyphened { (word : ByteString) (rest : List ByteString) → IsUtf8 word → IsHyphened word →
        word ≢ codes "--" → IsNoCommand (codes "validate" ∷ word ∷ rest) }
    ensures validate_option { (file : ByteString) →
        IsNoCommand (codes "validate" ∷ (codes "--config=" ++ file) ∷ []) }
    ensures help { IsNoCommand (codes "--help" ∷ []) × IsNoCommand (codes "-h" ∷ []) }
    ensures version { IsNoCommand (codes "--version" ∷ []) × IsNoCommand (codes "-V" ∷ []) }
{}

/// How a name, path or input is printed, whatever its bytes are: without a hidden character, in 258 bytes at most.
///
/// What takes no more than 256 bytes, with its hidden characters by their codes, stands whole. What takes more is cut
/// behind the last character that ends within 256 bytes, and two dots follow.
pub fn printed_names()
    ensures characters { (text : ByteString) → NoCharPasses is_hidden (shown text) }
    ensures bytes { (text : ByteString) → All IsPlainByte (shown text) }
    ensures bounded { (text : ByteString) → length (shown text) ≤ 258 }
    ensures whole { (text : ByteString) → length (spelled text) ≤ 256 → shown text ≡ spelled text }
    ensures cut { (text : ByteString) → 256 < length (spelled text) →
        IsCutAt 256 (chars text) (shown text) }
    ensures same { (text : ByteString) → IsUtf8 text → NoCharPasses is_hidden text → length text ≤ 256 →
        shown text ≡ text }
{}

/// Where something is printed of a fault, and not how the program is called, that is one line, whatever the fault names.
pub fn fault_lines()
    ensures { (fault : Fault) → fault ≢ Usage → text_of fault ≢ [] → IsLine (text_of fault) }
{}
