ghost use Rattle.std.specs.Prelude.{◌≡◌, ◌+◌, ◌-◌, ◌^◌, ◌<◌, ◌≤◌, [], ◌∷◌, ◌++◌, length, min, IfOk, OnOk, OnErr};
ghost use Rattle.vx_demo.specs.DemoLines.{word_at, line_mark, demo_line};
ghost use Rattle.vx_json.specs.Growth.{Keeps};
ghost use Rattle.vx_record.specs.Generating.{lines_from};
ghost use Rattle.vx_sourcecore.specs.Lines.{left_of, generator_at};

use itoa::Buffer;
use rand_core::SeedableRng;
use rand_core::utils::NextWord;
use rand_pcg::Pcg32;
use std::marker::Model;
use vx_demo::DemoSettings;
use vx_value::{Bytes, WantOfMemory};

/// The source of generated lines. Contracts see what the lines are made of, and how many it gave.
#[derive(Drop)]
pub struct Lines {
    settings: DemoSettings,
    given: u64,
    words: Pcg32,
}

impl Model for Lines {
    ghost use Rattle.vx_sourcecore.specs.Lines.{Generated, IsInStep};

    ghost Value = { Generated };

    ghost view = { λ l. record { settings = l.settings; given = l.given } };

    ghost invariant = { λ l. IsInStep l.settings l.given l.words };
}

impl Lines {
    /// The source of the lines that are made of some settings. It takes no memory.
    pub fn new(settings: DemoSettings) -> Self
        requires { 0 < length settings.lines }
        ensures { result ≡ record { settings = settings; given = 0 } }
    {
        let words = generator_at(settings.seed, 0);
        Lines {
            settings,
            given: 0,
            words,
        }
    }

    /// How many lines are left.
    pub fn left(&self) -> u64
        ensures left { result ≡ left_of self.now }
        ensures within { self.now.given ≤ self.now.settings.count }
    {
        self.settings.count - self.given
    }

    /// Adds the next lines, each with its line feed, and answers how many: `most`, or all that are left where those are fewer.
    ///
    /// Answers `Err` where no memory is found: then no byte was added, and no line was given.
    pub fn next(&mut self, most: u32, out: &mut Bytes) -> Result<u32, WantOfMemory>
        ensures number { IfOk result (λ n. n ≡ min most (left_of self.old)) }
        ensures lines { IfOk result
            (λ n. out.new ≡ out.old ++ lines_from self.old.settings self.old.given n) }
        ensures given { IfOk result
            (λ n. self.new ≡ record self.old { given = self.old.given + n }) }
        ensures none { OnErr result (out.new ≡ out.old) }
        ensures same { OnErr result (self.new ≡ self.old) }
    {
        let left = self.settings.count - self.given;
        let n = left.min(u64::from(most)) as u32;
        let len = out.len();
        match push_lines(out, &self.settings, &mut self.words, self.given, n) {
            Ok(()) => {
                self.given += u64::from(n);
                Ok(n)
            }
            Err(_) => {
                out.truncate(len);
                self.words = generator_at(self.settings.seed, self.given);
                Err(WantOfMemory)
            }
        }
    }

    /// Takes the last `n` lines back, so that they come again.
    pub(crate) fn take_back(&mut self, n: u32)
        requires { n ≤ self.old.given }
        ensures { self.new ≡ record self.old { given = self.old.given - n } }
    {
        self.given -= u64::from(n);
        self.words = generator_at(self.settings.seed, self.given);
    }
}

/// The generator of a seed, behind the words of the lines that were given.
fn generator_at(seed: u64, given: u64) -> Pcg32
    ensures { result ≡ generator_at seed given }
{
    let mut words = Pcg32::seed_from_u64(seed);
    words.advance(given);
    words
}

/// Adds lines, from one on, each with its line feed, and takes a word for each.
#[tactic(auto, using(crate::proofs::Stepping::stepping))]
fn push_lines(
    out: &mut Bytes,
    settings: &DemoSettings,
    words: &mut Pcg32,
    first: u64,
    n: u32,
) -> Result<(), WantOfMemory>
    requires some { 0 < length settings.now.lines }
    requires fits { first + n < 2 ^ 64 }
    requires words { words.old ≡ generator_at settings.now.seed first }
    ensures lines { OnOk result (out.new ≡ out.old ++ lines_from settings.now first n) }
    ensures words { OnOk result (words.new ≡ generator_at settings.now.seed (first + n)) }
    ensures err { OnErr result (Keeps out.old out.new) }
{
    for i in 0..n {
        let k = first + u64::from(i);
        let word = words.next_word();
        push_line(out, settings, k, word)?;
    }
    Ok(())
}

/// Adds a line, of which the word chooses the text, and a line feed.
fn push_line(
    out: &mut Bytes,
    settings: &DemoSettings,
    k: u64,
    word: u32,
) -> Result<(), WantOfMemory>
    requires some { 0 < length settings.now.lines }
    requires word { word ≡ word_at settings.now.seed k }
    ensures ok { OnOk result (out.new ≡ out.old ++ demo_line settings.now k ++ 10 ∷ []) }
    ensures err { OnErr result (Keeps out.old out.new) }
{
    push_mark(out, settings.sequence, k)?;
    let texts = settings.lines.as_slice();
    let text = &texts[word as usize % texts.len()];
    out.push_slice(text.as_str().as_bytes())?;
    out.push_slice(b"\n")
}

/// Adds what stands before a line's text: the line's number and a blank, where lines are numbered.
fn push_mark(out: &mut Bytes, sequence: bool, k: u64) -> Result<(), WantOfMemory>
    ensures ok { OnOk result (out.new ≡ out.old ++ line_mark sequence k) }
    ensures err { OnErr result (Keeps out.old out.new) }
{
    if !sequence {
        return Ok(());
    }
    let mut buffer = Buffer::new();
    out.push_slice(buffer.format(k).as_bytes())?;
    out.push_slice(b" ")
}
