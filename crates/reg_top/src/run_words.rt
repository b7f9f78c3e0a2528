//! The words behind `run`: options, the names of files, and the marks between rounds. They are read one argument after the
//! other, and no memory is taken for it.

ghost use Rattle.std.specs.Prelude.{◌≡◌, ◌≢◌, ◌<◌, ◌≤◌, ◌+◌, ◌++◌, ℕ, List, [], ◌∷◌, All, codes, length, map, drop, slice_get, true, false, Option as AnOption, Some, None, IfSome, IfNone};
ghost use Rattle.reg_model.specs.declared.round.TheConstants.{ROUNDS_MOST as MOST};
ghost use Rattle.reg_model.specs.Limits.{IsInRange};
ghost use Rattle.reg_requests.specs.Numbers.{IsNumber};
ghost use Rattle.std.specs.Option.{option_map};
ghost use Rattle.reg_top.specs.Fetches.{RoundPlan, Plan};
ghost use Rattle.reg_top.specs.Words.{Argument, Says, IsMark, IsValue, IsNumberOf, IsRunForm, IsPlanOf, option_text, file_option_text, planned, round_plan, sizes_from};
ghost use Rattle.reg_top.specs.Words.Argument.{Mark, Name};
ghost use Rattle.reg_top.specs.inner.RunWords.{argument_of, StandsAt, NoneStandsAt, HasRead, HasPlaces, read_more, read_of, nothing_read, round_of, plan_of as the_plan};
ghost use Rattle.reg_top.specs.inner.RunPlans.{plan_kept, plans_kept};

use crate::args::Args;
use crate::words::is_value;
use arrayvec::ArrayVec;
use reg_model::{BITS_USUAL, CALLERS_MOST, ENTRIES_USUAL, LOG_USUAL, ROUNDS_MOST, Sizes};
use reg_requests::read_number;
use std::marker::Model;

const FILES_MOST: usize = CALLERS_MOST as usize;

/// An option of `run`.
#[derive(Clone, Copy, Debug, PartialEq, Eq)]
pub enum RunOption {
    Entries,
    Log,
    Bits,
}

/// An option of `run` that names a file with an image.
#[derive(Clone, Copy, Debug, PartialEq, Eq)]
pub enum FileOption {
    /// The image with which the run begins.
    Load,
    /// The image of what it leaves.
    Save,
}

/// The entries and the log that a mark sets for the rounds behind it.
#[derive(Clone, Copy, Debug, PartialEq, Eq)]
pub struct MarkSizes {
    pub entries: u64,
    pub log: u64,
}

// The sizes of a round.
#[derive(Clone, Copy, Debug, Default)]
struct RoundSizes {
    entries: u32,
    log: u32,
    bits: u32,
    callers: u32,
}

// A round as it is said: the sizes that the mark before it sets, and the names of its files.
#[derive(Debug, Default, Drop)]
struct RoundWords<'a> {
    sizes: Option<MarkSizes>,
    names: ArrayVec<&'a str, FILES_MOST>,
}

/// What a run is asked for: the images that it loads and saves, and its rounds, with the sizes of each and the names of its files.
/// Contracts see that record.
#[derive(Debug, Drop)]
pub struct RunPlan<'a> {
    load: Option<&'a str>,
    save: Option<&'a str>,
    sizes: ArrayVec<RoundSizes, ROUNDS_MOST>,
    rounds: ArrayVec<RoundWords<'a>, ROUNDS_MOST>,
}

impl<'a> Model for RunPlan<'a> {
    ghost use Rattle.std.specs.Prelude.{◌≡◌, length};
    ghost use Rattle.std.specs.Option.{option_map};
    ghost use Rattle.reg_top.specs.Fetches.{Plan};
    ghost use Rattle.reg_top.specs.inner.RunPlans.{plans_kept};

    ghost Value = { Plan };

    ghost view = { λ p. record { load = option_map (λ name. name.now) p.load; save = option_map (λ name. name.now) p.save; rounds = plans_kept p.sizes.items p.rounds.items } };

    ghost invariant = { λ p. length p.sizes.items ≡ length p.rounds.items };
}

/// What the words of a `run` ask for, if they are of that form.
pub(crate) fn run_plan(words: &Args) -> Option<RunPlan<'_>>
    ensures found { IfSome result (IsRunForm words.now) }
    ensures none { IfNone result ((plan : Plan) → IsRunForm words.now plan → ⊥) }
{
    if words.len() == 0 || words.word(0) != "run" {
        return None;
    }
    let reading = read_behind(words)?;
    reading.planned()
}

impl<'a> RunPlan<'a> {
    /// The name of the file with the image to begin with.
    pub(crate) fn load(&self) -> Option<&'a str>
        ensures { option_map (λ name. name.now) result ≡ self.now.load }
    {
        self.load
    }

    /// The name under which the image of what is left is to be put.
    pub(crate) fn save(&self) -> Option<&'a str>
        ensures { option_map (λ name. name.now) result ≡ self.now.save }
    {
        self.save
    }

    /// How many rounds there are.
    pub(crate) fn len(&self) -> usize
        ensures { result ≡ length self.now.rounds }
    {
        self.rounds.len()
    }

    /// The sizes of the round at this place, the first at 0.
    pub(crate) fn sizes(&self, at: usize) -> Sizes
        requires within { at < length self.now.rounds }
        requires in_range { All (λ (p : RoundPlan). IsInRange p.limits) self.now.rounds }
        ensures { IfSome (slice_get self.now.rounds at) (λ (p : RoundPlan). result ≡ p.limits) }
    {
        let sizes = &self.sizes.as_slice()[at];
        Sizes::new(sizes.entries, sizes.log, sizes.bits, sizes.callers).unwrap()
    }

    /// The names of its files.
    pub(crate) fn names(&self, at: usize) -> &[&'a str]
        requires { at < length self.now.rounds }
        ensures { IfSome (slice_get self.now.rounds at) (λ (p : RoundPlan). map (λ name. name.now) result.now ≡ p.names) }
    {
        self.rounds.as_slice()[at].names.as_slice()
    }
}

// An argument, as it stands in the words.
#[derive(Clone, Copy, Debug)]
enum Said<'a> {
    Set(RunOption, u64),
    SetFile(FileOption, &'a str),
    Mark(Option<MarkSizes>),
    Name(&'a str),
}

// What is read of the words so far: what the options set, the rounds that are closed, and the last.
#[derive(Debug, Drop)]
struct Reading<'a> {
    entries: Option<u64>,
    log: Option<u64>,
    bits: Option<u64>,
    load: Option<&'a str>,
    save: Option<&'a str>,
    closed: ArrayVec<RoundWords<'a>, ROUNDS_MOST>,
    last: RoundWords<'a>,
}

// All words behind the first.
fn read_behind(words: &Args) -> Option<Reading<'_>>
    requires { 1 ≤ length words.now }
    ensures found { IfSome result (λ reading. HasRead words.now (length words.now) (read_of reading)) }
    ensures none { IfNone result ((plan : Plan) → IsPlanOf (drop 1 words.now) plan → ⊥) }
{
    let mut reading = Reading::new();
    let mut at = 1;
    while at < words.len() {
        let (said, count) = argument_at(words, at)?;
        if !reading.take(said) {
            return None;
        }
        at += count;
    }
    Some(reading)
}

// The argument that stands at this place, and how many words say it.
fn argument_at<'a>(words: &'a Args, at: usize) -> Option<(Said<'a>, usize)>
    requires { at < length words.now }
    ensures found { IfSome result (λ found. StandsAt words.now at (argument_of found.0) found.1) }
    ensures none { IfNone result (NoneStandsAt words.now at) }
{
    let word = words.word(at);
    if is_value(word) {
        return Some((placed_by(word), 1));
    }
    if let Some((option, rest)) = option_of(word) {
        return number_set(words, at, option, rest);
    }
    let (option, rest) = file_option_of(word)?;
    file_set(words, at, option, rest)
}

// The argument that sets the option with which the word at this place begins, where this stands behind it.
fn number_set<'a>(
    words: &'a Args,
    at: usize,
    option: RunOption,
    rest: &str,
) -> Option<(Said<'a>, usize)>
    requires { slice_get words.now at ≡ Some (option_text option ++ rest.now) }
    ensures found { IfSome result (λ found. StandsAt words.now at (argument_of found.0) found.1) }
    ensures none { IfNone result (NoneStandsAt words.now at) }
{
    if rest.is_empty() {
        let number = number_after(words, at)?;
        return Some((Said::Set(option, number), 2));
    }
    let number = number_behind(rest)?;
    Some((Said::Set(option, number), 1))
}

// The same for an option that names a file.
fn file_set<'a>(
    words: &'a Args,
    at: usize,
    option: FileOption,
    rest: &'a str,
) -> Option<(Said<'a>, usize)>
    requires { slice_get words.now at ≡ Some (file_option_text option ++ rest.now) }
    ensures found { IfSome result (λ found. StandsAt words.now at (argument_of found.0) found.1) }
    ensures none { IfNone result (NoneStandsAt words.now at) }
{
    if rest.is_empty() {
        let name = value_after(words, at)?;
        return Some((Said::SetFile(option, name), 2));
    }
    let name = value_behind(rest)?;
    Some((Said::SetFile(option, name), 1))
}

// The mark or the name that a value is.
fn placed_by(word: &str) -> Said<'_>
    requires { IsValue word.now }
    ensures { Says (argument_of result) (word.now ∷ []) }
{
    match mark_of(word) {
        Some(sizes) => Said::Mark(sizes),
        None => Said::Name(word),
    }
}

// The option that a word begins with, and what stands behind its text.
fn option_of(word: &str) -> Option<(RunOption, &str)>
    ensures found { IfSome result (λ found. word.now ≡ option_text found.0 ++ found.1.now) }
    ensures none { IfNone result ((option : RunOption) (rest : List ℕ) → word.now ≡ option_text option ++ rest → ⊥) }
{
    if let Some(rest) = word.strip_prefix("--entries") {
        return Some((RunOption::Entries, rest));
    }
    if let Some(rest) = word.strip_prefix("--log") {
        return Some((RunOption::Log, rest));
    }
    if let Some(rest) = word.strip_prefix("--bits") {
        return Some((RunOption::Bits, rest));
    }
    None
}

// The option of a file that a word begins with, and what stands behind its text.
fn file_option_of(word: &str) -> Option<(FileOption, &str)>
    ensures found { IfSome result (λ found. word.now ≡ file_option_text found.0 ++ found.1.now) }
    ensures none { IfNone result ((option : FileOption) (rest : List ℕ) → word.now ≡ file_option_text option ++ rest → ⊥) }
{
    if let Some(rest) = word.strip_prefix("--load") {
        return Some((FileOption::Load, rest));
    }
    if let Some(rest) = word.strip_prefix("--save") {
        return Some((FileOption::Save, rest));
    }
    None
}

// The value in the word after this place.
fn value_after(words: &Args, at: usize) -> Option<&str>
    requires { at < length words.now }
    ensures found { IfSome result (λ value. IsValue value.now × (slice_get words.now (at + 1) ≡ Some value.now)) }
    ensures none { IfNone result ((value : List ℕ) → IsValue value → slice_get words.now (at + 1) ≡ Some value → ⊥) }
{
    if words.len() - at < 2 {
        return None;
    }
    let value = words.word(at + 1);
    if is_value(value) { Some(value) } else { None }
}

// The value behind an equality sign.
fn value_behind(rest: &str) -> Option<&str>
    ensures found { IfSome result (λ value. IsValue value.now × (rest.now ≡ codes "=" ++ value.now)) }
    ensures none { IfNone result ((value : List ℕ) → IsValue value → rest.now ≡ codes "=" ++ value → ⊥) }
{
    let value = rest.strip_prefix("=")?;
    if is_value(value) { Some(value) } else { None }
}

// The number in the word after this place.
fn number_after(words: &Args, at: usize) -> Option<u64>
    requires { at < length words.now }
    ensures found { IfSome result (λ number. (text : List ℕ) × IsNumberOf text number × (slice_get words.now (at + 1) ≡ Some text)) }
    ensures none { IfNone result ((text : List ℕ) → IsNumber text → slice_get words.now (at + 1) ≡ Some text → ⊥) }
{
    if words.len() - at < 2 {
        return None;
    }
    read_number(words.word(at + 1).as_bytes())
}

// The number behind an equality sign.
fn number_behind(rest: &str) -> Option<u64>
    ensures found { IfSome result (λ number. (text : List ℕ) × IsNumberOf text number × (rest.now ≡ codes "=" ++ text)) }
    ensures none { IfNone result ((text : List ℕ) → IsNumber text → rest.now ≡ codes "=" ++ text → ⊥) }
{
    let text = rest.strip_prefix("=")?;
    read_number(text.as_bytes())
}

// The sizes that a mark sets, where the word is one.
fn mark_of(word: &str) -> Option<Option<MarkSizes>>
    ensures found { IfSome result (IsMark word.now) }
    ensures none { IfNone result ((sizes : AnOption MarkSizes) → IsMark word.now sizes → ⊥) }
{
    let sizes = word.strip_prefix("/")?;
    if sizes.is_empty() {
        return Some(None);
    }
    let (entries, log) = sizes.split_once(':')?;
    let entries = read_number(entries.as_bytes())?;
    let log = read_number(log.as_bytes())?;
    Some(Some(MarkSizes { entries, log }))
}

impl<'a> Reading<'a> {
    fn new() -> Reading<'a>
        ensures { read_of result ≡ nothing_read }
    {
        Reading {
            entries: None,
            log: None,
            bits: None,
            load: None,
            save: None,
            closed: ArrayVec::new(),
            last: RoundWords {
                sizes: None,
                names: ArrayVec::new(),
            },
        }
    }

    // Takes one argument more; false where no words with these arguments are of the form.
    fn take(&mut self, said: Said<'a>) -> bool
        requires { HasPlaces (read_of self.old) }
        ensures taken { result ≡ true → read_of self.new ≡ read_more (read_of self.old) (argument_of said.entry) }
        ensures fits { result ≡ true → HasPlaces (read_of self.new) }
        ensures refused { result ≡ false → HasPlaces (read_more (read_of self.old) (argument_of said.entry)) → ⊥ }
    {
        match said {
            Said::Set(RunOption::Entries, number) => set(&mut self.entries, number),
            Said::Set(RunOption::Log, number) => set(&mut self.log, number),
            Said::Set(RunOption::Bits, number) => set(&mut self.bits, number),
            Said::SetFile(FileOption::Load, name) => set(&mut self.load, name),
            Said::SetFile(FileOption::Save, name) => set(&mut self.save, name),
            Said::Mark(sizes) => self.close(sizes),
            Said::Name(name) => self.add(name),
        }
    }

    // Closes the last round, and opens the next.
    fn close(&mut self, sizes: Option<MarkSizes>) -> bool
        requires { HasPlaces (read_of self.old) }
        ensures taken { result ≡ true → read_of self.new ≡ read_more (read_of self.old) (Mark sizes) }
        ensures fits { result ≡ true → HasPlaces (read_of self.new) }
        ensures refused { result ≡ false → HasPlaces (read_more (read_of self.old) (Mark sizes)) → ⊥ }
    {
        if self.closed.len() + 1 >= ROUNDS_MOST {
            return false;
        }
        let next = RoundWords {
            sizes,
            names: ArrayVec::new(),
        };
        self.closed.push(std::mem::replace(&mut self.last, next));
        true
    }

    // Adds a file to the last round.
    fn add(&mut self, name: &'a str) -> bool
        requires { HasPlaces (read_of self.old) }
        ensures taken { result ≡ true → read_of self.new ≡ read_more (read_of self.old) (Name name.entry.now) }
        ensures fits { result ≡ true → HasPlaces (read_of self.new) }
        ensures refused { result ≡ false → HasPlaces (read_more (read_of self.old) (Name name.entry.now)) → ⊥ }
    {
        if self.last.names.is_full() {
            return false;
        }
        self.last.names.push(name);
        true
    }

    // The rounds, where all sizes are in range.
    fn planned(self) -> Option<RunPlan<'a>>
        requires { HasPlaces (read_of self) }
        ensures found { IfSome result (λ plan. plan ≡ the_plan (read_of self.entry)) }
        ensures in_range { IfSome result (λ plan. All (λ (p : RoundPlan). IsInRange p.limits) plan.rounds) }
        ensures none { IfNone result (All (λ (p : RoundPlan). IsInRange p.limits) (the_plan (read_of self.entry)).rounds → ⊥) }
    {
        let bits = self.bits.unwrap_or(BITS_USUAL as u64);
        let first = MarkSizes {
            entries: self.entries.unwrap_or(ENTRIES_USUAL as u64),
            log: self.log.unwrap_or(LOG_USUAL as u64),
        };
        let mut rounds = self.closed;
        rounds.push(self.last);
        let sizes = sizes_of(first, bits, rounds.as_slice())?;
        Some(RunPlan {
            load: self.load,
            save: self.save,
            sizes,
            rounds,
        })
    }
}

// Sets an option that isn't set yet.
fn set<T: Copy>(option: &mut Option<T>, value: T) -> bool
    ensures taken { result ≡ true → (option.old ≡ None) × (option.new ≡ Some value) }
    ensures refused { result ≡ false → option.old ≢ None }
{
    if option.is_some() {
        return false;
    }
    *option = Some(value);
    true
}

// The sizes of the rounds, of which the first has these where no mark sets others.
fn sizes_of(
    first: MarkSizes,
    bits: u64,
    rounds: &[RoundWords<'_>],
) -> Option<ArrayVec<RoundSizes, ROUNDS_MOST>>
    requires { length rounds.now ≤ MOST }
    ensures long { IfSome result (λ sizes. length sizes.items ≡ length rounds.now) }
    ensures found { IfSome result (λ sizes. plans_kept sizes.items rounds.now ≡ planned first bits (map round_of rounds.now)) }
    ensures in_range { IfSome result (λ sizes. All (λ (p : RoundPlan). IsInRange p.limits) (planned first bits (map round_of rounds.now))) }
    ensures none { IfNone result (All (λ (p : RoundPlan). IsInRange p.limits) (planned first bits (map round_of rounds.now)) → ⊥) }
{
    let mut sizes = ArrayVec::new();
    let mut before = first;
    for round in rounds {
        before = sizes_behind(before, round);
        sizes.push(round_sizes(before, bits, round)?);
    }
    Some(sizes)
}

// The entries and the log of a round, where the round before has these.
fn sizes_behind(before: MarkSizes, round: &RoundWords<'_>) -> MarkSizes
    ensures { result ≡ sizes_from before round.now.sizes }
{
    match round.sizes {
        None => before,
        Some(sizes) => sizes,
    }
}

// The sizes of a round, where they are in range.
fn round_sizes(sizes: MarkSizes, bits: u64, round: &RoundWords<'_>) -> Option<RoundSizes>
    ensures found { IfSome result (λ kept. plan_kept kept round.now ≡ round_plan sizes bits (round_of round.now).names) }
    ensures in_range { IfSome result (λ kept. IsInRange (round_plan sizes bits (round_of round.now).names).limits) }
    ensures none { IfNone result (IsInRange (round_plan sizes bits (round_of round.now).names).limits → ⊥) }
{
    let entries = u32::try_from(sizes.entries).ok()?;
    let log = u32::try_from(sizes.log).ok()?;
    let bits = u32::try_from(bits).ok()?;
    let callers = round.names.len() as u32;
    Sizes::new(entries, log, bits, callers)?;
    Some(RoundSizes {
        entries,
        log,
        bits,
        callers,
    })
}
