//! The calls by their script words: how a word is found, and what its row says.

ghost use Rattle.std.specs.Prelude.{◌≡◌, ◌≤◌, ◌<◌};
ghost use Rattle.script.specs.{[], IfSome, length, map, option_map, slice_index_or, bytes_eq, entry_of, placeless, word_of, IsRow, find_named, words_like};

use crate::arguments::Arguments;
use crate::limits::MOST_ARGUMENTS;
use crate::written_words::{
    CopyingWord, MakingWord, QueryWord, RefreshWord, StackingWord, WORDS, WritingWord,
};
use world::Call;

/// The form of an argument.
#[derive(Clone, Copy)]
pub enum Form {
    /// A number up to the greatest.
    Number,
    /// A number up to the greatest, or `none`.
    NumberOrNone,
    /// A number up to the greatest signed one, with or without a minus.
    Signed,
    /// Two hexadecimal digits up to `3f`.
    Attributes,
    /// `on` or `off`.
    Flag,
    /// A text of one character.
    Character,
    /// Characters, some after a backslash, to the end of the line.
    Text,
}

/// A call by its script word, in the group that it is in.
#[derive(Clone, Copy)]
pub enum Word {
    Making(MakingWord),
    Writing(WritingWord),
    Copying(CopyingWord),
    Query(QueryWord),
    Stacking(StackingWord),
    Refresh(RefreshWord),
}

/// How a word is written, the forms of its call's arguments, and the call that they make.
#[derive(Clone, Copy)]
pub(crate) struct Row<'a> {
    pub(crate) word: &'static [u8],
    pub(crate) forms: &'static [Form],
    pub(crate) call: Call<'a>,
}

/// The words in a row.
fn words_in_row(rows: &[&'static [Word]], place: usize) -> &'static [Word]
    requires { place < length rows.now }
    ensures { result.now ≡ slice_index_or (map (λ row. row.now) rows.now) place [] }
{
    rows[place]
}

/// The words in the row of a text's first letter.
#[tactic(auto, using(crate::proofs::WordLemmas::row_of_letter))]
fn words_like(text: &[u8]) -> &'static [Word]
    ensures { result.now ≡ words_like text.now }
{
    match text.first() {
        Some(letter) => words_in_row(&WORDS, usize::from(*letter % 32)),
        None => &[],
    }
}

/// Whether two texts are the same. Names of calls are short, so their bytes are compared one after another.
#[inline(always)]
fn are_same(text: &[u8], name: &[u8]) -> bool
    ensures { result ≡ bytes_eq text.now name.now }
{
    if text.len() != name.len() {
        return false;
    }
    for (at, byte) in text.iter().enumerate() {
        if *byte != name[at] {
            return false;
        }
    }
    true
}

/// Finds the first of some words that is written so, and the forms of its call's arguments.
#[inline(always)]
#[tactic(auto, using(crate::proofs::WordLemmas::find_next))]
fn find_named(words: &[Word], text: &[u8]) -> Option<(Word, &'static [Form])>
    ensures word { option_map (λ found. found.0) result ≡ find_named words.now text.now }
    ensures forms { IfSome result (λ found. found.1.now ≡ (entry_of found.0).forms) }
    ensures count { IfSome result (λ found. length found.1.now ≤ MOST_ARGUMENTS) }
{
    for word in words {
        let (name, forms) = word.name_and_forms();
        if are_same(text, name) {
            return Some((*word, forms));
        }
    }
    None
}

impl Word {
    /// The call of a script word.
    #[inline(always)]
    pub fn of(text: &[u8]) -> Option<Word>
        ensures { result ≡ word_of text.now }
    {
        let (word, _) = Word::with_forms(text)?;
        Some(word)
    }

    /// The call of a script word, and the forms of its arguments.
    #[inline(always)]
    #[tactic(auto, using(crate::proofs::WordLaws::found_by_letter))]
    pub fn with_forms(text: &[u8]) -> Option<(Word, &'static [Form])>
        ensures word { option_map (λ found. found.0) result ≡ word_of text.now }
        ensures forms { IfSome result (λ found. found.1.now ≡ (entry_of found.0).forms) }
        ensures count { IfSome result (λ found. length found.1.now ≤ MOST_ARGUMENTS) }
    {
        find_named(words_like(text), text)
    }

    /// The word's row, with the call that the arguments make. It is inlined, so that who asks for the word or its forms
    /// alone makes no call for it.
    #[inline(always)]
    fn row(self, arguments: &Arguments) -> Row<'_>
        ensures { IsRow result (entry_of self) arguments.now }
    {
        match self {
            Word::Making(word) => word.row(arguments),
            Word::Writing(word) => word.row(arguments),
            Word::Copying(word) => word.row(arguments),
            Word::Query(word) => word.row(arguments),
            Word::Stacking(word) => word.row(arguments),
            Word::Refresh(word) => word.row(arguments),
        }
    }

    /// How the word is written, and the forms of its call's arguments: one look tells both.
    #[inline(always)]
    fn name_and_forms(self) -> (&'static [u8], &'static [Form])
        ensures name { result.0.now ≡ (entry_of self).word }
        ensures forms { result.1.now ≡ (entry_of self).forms }
        ensures count { length result.1.now ≤ MOST_ARGUMENTS }
    {
        let arguments = Arguments::new();
        let row = self.row(&arguments);
        (row.word, row.forms)
    }

    /// The forms of its call's arguments.
    #[inline(always)]
    pub fn forms(self) -> &'static [Form]
        ensures forms { result.now ≡ (entry_of self).forms }
        ensures count { length result.now ≤ MOST_ARGUMENTS }
    {
        self.row(&Arguments::new()).forms
    }

    /// How the word is written.
    pub fn name(self) -> &'static [u8]
        ensures { result.now ≡ (entry_of self).word }
    {
        self.name_and_forms().0
    }

    /// The call that the arguments make.
    #[inline(always)]
    pub fn call(self, arguments: &Arguments) -> Call<'_>
        ensures { placeless result ≡ (entry_of self).call arguments.now }
    {
        self.row(arguments).call
    }
}
