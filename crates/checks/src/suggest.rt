//! The calls to see in place of a word that is none.

use crate::said::Said;
use crate::written_curses::CURSES;
use arrayvec::ArrayVec;
use script::{WORDS, Word, WritingWord};

/// Some names of curses and of other languages, with a space between any two, the calls to see in their place, and a note.
pub type Advice = (&'static [u8], &'static [Word], &'static [u8]);

/// Room for a name: the longest that is known, and more.
const NAME_ROOM: usize = 32;

/// The name in a word, in lower case: without what is called with it, and what it belongs to, as `refresh` in
/// `stdscr.refresh();`.
fn name_in(word: &[u8]) -> ArrayVec<u8, NAME_ROOM> {
    let mut name = ArrayVec::new();
    for byte in word {
        if name.is_full() {
            break;
        }
        match *byte {
            b'(' | b';' | b',' => break,
            b'-' | b'_' => name.push(b'_'),
            it if it.is_ascii_alphanumeric() => name.push(it.to_ascii_lowercase()),
            _ => name.clear(),
        }
    }
    name
}

/// Whether a text and a name differ by one letter that is dropped, added or changed, or by two that changed places.
fn is_near(text: &[u8], name: &[u8]) -> bool {
    match (text.split_first(), name.split_first()) {
        (Some((a, letters)), Some((b, others))) => {
            if a == b {
                return is_near(letters, others);
            }
            letters == others || letters == name || text == others || are_swapped(text, name)
        }
        (None, None) => false,
        (None, Some((_, others))) => others.is_empty(),
        (Some((_, letters)), None) => letters.is_empty(),
    }
}

/// Whether the first two letters changed places, and the others are the same.
fn are_swapped(text: &[u8], name: &[u8]) -> bool {
    match (text, name) {
        ([a, b, letters @ ..], [c, d, others @ ..]) => a == d && b == c && letters == others,
        _ => false,
    }
}

/// Whether a text is a name, or begins it with at least four letters, or is near it.
fn may_be(text: &[u8], name: &[u8]) -> bool {
    text == name || 4 <= text.len() && name.strip_prefix(text).is_some() || is_near(text, name)
}

/// Whether a name is one of some, with a space between any two.
fn is_among(name: &[u8], names: &[u8]) -> bool {
    names.split(|byte| *byte == b' ').any(|it| it == name)
}

/// The first advice of some groups on a name.
fn advice_on(groups: &[&[Advice]], name: &[u8]) -> Option<Advice> {
    for group in groups {
        for advice in *group {
            if is_among(name, advice.0) {
                return Some(*advice);
            }
        }
    }
    None
}

/// Says which calls to see, after `move` if the name moves the cursor first.
fn see(said: &mut Said, moves: bool, words: &[Word]) {
    if words.is_empty() {
        return;
    }
    said.text(b": see");
    if moves {
        said.call(Word::Writing(WritingWord::Move));
    }
    for word in words {
        said.call(*word);
    }
}

/// Says what some groups of advice note of the name in a word, if they have it.
pub fn say_note(said: &mut Said, groups: &[&[Advice]], word: &[u8]) {
    if let Some((_, _, note)) = advice_on(groups, name_in(word).as_slice()) {
        said.text(b": ");
        said.text(note);
    }
}

/// Says what a name is, if it is a call or in the table; it may come after a prefix, with which curses moves the cursor
/// first. Answers whether it is.
fn is_said(said: &mut Said, moves: bool, name: Option<&[u8]>) -> bool {
    let Some(name) = name else { return false };
    if let Some(call) = Word::of(name) {
        see(said, moves, &[call]);
        return true;
    }
    let Some((_, words, note)) = advice_on(&CURSES, name) else {
        return false;
    };
    if !note.is_empty() {
        said.text(b": ");
        said.text(note);
    }
    see(said, moves, words);
    true
}

/// Says which calls a name may be.
fn say_near(said: &mut Said, name: &[u8]) {
    let mut is_found = false;
    for words in &WORDS {
        for word in *words {
            if may_be(name, word.name()) {
                if !is_found {
                    said.text(b": see");
                }
                is_found = true;
                said.call(*word);
            }
        }
    }
    if !is_found {
        said.text(b": man curspan lists the calls");
    }
}

/// Says what to see in place of a word that is no call.
pub fn suggest(said: &mut Said, word: &[u8]) {
    let name = name_in(word);
    let name = name.as_slice();
    if !(is_said(said, false, Some(name))
        || is_said(said, true, name.strip_prefix(b"mvw"))
        || is_said(said, true, name.strip_prefix(b"mv"))
        || is_said(said, false, name.strip_prefix(b"w")))
    {
        say_near(said, name);
    }
}
