//! What holds of readings by definition. Each function does nothing, and its contract is the law.

#![tactic(auto, using(crate::proofs::Readings::laws))]

ghost use Rattle.std.specs.Prelude.{◌++◌, ◌+◌, ◌<◌, ◌∷◌, ◌≡◌, ◌≢◌, ◌≤◌, ◌⊎◌};
ghost use Rattle.keys.specs.{AreKey, Asked, Backspace, Byte, Character, Delay, Enter, Escape, Event, HasRead, IsBegun};
ghost use Rattle.keys.specs.{IsOfSequences, IsPending, IsScalar, IsSequence, Item, Key, LONGEST, List, Modifiers, Name};
ghost use Rattle.keys.specs.{PasteEnds, Pressed, Resumes, Some, State, Tab, Taken, [], after_key, all_bytes, as_asked};
ghost use Rattle.keys.specs.{ascii_key, bytes_of, bytes_taken, control_sequence, decimal, encode_utf8, escape, false};
ghost use Rattle.keys.specs.{is_string, key_named, key_of, length, map, name_of_code, name_of_final, name_of_number};
ghost use Rattle.keys.specs.{parameter_of, paste_end, reading, slice_index, start, take, terminator, three_parameters};
ghost use Rattle.keys.specs.{true, two_parameters, ℕ};

/// Each byte is in exactly one sequence: those of all sequences, in their order, and then those that are pending are
/// the bytes that came.
pub fn each_byte_is_in_one_sequence()
    ensures { (asked : Asked) (events : List Event) → all_bytes (reading asked events) ≡ bytes_of events }
{}

/// The keys that a decoder has answered took all bytes but those that are pending.
pub fn no_byte_is_lost()
    ensures { (events : List Event) (taken : List Taken) (state : State) → HasRead events taken state
        → bytes_taken taken + length state.pending ≡ length (bytes_of events) }
{}

/// However the bytes were cut: two decoders that were asked for the same, and took the same events, have answered the
/// same keys, and are in one state.
pub fn one_reading()
    ensures taken { (events : List Event) (taken others : List Taken) (one other : State) → HasRead events taken one
        → HasRead events others other → one.asked ≡ other.asked → taken ≡ others }
    ensures state { (events : List Event) (taken others : List Taken) (one other : State) → HasRead events taken one
        → HasRead events others other → one.asked ≡ other.asked → one ≡ other }
{}

/// Each sequence has the key that it has after those before it, of which whole ones alone begin and end pasted texts,
/// by their keys. None of its beginnings is whole, and what is pending is such a beginning.
pub fn all_are_sequences()
    ensures sequences { (asked : Asked) (events : List Event) → IsOfSequences asked (reading asked events) }
    ensures pending { (events : List Event) (taken : List Taken) (state : State) → HasRead events taken state
        → IsPending state }
{}

/// A pasted text ends with these bytes alone.
pub fn pastes_end_so()
    ensures { (asked : Asked) (item : Item) → IsSequence asked true item → item.key ≡ PasteEnds
        → item.bytes ≡ paste_end }
{}

/// The bytes of a key, where nothing is pending and no text is pasted, are answered by that key, if it was asked for,
/// and nothing is pending then.
pub fn key_is_answered()
    ensures { (asked : Asked) (events : List Event) (taken : List Taken) (bytes : List ℕ) (key : Key)
        → HasRead events taken (start asked) → AreKey bytes key
        → HasRead (events ++ map Byte bytes) (taken ++ record { key = as_asked asked key; count = length bytes } ∷ [])
        (after_key asked (as_asked asked key)) }
{}

/// No sequence is eaten by what was pending before it: a whole one that begins with an escape is answered after any
/// events outside of a pasted text. But where a string is pending ESC \ ends it, and an escape may be the last byte
/// that a string can have.
pub fn no_sequence_is_eaten()
    ensures { (events : List Event) (taken : List Taken) (state : State) (byte : ℕ) (rest : List ℕ) (key : Key)
        → HasRead events taken state → state.pasting ≡ false
        → (is_string state.pending ≡ false) ⊎ ((length state.pending + 1 < LONGEST) × (byte ≢ terminator))
        → AreKey (escape ∷ byte ∷ rest) key
        → Resumes state.asked events taken (escape ∷ byte ∷ rest) (as_asked state.asked key) }
{}

/// The end of a pasted text is never missed, whatever was pending, nor by a delay between its bytes, which changes
/// nothing.
pub fn no_end_is_missed()
    ensures ends { (events : List Event) (taken : List Taken) (state : State) → HasRead events taken state
        → state.pasting ≡ true → Resumes state.asked events taken paste_end PasteEnds }
    ensures delays { (events more : List Event) (taken others : List Taken) (one other : State)
        → HasRead events taken one → one.pasting ≡ true → one.asked ≡ other.asked
        → HasRead (events ++ more) others other → HasRead (events ++ Delay ∷ more) others other }
{}

/// The bytes of each character in UTF-8 are its key, and no others but sequences of an escape are, also where they were
/// cut short. Of those below 128 the control characters have names or modifiers.
pub fn characters_are_keys()
    ensures ascii { (code : ℕ) → code < 128 → code ≢ escape → AreKey (code ∷ []) (ascii_key code) }
    ensures others { (code : ℕ) → 128 ≤ code → IsScalar code → AreKey (encode_utf8 code) (key_named (Character code)) }
    ensures only { (bytes : List ℕ) (code : ℕ) → IsBegun false bytes → slice_index bytes 0 ≢ escape
        → key_of false bytes ≡ key_named (Character code) → bytes ≡ encode_utf8 code }
{}

/// Names by their control sequences, whose numbers are spelled in decimal digits: ESC [ n ~ without modifiers, and with
/// all of them ESC [ n ; m ~ and ESC [ 1 ; m with a letter.
pub fn names_are_keys()
    ensures numbers { (n : ℕ) (name : Name) → name_of_number n ≡ Some name
        → AreKey (control_sequence (decimal n) 126) (key_named name) }
    ensures numbers_with { (n : ℕ) (name : Name) (held : Modifiers) → name_of_number n ≡ Some name
        → AreKey (control_sequence (two_parameters n (parameter_of held)) 126) (Pressed name held) }
    ensures letters { (letter : ℕ) (name : Name) (held : Modifiers) → name_of_final letter ≡ Some name
        → AreKey (control_sequence (two_parameters 1 (parameter_of held)) letter) (Pressed name held) }
{}

/// Characters, and enter, tab, escape and backspace, by their numbers with all modifiers: ESC [ n ; m u and
/// ESC [ 27 ; m ; n ~. Other characters below 32, and those for private use, E000 to F8FF, have none.
pub fn codes_are_keys()
    ensures u { (code : ℕ) (name : Name) (held : Modifiers) → name_of_code code ≡ Some name
        → AreKey (control_sequence (two_parameters code (parameter_of held)) 117) (Pressed name held) }
    ensures other { (code : ℕ) (name : Name) (held : Modifiers) → name_of_code code ≡ Some name
        → AreKey (control_sequence (three_parameters 27 (parameter_of held) code) 126) (Pressed name held) }
    ensures characters { (code : ℕ) → IsScalar code → 32 ≤ code → code ≢ 127 → (code < 0xe000) ⊎ (0xf900 ≤ code)
        → name_of_code code ≡ Some (Character code) }
    ensures names { (name_of_code 13 ≡ Some Enter) × (name_of_code 9 ≡ Some Tab) × (name_of_code 27 ≡ Some Escape)
        × (name_of_code 8 ≡ Some Backspace) × (name_of_code 127 ≡ Some Backspace) }
{}
