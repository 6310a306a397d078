//! What holds of the definitions alone. Each function does nothing, and its contract is the law.

ghost use Rattle.std.specs.Prelude.{◌≡◌};
ghost use Rattle.script.specs.{Some, entry_of, word_of};
ghost use Rattle.script.specs.declared.limits.TheConstants.{ALL_ATTRIBUTES, GREATEST_NUMBER, GREATEST_SIGNED, LONGEST_LINE, MOST_ARGUMENTS, MOST_DIGITS};
ghost use Rattle.script.specs.declared.words.Word.{Word};

/// The word of each call is read as that call. So no two calls have the same word, and the list of words lacks none.
pub fn each_word_is_read()
    ensures { (word : Word) → word_of (entry_of word).word ≡ Some word }
{}

/// The limits of a script's text in numerals: the bytes of a line, the arguments of a call, the digits and the greatest
/// of numbers, with a sign and without, and the greatest set of attributes. Here a reader checks the values; all else
/// uses the names.
pub fn limits_in_numerals()
    ensures line { LONGEST_LINE ≡ 512 }
    ensures arguments { MOST_ARGUMENTS ≡ 9 }
    ensures digits { MOST_DIGITS ≡ 5 }
    ensures number { GREATEST_NUMBER ≡ 65535 }
    ensures signed { GREATEST_SIGNED ≡ 32767 }
    ensures attributes { ALL_ATTRIBUTES ≡ 63 }
{}
