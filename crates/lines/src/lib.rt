//! Reads lines of the form `verb key=value key=value flag`.
//!
//! A line is any bytes at all. Its words are separated by one space, so two spaces in a row make an empty
//! word. A word with `=` gives a value to the key before the first `=`; the value may be empty. The first
//! word is the verb. Nothing is allocated: what is read is a part of the line.
//!
//! - this file has [`Line`], which is asked for its verb, its values, its flags, and for a word that its
//!   verb does not know;
//! - `words` cuts a text at its spaces, and a word at its `=`.
//!
//! What is read is defined in `specs/Words.antt`.

#![tactic(auto)]

ghost use Rattle.std.specs.Prelude.{◌≡◌};
ghost use Rattle.std.specs.Option.{option_map};
ghost use Rattle.lines.specs.Words.{text_of, first_word, later_words, words_after, value_in, among, stray};

mod words;

use words::{Words, cut, labelled, value_of};

/// The text of one line, without its end.
#[derive(Clone, Copy)]
pub struct Line<'a> {
    text: &'a [u8],
}

impl<'a> Line<'a> {
    /// The line with that text.
    pub fn new(text: &'a [u8]) -> Line<'a>
        ensures { text_of result ≡ text.now }
    {
        Line { text }
    }

    /// The first word.
    pub fn verb(&self) -> &'a [u8]
        ensures { result.now ≡ first_word (text_of self.now) }
    {
        cut(self.text).0
    }

    /// The value that the first word with that key gives it.
    pub fn value(&self, key: &[u8]) -> Option<&'a [u8]>
        ensures { option_map (λ x. x.now) result ≡ value_in key.now (words_after self.now) }
    {
        Words::new(self.text).find_map(|word| value_of(key, word))
    }

    /// Whether `word` stands after the verb.
    pub fn flag(&self, word: &[u8]) -> bool
        ensures { result ≡ among word.now (words_after self.now) }
    {
        Words::new(self.text).any(|next| word == next)
    }

    /// The first word after the verb that `form` lacks, or that stands again later. A form is written as a
    /// line itself: a verb, its keys each with `=`, and its flags.
    pub fn stray(&self, form: &[u8]) -> Option<&'a [u8]>
        ensures { option_map (λ x. x.now) result ≡ stray (later_words form.now) (words_after self.now) }
    {
        // A `while let`, since each word is held against those after it.
        let mut words = Words::new(self.text);
        while let Some(word) = words.next() {
            if !labelled(word, Words::new(form)) || labelled(word, words) {
                return Some(word);
            }
        }
        None
    }
}
