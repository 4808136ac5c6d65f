//! Cuts a text at its spaces, and a word at its `=`.

ghost use Rattle.std.specs.Prelude.{◌≡◌, ◌==◌, position};
ghost use Rattle.std.specs.Iterator.{YieldsFirstRef, item_count};
ghost use Rattle.std.specs.Option.{option_map};
ghost use Rattle.lines.specs.Words.{first_word, from_space, later_words, words_left, value_of, label, labelled};

/// The place of the first `byte`.
fn place_of(text: &[u8], byte: u8) -> Option<usize>
    ensures { result ≡ position (λ b. b == byte) text.now }
{
    text.iter().position(|b| *b == byte)
}

/// The first word, and the text from the space after it on.
pub(crate) fn cut(text: &[u8]) -> (&[u8], &[u8])
    ensures word { result.0.now ≡ first_word text.now }
    ensures rest { result.1.now ≡ from_space text.now }
{
    text.split_at(place_of(text, b' ').unwrap_or(text.len()))
}

/// The words of a text after its first, each of which a space begins.
#[derive(Clone, Copy)]
pub(crate) struct Words<'a> {
    rest: &'a [u8],
}

impl<'a> Words<'a> {
    /// Those of `text`.
    pub(crate) fn new(text: &'a [u8]) -> Words<'a>
        ensures { words_left result ≡ later_words text.now }
    {
        Words { rest: text }
    }
}

impl<'a> Iterator for Words<'a> {
    type Item = &'a [u8];

    ghost next_gives = { YieldsFirstRef words_left };

    ghost remaining = { item_count words_left };

    fn next(&mut self) -> Option<&'a [u8]> {
        let (_, after) = cut(self.rest).1.split_first()?;
        let (word, rest) = cut(after);
        self.rest = rest;
        Some(word)
    }
}

/// The value that `word` gives `key`.
pub(crate) fn value_of<'a>(key: &[u8], word: &'a [u8]) -> Option<&'a [u8]>
    ensures { option_map (λ x. x.now) result ≡ value_of key.now word.now }
{
    word.strip_prefix(key)?.strip_prefix(b"=")
}

/// What of `word` says which key or which flag it is.
fn label(word: &[u8]) -> &[u8]
    ensures { result.now ≡ label word.now }
{
    match place_of(word, b'=') {
        Some(end) => &word[..=end],
        None => word,
    }
}

/// Whether one of `words` is of the key or flag of `word`.
pub(crate) fn labelled(word: &[u8], mut words: Words<'_>) -> bool
    ensures { result ≡ labelled word.now (words_left words.entry) }
{
    words.any(|other| label(word) == label(other))
}
