// A line taken apart into words.
ghost use Rattle.std.specs.Prelude.{◌≡◌, ◌==◌, ◌++◌, position, OnOk, IfOk};
ghost use Rattle.script.specs.Words.{without_last, without_end, before_comment, blank, single, words_of, Word, texts};
ghost use Rattle.std.specs.List.{AllByRecursion};

use std::alloc::{AllocError, Global};

// The text without its last byte where that is `end`.
fn without_last(text: &[u8], end: u8) -> &[u8]
    ensures { result.now ≡ without_last end text.now }
{
    text.strip_suffix(&[end]).unwrap_or(text)
}

// The line without its newline and a carriage return before it.
fn without_end(line: &[u8]) -> &[u8]
    ensures { result.now ≡ without_end line.now }
{
    without_last(without_last(line, b'\n'), b'\r')
}

// Where the first `#` stands.
fn hash(text: &[u8]) -> Option<usize>
    ensures { result ≡ position (λ b. b == 35) text.now }
{
    text.iter().position(|b| *b == b'#')
}

// What stands before the first `#`.
fn before_comment(text: &[u8]) -> &[u8]
    ensures { result.now ≡ before_comment text.now }
{
    &text[..hash(text).unwrap_or(text.len())]
}

// Words are parted by spaces and tabs.
fn is_blank(b: u8) -> bool
    ensures { result ≡ blank b }
{
    b == b' ' || b == b'\t'
}

// Adds the word, unless it is empty.
fn add<'a>(words: &mut Vec<&'a [u8]>, word: &'a [u8]) -> Result<(), AllocError>
    ensures { OnOk result (texts words.new.items ≡ texts words.old.items ++ single word.now) }
{
    if !word.is_empty() {
        words.push(word)?;
    }
    Ok(())
}

// The words of a line, whatever bytes it holds; with its end or without. A loop over its bytes: parted at each blank by
// `split`, a line of many blanks took twice the time.
pub fn words<'a>(heap: Global, line: &'a [u8]) -> Result<Vec<&'a [u8]>, AllocError>
    ensures exact { IfOk result (λ v. texts v.items ≡ words_of line.now) }
    ensures clean { IfOk result (λ v. AllByRecursion Word (texts v.items)) }
{
    let text = before_comment(without_end(line));
    let mut words = Vec::new(heap);
    let mut start = 0;
    for (i, b) in text.iter().enumerate() {
        if is_blank(*b) {
            add(&mut words, &text[start..i])?;
            start = i + 1;
        }
    }
    add(&mut words, &text[start..])?;
    Ok(words)
}
