// The parts of a text, between separators of one byte.
ghost use Rattle.std.specs.Prelude.{◌≡◌, ◌==◌, is_some, if◌then◌else◌, Some, None, Ok, Err, MatchResult, position};
ghost use Rattle.std.specs.Option.{option_map};
ghost use Rattle.protocol.specs.declared.bad.Bad.TheVariants.{MissingPart, ExtraPart};
ghost use Rattle.protocol.specs.Cuts.{front, after, Uncut, Handed, still, dash};
ghost use Rattle.std.specs.Iterator.{at_most};

use crate::bad::Bad;
use std::marker::Model;

// What is still to be cut: none once the last part was handed out. The library's `split` has a closure in its type, which
// `new` could not name in its result.
#[derive(Drop)]
pub struct Parts<'a> {
    rest: Option<&'a [u8]>,
    separator: u8,
}

impl<'a> Model for Parts<'a> {
    ghost Value = { Uncut };

    ghost view = { λ p. record { rest = option_map (λ x. x.now) p.rest; separator = p.separator } };
}

// Where the first `separator` stands in `text`.
fn place(text: &[u8], separator: u8) -> Option<usize>
    ensures { result ≡ position (λ b. b == separator) text.now }
{
    text.iter().position(|b| *b == separator)
}

// The part at the front, and what follows its separator if there is one.
fn cut(text: &[u8], separator: u8) -> (&[u8], Option<&[u8]>)
    ensures part { result.0.now ≡ front separator text.now }
    ensures left { option_map (λ x. x.now) result.1 ≡ after separator text.now }
{
    match place(text, separator) {
        Some(end) => (&text[..end], Some(&text[end + 1..])),
        None => (text, None),
    }
}

// Whether the text is `-`, which stands for what is empty.
pub fn is_dash(text: &[u8]) -> bool
    ensures { result ≡ dash text.now }
{
    matches!(text, [b'-'])
}

impl<'a> Parts<'a> {
    // Cuts at each separator, so there is at least one part, which may be empty.
    pub fn new(text: &'a [u8], separator: u8) -> Parts<'a>
        ensures rest { result.rest ≡ Some text.now }
        ensures separator { result.separator ≡ separator }
    {
        Parts {
            rest: Some(text),
            separator,
        }
    }

    // The parts of a list, which `,` joins; `-` is the list with none.
    pub fn of_list(text: &'a [u8]) -> Parts<'a>
        ensures rest { result.rest ≡ (if dash text.now then None else Some text.now) }
        ensures separator { result.separator ≡ 44 }
    {
        let separator = b',';
        if is_dash(text) {
            return Parts {
                rest: None,
                separator,
            };
        }
        Parts::new(text, separator)
    }

    // The next part, which has to be there.
    pub fn part(&mut self) -> Result<&'a [u8], Bad>
        ensures part { MatchResult result (λ p. Handed self.old.separator self.old.rest (Some p.now) self.new.rest) (λ e. (e ≡ MissingPart) × (self.old.rest ≡ None)) }
        ensures separator { self.new.separator ≡ self.old.separator }
    {
        self.next().ok_or(Bad::MissingPart)
    }

    // Refuses what is left.
    pub fn end(&self) -> Result<(), Bad>
        ensures { result ≡ (if is_some self.now.rest then Err ExtraPart else Ok tt) }
    {
        if self.rest.is_some() {
            return Err(Bad::ExtraPart);
        }
        Ok(())
    }
}

impl<'a> Iterator for Parts<'a> {
    type Item = &'a [u8];

    ghost next_gives = { λ s r t. Handed s.separator s.rest (option_map (λ x. x.now) r) t.rest × (t.separator ≡ s.separator) };

    ghost remaining = { λ s. at_most (still s.rest) };

    fn next(&mut self) -> Option<&'a [u8]> {
        let rest = self.rest?;
        let (part, left) = cut(rest, self.separator);
        self.rest = left;
        Some(part)
    }
}
