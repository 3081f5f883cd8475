//! A line whose words are taken off one after the other.

ghost use Rattle.std.specs.Prelude.{◌≡◌, ◌≤◌, ◌+◌, ℕ, List, [], length, IfOk, OnErr};
ghost use Rattle.std.specs.Option.{option_copied, option_map, ForSome};
ghost use Rattle.line_text.specs.declared.limits.TheConstants.{LINE_HELD};
ghost use Rattle.line_text.specs.declared.limits.TheConstants.{LINE_LIMIT};
ghost use denote.Bor.{Bor};

use crate::fault::LineFault;
use crate::flags::Flags;
use crate::reading::{
    read_allow, read_expiry, read_flags, read_identifier, read_kind, read_label, read_moment,
    read_platform, read_priority,
};
use crate::split::split_word;
use req_tree::{Hash20, Identifier, Subject, read_hash};
use rule_values::{Kind, Label, Moment, Priority};

/// What is left of a line. After its last word nothing is left, which isn't one empty word.
#[derive(Drop)]
pub struct Cursor<'a> {
    rest: Option<&'a [u8]>,
    // Where the next word begins, counted from 1.
    column: u32,
    ghost least: { 1 ≤ column },
    ghost most: { column ≤ LINE_HELD + 1 },
    ghost within: { ForSome (option_copied rest) (λ text. column + length text ≤ LINE_HELD) },
}

impl<'a> Cursor<'a> {
    ghost use Rattle.line_model.specs.Left.{all_of, word_at, end_at};
    ghost use Rattle.line_model.specs.Forms.{moment_at, expiry_at, kind_at, allow_at, priority_at, label_at, flags_at, hash_at, identifier_at, platform_at};
    ghost use Rattle.line_model.specs.Requirements.{rest_at};
    ghost use Rattle.line_model.specs.Subjects.{signed_at, subject_at};
    ghost use Rattle.req_tree.specs.Subject.{identifier_bytes, subject_of};
    ghost use Rattle.rule_values.specs.Label.{label_bytes};
    ghost use Rattle.rule_values.specs.Kind.{kind_of};
    ghost use Rattle.line_words.specs.Flags.{flags_of};
    ghost use Rattle.line_words.specs.Left.{left, Takes, Gives};

    /// All words of a line.
    pub fn of(line: &'a [u8]) -> Cursor<'a>
        requires { length line.now ≤ LINE_LIMIT }
        ensures { left result ≡ all_of line.now }
    {
        Cursor {
            rest: Some(line),
            column: 1,
        }
    }

    /// The column where the next word begins, counted from 1.
    pub fn column(&self) -> u32
        ensures column { result ≡ (left self.now).column }
        ensures most { result ≤ LINE_HELD + 1 }
    {
        self.column
    }

    /// The next word.
    pub fn next(&mut self) -> Result<&'a [u8], LineFault>
        ensures word { Takes (λ (word : Bor (List ℕ)). word.now) (left self.new) result (word_at (left self.old)) }
        ensures unchanged { OnErr result (left self.new ≡ left self.old) }
    {
        let Some(line) = self.rest else {
            return Err(LineFault::BadLine {
                column: self.column - 1,
            });
        };
        let (word, rest) = split_word(line);
        self.rest = rest;
        self.column += word.len() as u32 + 1;
        Ok(word)
    }

    /// All that is left as one text, spaces included.
    pub fn rest(&self) -> Result<&'a [u8], LineFault>
        ensures text { Gives (λ (text : Bor (List ℕ)). text.now) result (rest_at (left self.now)) }
        ensures within { IfOk result (λ text. (left self.now).column + length text.now ≤ LINE_HELD) }
    {
        match self.rest {
            Some(text) => Ok(text),
            None => Err(LineFault::BadLine {
                column: self.column - 1,
            }),
        }
    }

    /// The next word as a moment.
    pub fn moment(&mut self) -> Result<Moment, LineFault>
        ensures { Takes (λ (moment : ℕ). moment) (left self.new) result (moment_at (left self.old)) }
    {
        read_moment(self.next()?).ok_or(LineFault::BadMoment)
    }

    /// The next word as a moment or `never`.
    pub fn expiry(&mut self) -> Result<Option<Moment>, LineFault>
        ensures { Takes (λ expires. expires) (left self.new) result (expiry_at (left self.old)) }
    {
        read_expiry(self.next()?).ok_or(LineFault::BadMoment)
    }

    /// The next word as a kind.
    pub fn kind(&mut self) -> Result<Kind, LineFault>
        ensures { Takes kind_of (left self.new) result (kind_at (left self.old)) }
    {
        let column = self.column;
        read_kind(self.next()?).ok_or(LineFault::BadLine { column })
    }

    /// The next word as a verdict: whether it allows.
    pub fn allow(&mut self) -> Result<bool, LineFault>
        ensures { Takes (λ allow. allow) (left self.new) result (allow_at (left self.old)) }
    {
        let column = self.column;
        read_allow(self.next()?).ok_or(LineFault::BadLine { column })
    }

    /// The next word as a priority.
    pub fn priority(&mut self) -> Result<Priority, LineFault>
        ensures { Takes (λ priority. priority) (left self.new) result (priority_at (left self.old)) }
    {
        read_priority(self.next()?).ok_or(LineFault::BadPriority)
    }

    /// The next word as a label.
    pub fn label(&mut self) -> Result<Label, LineFault>
        ensures { Takes label_bytes (left self.new) result (label_at (left self.old)) }
    {
        read_label(self.next()?).ok_or(LineFault::BadLabel)
    }

    /// The next word as flags.
    pub fn flags(&mut self) -> Result<Flags, LineFault>
        ensures { Takes flags_of (left self.new) result (flags_at (left self.old)) }
    {
        let column = self.column;
        read_flags(self.next()?).ok_or(LineFault::BadLine { column })
    }

    /// The next words as signed code, or the word `unsigned`.
    pub fn subject(&mut self) -> Result<Option<Subject>, LineFault>
        ensures { Takes (option_map subject_of) (left self.new) result (subject_at (left self.old)) }
    {
        let rest = self.rest;
        let column = self.column;
        if self.next()? == b"unsigned".as_slice() {
            return Ok(None);
        }
        self.rest = rest;
        self.column = column;
        let subject = self.signed()?;
        Ok(Some(subject))
    }

    /// The next words as a hash, an identifier and a platform.
    fn signed(&mut self) -> Result<Subject, LineFault>
        ensures { Takes subject_of (left self.new) result (signed_at (left self.old)) }
    {
        let cdhash = self.hash()?;
        let identifier = self.identifier()?;
        let platform = self.platform()?;
        Ok(Subject {
            cdhash,
            identifier,
            platform,
        })
    }

    /// The next word as the hash of code.
    pub fn hash(&mut self) -> Result<Hash20, LineFault>
        ensures { Takes (λ (hash : Hash20). hash.bytes) (left self.new) result (hash_at (left self.old)) }
    {
        let column = self.column;
        read_hash(self.next()?).ok_or(LineFault::BadLine { column })
    }

    /// The next word as an identifier.
    pub fn identifier(&mut self) -> Result<Identifier, LineFault>
        ensures { Takes identifier_bytes (left self.new) result (identifier_at (left self.old)) }
    {
        let column = self.column;
        read_identifier(self.next()?).ok_or(LineFault::BadLine { column })
    }

    /// The next word as a platform's number.
    pub fn platform(&mut self) -> Result<u8, LineFault>
        ensures { Takes (λ platform. platform) (left self.new) result (platform_at (left self.old)) }
    {
        let column = self.column;
        read_platform(self.next()?).ok_or(LineFault::BadLine { column })
    }

    /// That no word is left.
    pub fn end(&self) -> Result<(), LineFault>
        ensures { Gives (λ _. left self.now) result (end_at (left self.now)) }
    {
        match self.rest {
            Some(_) => Err(LineFault::BadLine {
                column: self.column,
            }),
            None => Ok(()),
        }
    }
}
