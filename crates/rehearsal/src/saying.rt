//! What replies are counted by.

ghost use Rattle.std.specs.Prelude.{◌≡◌, [], false, count_by};
ghost use Rattle.line_reader.specs.Lines.{lines_of};
ghost use Rattle.rehearsal.specs.Counts.{has_word};
ghost use Rattle.rehearsal.specs.Sayings.{says};

use crate::pieces::split_at_byte;

/// What a reply may say.
#[derive(Clone, Copy, Drop)]
pub enum Saying<'a> {
    /// It begins with these bytes.
    Front(&'a [u8]),
    /// It has this word.
    Word(&'a [u8]),
}

impl Saying<'_> {
    fn is_said(self, reply: &[u8]) -> bool
        ensures { result ≡ says self.entry reply.now }
    {
        match self {
            Saying::Front(front) => reply.starts_with(front),
            Saying::Word(word) => has(reply, word),
        }
    }

    /// How many lines of the replies say it.
    pub fn count(self, replies: &[u8]) -> u64
        requires { says self [] ≡ false }
        ensures { result ≡ count_by (says self.entry) (lines_of replies.now) }
    {
        let mut count = 0;
        let mut left = Some(replies);
        while let Some(bytes) = left {
            let (reply, behind) = split_at_byte(bytes, b'\n');
            if self.is_said(reply) {
                count += 1;
            }
            left = behind;
        }
        count
    }
}

/// Whether the reply has the word.
fn has(reply: &[u8], word: &[u8]) -> bool
    ensures { result ≡ has_word word.now reply.now }
{
    let mut left = Some(reply);
    while let Some(bytes) = left {
        let (first, behind) = split_at_byte(bytes, b' ');
        if first == word {
            return true;
        }
        left = behind;
    }
    false
}
