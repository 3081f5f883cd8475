//! Counts over replies that were written by hand.

use line_text::LineText;
use rehearsal::Tally;

// Replies, and the summary of seven steps.
#[rattlefmt::skip]
const REPLIES: [(&str, &[u8], &[u8]); 6] = [
    ("none", b"", b"steps=7 accepted=0 rejected=0 cache=0 kept=0 moved=0 edits=0 refused=0"),
    ("one of each",
        b"begun 1 at=0\naccepted at=3 rule=1 latent=none label=L1 override=none source=rules cache=kept\nrejected at=3 rule=none latent=none label=no%20matching%20rule override=none source=rules cache=moved\naccepted at=3 rule=1 latent=none label=L1 override=none source=cache cache=none\nok edit=1 rules=1\nrefused edit 11 NoRule\nnow=9\n",
        b"steps=7 accepted=2 rejected=1 cache=1 kept=1 moved=1 edits=1 refused=1"),
    ("without the last LF", b"refused session 22 SlotEmpty", b"steps=7 accepted=0 rejected=0 cache=0 kept=0 moved=0 edits=0 refused=1"),
    ("fronts alone", b"accepted\nrejected\nok edit\nrefused\n", b"steps=7 accepted=1 rejected=1 cache=0 kept=0 moved=0 edits=1 refused=1"),
    ("a front inside a line", b"not accepted\nnow refused\nrepeated edit=1 rules=1\n\n", b"steps=7 accepted=0 rejected=0 cache=0 kept=0 moved=0 edits=0 refused=0"),
    ("a word that is longer", b"accepted cache=kept2 xcache=moved source=caches label=cache=kept\n", b"steps=7 accepted=1 rejected=0 cache=0 kept=0 moved=0 edits=0 refused=0"),
];

fn summaries_are_right() -> bool {
    for (_name, replies, summary) in REPLIES {
        let mut line = LineText::new();
        Tally::of(replies).summary_into(7, &mut line);
        if line.as_slice() != summary {
            return false;
        }
    }
    true
}

#[test]
fn replies_are_counted(rt: HostRuntime) {
    assert!(rt; summaries_are_right());
}
