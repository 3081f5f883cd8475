//! Labels of every byte: as two digits each is read, and what is printed is read as the same label.

use line_text::LineText;
use rule_edits::{content_is, content_text, read_content};
use std::alloc::{AllocError, Global};
use std::test::Fail;

const DIGITS: [u8; 16] = *b"0123456789abcdef";

fn push_pair(text: &mut Vec<u8>, byte: u8) -> Result<(), AllocError> {
    text.push(b'%')?;
    text.push(DIGITS[usize::from(byte / 16)])?;
    text.push(DIGITS[usize::from(byte % 16)])?;
    Ok(())
}

/// The content that removes the rules whose label is so many bytes from this one on, each as two digits.
fn removal(alloc: Global, first: u8, count: u8) -> Result<Vec<u8>, AllocError> {
    let mut text = Vec::new(alloc);
    text.extend_from_slice(b"remove label ")?;
    for place in 0..count {
        push_pair(&mut text, first.wrapping_add(place))?;
    }
    text.extend_from_slice(b" any")?;
    Ok(text)
}

/// The same as it prints.
fn printed(first: u8, count: u8) -> LineText {
    let mut label = [0; 128];
    for place in 0..count {
        if place < 128 {
            label[usize::from(place)] = first.wrapping_add(place);
        }
    }
    let mut out = LineText::new();
    out.push_all(b"remove label ");
    out.push_word(&label[..usize::from(count.min(128))]);
    out.push_all(b" any");
    out
}

fn is_same(alloc: Global, first: u8, count: u8) -> Option<bool> {
    let text = removal(alloc, first, count).ok()?;
    let content = read_content(alloc, text.as_slice()).ok()?;
    let out = printed(first, count);
    let canonical = content_text(alloc, &content).ok()?;
    let again = read_content(alloc, canonical.as_slice()).ok()?;
    let prints = canonical.as_slice() == out.as_slice();
    let is = content_is(&again, out.as_slice());
    Some(prints && is)
}

fn each_byte(alloc: Global) -> bool {
    let mut all = true;
    for byte in 0..=255u8 {
        all = all && is_same(alloc, byte, 1) == Some(true);
    }
    all
}

#[test]
fn labels_have_every_byte(rt: HostRuntime) {
    assert!(rt; each_byte(rt.alloc()));
}

fn halves(alloc: Global) -> bool {
    let low = is_same(alloc, 0, 128) == Some(true);
    let high = is_same(alloc, 128, 128) == Some(true);
    low && high
}

#[test]
fn labels_have_128_bytes(rt: HostRuntime) {
    assert!(rt; halves(rt.alloc()));
}

fn one_more_is_refused(alloc: Global) -> bool {
    is_same(alloc, 0, 129).is_none()
}

#[test]
fn a_label_of_129_bytes_is_refused(rt: HostRuntime) {
    assert!(rt; one_more_is_refused(rt.alloc()));
}
