//! Texts cut into tokens.

ghost use Rattle.std.specs.Prelude.{◌≡◌, length};

use crate::rows::parts;
use req_parser::{Token, TokenKind, tokens};
use req_tree::LineText;
use std::alloc::Global;
use std::test::Fail;

// The tokens by kind, place and length, and the text: S for a symbol, H a hash, X hexadecimal, I an integer, Q between
// quotes, W a word.
#[rattlefmt::skip]
const TOKENS: &[u8] = b"W0+1 W2+2 W5+1|a or b
W0+3 W4+3 X8+4|Hab and 0x12
I0+2 S3+2 S6+2 S9+1 S11+1 S13+1 S15+1 S17+1 W19+1|01 => <= < = > ! - H
H0+43 W43+1|H\"0123456789abcdef0123456789abcdef01234567\"x
W0+11 W12+4 S16+1 W17+7 S24+1|certificate leaf[field.1]
W0+10 W11+3|identifier and
W0+6 W7+2|always or
W0+10 S11+2 W14+6 W21+10 S32+2 W35+5|designated => always designated => never
W0+4 S5+2 W8+1 W10+2 W13+1 W15+6 S22+2 W25+6 W32+5 W38+5 S44+2 W47+4 W52+4 S56+1 W57+1 S58+1|host => a or b plugin => anchor apple guest => cert leaf[k]
W0+1 S1+1 W2+1 S3+1 W4+1 S5+1 W6+1|a-b~c*d
S0+2 S2+2 S4+1 S5+2 S7+1|>==>=<==
W0+2 Q2+3|aH\"b\"
X0+4 W5+7|0x01 and0x02
I0+2 W2+2|12ab
Q0+3 Q4+3 Q7+2|\"a\" \"b\"\"\"
W0+4 W5+5 W11+10 W22+7 W30+6|host guest designated library plugin
W0+11 W12+4 S16+1 Q17+13 S30+1|certificate leaf[\"timestamp.x\"]
W0+6 W7+4 W12+5 W18+5 W24+10 W35+6 W42+6 W49+5 W55+7 W63+7 W71+11 W83+4 W88+4 W93+4 W98+4 W103+11 W115+8 W124+9 W134+6 W141+6 W148+6 W155+3 W159+2 W162+4 W167+5 W173+10 W184+7 W192+6|always true never false identifier cdhash anchor apple generic trusted certificate cert leaf root info entitlement platform notarized legacy exists absent and or host guest designated library plugin
S0+1 S2+1 S4+1 S6+1 S8+1 S10+1 S12+2 S15+1 S17+2 S20+1 S22+2 S25+1 S27+1 S29+1|( ) [ ] ! = => < <= > >= ~ * -
S0+1 S1+1 S2+1 S3+2 S5+1 S6+1 S7+1|([!=>]~)
-|
-| \t\r 
W0+6 W7+3 W11+5 W17+3 W21+9|always and never and notarized
W0+4 W5+4 S9+1 W10+10 S20+1 S22+1 Q24+12 S43+1|cert leaf[subject.OU] = \"2DC432GLL2\"/* x */*
W0+1|a # b
W0+8 S8+1 S9+1 I10+1|platform=-1//";

// What is printed, and the text.
#[rattlefmt::skip]
const REFUSED: &[u8] = b"2 OpenString at=0|\"abc
4 BadHex at=0|H\"12\"
4 BadHex at=0|0x1
4 BadHex at=0|0x
3 OpenComment at=0|/*/
3 OpenComment at=0|/* x
5 IntTooLarge at=0|2147483649
1 BadByte at=0|.a
1 BadByte at=2|\"a\\b\"
2 OpenString at=0|\"a\\\\\"
2 OpenString at=0|H\"12
1 BadByte at=0|_
4 BadHex at=0|0x12g
1 BadByte at=0|\x0c
1 BadByte at=0|/
1 BadByte at=0|@
5 IntTooLarge at=0|9999999999
4 BadHex at=0|H\"0123456789abcdef0123456789abcdef0123456g\"
4 BadHex at=0|H\"0123456789abcdef0123456789abcdef012345678\"
4 BadHex at=0|0x123
1 BadByte at=0|$1
4 BadHex at=0|0x1G
1 BadByte at=1|a.
1 BadByte at=1|a..b
4 BadHex at=7|cdhash H\"12\"
4 BadHex at=0|H\"12 and \"x\"
2 OpenString at=0|\"a\\b
1 BadByte at=5|\"a\\\"b\\c\"
1 BadByte at=1|\"\\\\x\"
3 OpenComment at=7|always /* x
1 BadByte at=11|always and /
2 OpenString at=11|identifier \"x
2 OpenString at=0|H\"0123456789abcdef0123456789abcdef01234567
5 IntTooLarge at=11|platform = 4294967296
1 BadByte at=8|info[k]=\x80
1 BadByte at=3|a.b.#
2 OpenString at=4|\"x\"y\"
1 BadByte at=5|/**/*/
2 OpenString at=0|\"\\\"
4 BadHex at=0|0xAbC
4 BadHex at=0|H\"\"";

fn letter(kind: TokenKind) -> &'static [u8]
    ensures { length result.now ≡ 1 }
{
    match kind {
        TokenKind::Symbol => b"S",
        TokenKind::Hash => b"H",
        TokenKind::Hex => b"X",
        TokenKind::Integer => b"I",
        TokenKind::Quoted => b"Q",
        TokenKind::Word => b"W",
    }
}

fn token_is(token: &Token, want: &[u8]) -> bool {
    let mut line = LineText::new();
    line.push_all(letter(token.kind));
    line.push_number(u64::from(token.at));
    line.push_all(b"+");
    line.push_number(u64::from(token.length));
    line.as_slice() == want
}

fn are_tokens(list: &[Token], want: &[u8]) -> bool {
    let mut all = true;
    let mut rest = want;
    for token in list {
        let (first, behind) = parts(rest, b' ');
        all = all && token_is(token, first);
        rest = behind;
    }
    all && rest.is_empty()
}

fn is_cut(alloc: Global, text: &[u8], want: &[u8]) -> bool {
    match tokens(alloc, text) {
        Ok(list) => {
            if want == b"-".as_slice() {
                return list.as_slice().is_empty();
            }
            are_tokens(list.as_slice(), want)
        }
        Err(_) => false,
    }
}

fn all_cut(alloc: Global) -> bool {
    let mut all = true;
    for row in TOKENS.split(|byte| *byte == b'\n') {
        let (want, text) = parts(row, b'|');
        all = all && is_cut(alloc, text, want);
    }
    all
}

#[test]
fn texts_are_cut_into_their_tokens(rt: HostRuntime) {
    assert!(rt; all_cut(rt.alloc()));
}

fn is_refused_as(alloc: Global, text: &[u8], want: &[u8]) -> bool {
    match tokens(alloc, text) {
        Ok(_) => false,
        Err(fault) => {
            let mut line = LineText::new();
            fault.line_into(&mut line);
            line.as_slice() == want
        }
    }
}

fn all_refused(alloc: Global) -> bool {
    let mut all = true;
    for row in REFUSED.split(|byte| *byte == b'\n') {
        let (want, text) = parts(row, b'|');
        all = all && is_refused_as(alloc, text, want);
    }
    all
}

#[test]
fn the_first_fault_of_the_tokens_is_told(rt: HostRuntime) {
    assert!(rt; all_refused(rt.alloc()));
}
