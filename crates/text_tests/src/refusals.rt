//! Texts that are no requirement, and how they are refused.

use crate::rows::parts;
use req_parser::{TextFault, parse};
use req_tree::LineText;
use std::alloc::Global;
use std::test::Fail;

// What is printed, and the text.
#[rattlefmt::skip]
const REFUSED: &[u8] = b"6 Syntax token=0|
6 Syntax token=0|   
6 Syntax token=1|identifier and
6 Syntax token=2|always or
6 Syntax token=2|anchor apple trusted
6 Syntax token=2|certificate leaf
6 Syntax token=3|! ( always
6 Syntax token=5|info[Version] <
6 Syntax token=1|always )
6 Syntax token=2|(a and b)
6 Syntax token=2|platform = 2147483648
6 Syntax token=0|com.example
9 BadKey token=3|certificate leaf[field.1]
6 Syntax token=5|certificate leaf[field.1] )
9 BadKey token=3|certificate leaf[\"timestamp.x\"]
1 BadByte at=23|certificate leaf[policy.]
9 BadKey token=3|certificate leaf[\"policy.\"]
9 BadKey token=3|cert 1[field.1.2.4294967296]
9 BadKey token=3|certificate leaf[field.1.40]
9 BadKey token=3|certificate leaf[field.3.1]
9 BadKey token=2|anchor[field.01.2]
9 BadKey token=8|cert leaf[k] and anchor[field.x] and anchor[field.y]
9 BadKey token=3|cert leaf[0x6669656c642e31]
6 Syntax token=1|cdhash \"/path\"
6 Syntax token=1|cdhash = H\"0123456789abcdef0123456789abcdef01234567\"
6 Syntax token=1|always never
6 Syntax token=1|!
6 Syntax token=1|( )
6 Syntax token=0|[k]
6 Syntax token=1|identifier always
6 Syntax token=2|identifier = = x
6 Syntax token=1|info k
6 Syntax token=3|info[k
6 Syntax token=2|info[and]
6 Syntax token=5|entitlement[k] = 
6 Syntax token=6|info[k] = * *
6 Syntax token=6|info[k]=**x
6 Syntax token=6|info[k] ~ x*
6 Syntax token=1|anchor generic
6 Syntax token=1|anchor
6 Syntax token=1|cert
6 Syntax token=2|cert leaf leaf
6 Syntax token=3|certificate - 1
5 IntTooLarge at=13|certificate -2147483649 trusted
6 Syntax token=1|platform 1
6 Syntax token=3|platform = - - 1
6 Syntax token=2|platform = root
6 Syntax token=1|notarized = x
6 Syntax token=3|(a)(b)
6 Syntax token=0|and always
6 Syntax token=2|always and or never
6 Syntax token=0|designated => always
6 Syntax token=0|trusted
6 Syntax token=0|generic
6 Syntax token=0|H
6 Syntax token=0|\"a\"
6 Syntax token=0|0x00
6 Syntax token=0|1
6 Syntax token=0|=> always
6 Syntax token=1|always =
6 Syntax token=2|(always
6 Syntax token=4|((always)
6 Syntax token=3|cert leaf trusted exists
6 Syntax token=2|anchor = x
6 Syntax token=0|leaf[k]
2 OpenString at=0|\"abc
4 BadHex at=0|H\"12\"
4 BadHex at=0|0x1
4 BadHex at=0|0x
3 OpenComment at=0|/*/
3 OpenComment at=0|/* x
5 IntTooLarge at=0|2147483649
1 BadByte at=0|.a
1 BadByte at=2|\"a\\b\"
2 OpenString at=0|\"a\\\\\"
2 OpenString at=0|H\"12
1 BadByte at=0|_
4 BadHex at=0|0x12g
1 BadByte at=0|\x0c
1 BadByte at=0|/
1 BadByte at=0|@
5 IntTooLarge at=0|9999999999
4 BadHex at=0|H\"0123456789abcdef0123456789abcdef0123456g\"
4 BadHex at=0|H\"0123456789abcdef0123456789abcdef012345678\"
4 BadHex at=0|0x123
1 BadByte at=0|$1
4 BadHex at=0|0x1G
1 BadByte at=1|a.
1 BadByte at=1|a..b
4 BadHex at=7|cdhash H\"12\"
4 BadHex at=0|H\"12 and \"x\"
2 OpenString at=0|\"a\\b
1 BadByte at=5|\"a\\\"b\\c\"
1 BadByte at=1|\"\\\\x\"
3 OpenComment at=7|always /* x
1 BadByte at=11|always and /
2 OpenString at=11|identifier \"x
2 OpenString at=0|H\"0123456789abcdef0123456789abcdef01234567
5 IntTooLarge at=11|platform = 4294967296
1 BadByte at=8|info[k]=\x80
1 BadByte at=3|a.b.#
2 OpenString at=4|\"x\"y\"
1 BadByte at=5|/**/*/
2 OpenString at=0|\"\\\"
4 BadHex at=0|0xAbC
4 BadHex at=0|H\"\"";

/// The fault prints so.
pub fn prints(fault: TextFault, want: &[u8]) -> bool {
    let mut line = LineText::new();
    fault.line_into(&mut line);
    line.as_slice() == want
}

/// The text is refused so.
pub fn is_refused_as(alloc: Global, text: &[u8], want: &[u8]) -> bool {
    match parse(alloc, text) {
        Ok(req) => {
            drop(req);
            false
        }
        Err(fault) => prints(fault, want),
    }
}

fn all_refused(alloc: Global) -> bool {
    let mut all = true;
    for row in REFUSED.split(|byte| *byte == b'\n') {
        let (want, text) = parts(row, b'|');
        all = all && is_refused_as(alloc, text, want);
    }
    all
}

#[test]
fn the_first_fault_of_a_text_is_told(rt: HostRuntime) {
    assert!(rt; all_refused(rt.alloc()));
}
