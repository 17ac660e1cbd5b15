//! Texts whose verdicts other readers told.

use super::{has_answer, text_has_answer};
use std::test::Fail;

/// Texts that are no event, each with its verdict. Which texts are JSON told Node: its strict decoder of UTF-8, its
/// `JSON.parse`, and that no text in them has a lone surrogate. A place is the length of the longest beginning from
/// which one of many endings makes such a text.
const REFUSED: &str = r#" => not json at 0
  => not json at 1
{ => not json at 1
} => not json at 0
{} { => not json at 3
{"a":1}x => not json at 7
{,} => not json at 1
{"a":1,} => not json at 7
{"a"} => not json at 4
{"a":} => not json at 5
{"a" 1} => not json at 5
{a:1} => not json at 1
{'a':1} => not json at 1
{"a":1 "b":2} => not json at 7
{"a":1,,"b":2} => not json at 7
{"a":[1,]} => not json at 8
{"a":[,1]} => not json at 6
{"a":[1,,2]} => not json at 8
{"a":[} => not json at 6
{"a":{] => not json at 6
{"a":[1} => not json at 7
{"a":{"b":1] => not json at 11
{"a":-} => not json at 6
{"a":+1} => not json at 5
{"a":01} => not json at 6
{"a":-01} => not json at 7
{"a":00} => not json at 6
{"a":.5} => not json at 5
{"a":1.} => not json at 7
{"a":1.e1} => not json at 7
{"a":1e} => not json at 7
{"a":1e+} => not json at 8
{"a":1E-} => not json at 8
{"a":1e1.5} => not json at 8
{"a":0x10} => not json at 6
{"a":1_0} => not json at 6
{"a":--1} => not json at 6
{"a":NaN} => not json at 5
{"a":Infinity} => not json at 5
{"a":-Infinity} => not json at 6
{"a":1 2} => not json at 7
{"a":- 1} => not json at 6
{"a":nul} => not json at 8
{"a":nulL} => not json at 8
{"a":True} => not json at 5
{"a":truefalse} => not json at 9
{"a":fals => not json at 9
{"a":tru => not json at 8
{"a":"\x"} => not json at 7
{"a":"\u12"} => not json at 10
{"a":"\u12g4"} => not json at 10
{"a":"\U0041"} => not json at 7
{"a":"\ => not json at 7
{"a":"\u => not json at 8
{"a":"\a"} => not json at 7
{"a":"\0"} => not json at 7
{"a":"\'"} => not json at 7
{"a":"x => not json at 7
{"a => not json at 3
{" => not json at 2
{"a":1}// => not json at 7
{"a":/**/1} => not json at 5
[ => not json at 1
] => not json at 0
[1 => not json at 2
" => not json at 1
"a => not json at 2
n => not json at 1
nul => not json at 3
- => not json at 1
1. => not json at 2
{"a":1}} => not json at 7
{"a":1}] => not json at 7
[1] => not an object
1 => not an object
null => not an object
"x" => not an object
true => not an object
-0 => not an object
-12e+3 => not an object
[] => not an object
 [ ]  => not an object
{"a":"\ud800"} => not json at 12
{"a":"\udbff\udbff"} => not json at 15
{"a":"\udc00"} => not json at 9
{"a":"\uDFFF"} => not json at 9
{"a":"\ud800x"} => not json at 12
{"a":"\ud800\n"} => not json at 13
{"a":"\ud800\u0041"} => not json at 14
{"\ud800":1} => not json at 8
{"a":"\ud83d\ude0"} => not json at 17
{"a":"\ud83d => not json at 12"#;

#[test]
fn texts_that_are_refused(rt: HostRuntime) -> Result<(), Fail> {
    let mut count = 0u32;
    for line in REFUSED.lines() {
        let (text, want) = line.split_once(" => ").ok_or("a verdict")?;
        text_has_answer(&rt, rt.alloc(), text, want)?;
        count = count.saturating_add(1);
    }
    assert_eq!(rt; count, 92);
    Ok(())
}

/// Bytes that no text has, with verdicts of the same origin: control characters, and what is no UTF-8.
const BYTES: &[(&[u8], &str)] = &[
    (b"\xEF\xBB\xBF{}", "not json at 0"),
    (b"{\"a\":1}\xC2\xA0", "not json at 7"),
    (b"{\"a\":\"\x09\"}", "not json at 6"),
    (b"{\"a\x09b\":1}", "not json at 3"),
    (b"\x09{\"a\":\x091\x09}\x09x", "not json at 11"),
    (b"{\"a\":\"\x00\"}", "not json at 6"),
    (b"{\"a\":\"\x1F\"}", "not json at 6"),
    (b"{\"a\":\"\x0A\"}", "not json at 6"),
    (b"\x0B{}", "not json at 0"),
    (b"\x0C{}", "not json at 0"),
    (b"{}\x00", "not json at 2"),
    (b"{\"\xC0\xAF\":1}", "not json at 2"),
    (b"{\"\xC1\xBF\":1}", "not json at 2"),
    (b"{\"\xE0\x80\x80\":1}", "not json at 3"),
    (b"{\"\xE0\x9F\xBF\":1}", "not json at 3"),
    (b"{\"\xF0\x80\x80\x80\":1}", "not json at 3"),
    (b"{\"\xF0\x8F\xBF\xBF\":1}", "not json at 3"),
    (b"{\"\xC3\":1}", "not json at 3"),
    (b"{\"\xE2\x82\":1}", "not json at 4"),
    (b"{\"\xF0\x9F\x98\":1}", "not json at 5"),
    (b"{\"\xE2(\xA1\":1}", "not json at 3"),
    (b"{\"\xED\xA0\x80\":1}", "not json at 3"),
    (b"{\"\xED\xBF\xBF\":1}", "not json at 3"),
    (b"{\"\xF4\x90\x80\x80\":1}", "not json at 3"),
    (b"{\"\xF5\x80\x80\x80\":1}", "not json at 2"),
    (b"{\"\xFF\":1}", "not json at 2"),
    (b"{\"\x80\":1}", "not json at 2"),
    (b"{\"\xE2\x82", "not json at 4"),
    (b"{\"\xF0\x9F", "not json at 4"),
    (b"\xC2\xA0{}", "not json at 0"),
    (b"{\"a\":\xE2\x80\xA81}", "not json at 5"),
];

#[test]
fn bytes_that_are_refused(rt: HostRuntime) -> Result<(), Fail> {
    for (bytes, want) in BYTES {
        has_answer(&rt, rt.alloc(), *bytes, *want)?;
    }
    Ok(())
}
