//! Bytes that come one at a time to a judge of objects.

use vx_json::Probe;

/// Whether the bytes are an object, by one after the other.
fn is_object(bytes: &[u8]) -> bool {
    let mut probe = Probe::new();
    for byte in bytes {
        probe.take(*byte);
    }
    probe.is_object()
}

/// Texts, and whether each is an object of at most 32 levels.
const OBJECTS: &[(&str, bool)] = &[
    (
        " {\"a\":[1,-2.5e3,{\"\\u00e9\":null}],\"b\":\"\\\"\"}\r\n",
        true,
    ),
    ("{}", true),
    ("", false),
    ("[{}]", false),
    ("{\"a\":1", false),
    ("{\"a\":1}}", false),
    ("{\"a\":[1}", false),
    (
        "{\"a\":[[[[[[[[[[[[[[[[[[[[[[[[[[[[[[[]]]]]]]]]]]]]]]]]]]]]]]]]]]]]]]}",
        true,
    ),
    (
        "{\"a\":[[[[[[[[[[[[[[[[[[[[[[[[[[[[[[[[]]]]]]]]]]]]]]]]]]]]]]]]]]]]]]]]}",
        false,
    ),
];

#[test]
fn objects_byte_by_byte(rt: HostRuntime) {
    for (text, want) in OBJECTS {
        assert_eq!(rt; is_object(text.as_bytes()), *want);
    }
}
