//! The cases, with their answers worked out by hand.
//! A Document has 8 bytes, an element `p` or an attribute `a` 10, and a record without payload 8.
use crate::case::Piece::{Comments, Nest, Raw, Record, Text};
use crate::case::{Case, Piece, Refused};

const DOC: Piece = Record(1, 0, b"");

const P1: Piece = Record(2, 1, b"\x01p");

const P2: Piece = Record(2, 2, b"\x01p");

const P3: Piece = Record(2, 3, b"\x01p");

const A1: Piece = Record(7, 1, b"\x01a");

const A2: Piece = Record(7, 2, b"\x01a");

const A3: Piece = Record(7, 3, b"\x01a");

const TEXT1: Piece = Record(3, 1, b"");

const TEXT2: Piece = Record(3, 2, b"");

const TEXT3: Piece = Record(3, 3, b"");

const COMMENT1: Piece = Record(4, 1, b"");

/// How much a page may have.
const LIMITS: &[Case] = &[
    Case("no-bytes", &[], Err(Refused(2, 0))),
    Case("65536-bytes", &[DOC, Text(65520)], Ok(2)),
    Case("65537-bytes", &[DOC, Text(65521)], Err(Refused(1, 0))),
    Case(
        "65537-bytes-cut",
        &[Raw(b"\0"), Text(65528)],
        Err(Refused(1, 0)),
    ),
    Case(
        "65536-bytes-cut",
        &[Raw(b"\0"), Text(65527)],
        Err(Refused(2, 0)),
    ),
    Case("4096-records", &[DOC, Comments(4095)], Ok(4096)),
    Case(
        "4097-records",
        &[DOC, Comments(4096)],
        Err(Refused(7, 32768)),
    ),
    Case("depth-255", &[DOC, Nest(255)], Ok(256)),
    Case("depth-256", &[DOC, Nest(256)], Err(Refused(4, 2558))),
    Case(
        "text-at-255",
        &[DOC, Nest(254), Record(3, 255, b"")],
        Ok(256),
    ),
    Case(
        "text-at-256",
        &[DOC, Nest(255), Record(3, 256, b"")],
        Err(Refused(4, 2558)),
    ),
    Case(
        "attribute-at-255",
        &[DOC, Nest(254), Record(7, 255, b"\x01a")],
        Ok(256),
    ),
    Case(
        "attribute-at-256",
        &[DOC, Nest(255), Record(7, 256, b"\x01a")],
        Err(Refused(4, 2558)),
    ),
    Case(
        "attribute-beside-255",
        &[DOC, Nest(255), Record(7, 255, b"\x01a")],
        Err(Refused(4, 2558)),
    ),
];

/// The length field.
const LENGTHS: &[Case] = &[
    Case("document-alone", &[DOC], Ok(1)),
    Case(
        "length-0",
        &[Raw(&[0, 0, 0, 0, 1, 0, 0, 0])],
        Err(Refused(2, 0)),
    ),
    Case(
        "length-3-first",
        &[Raw(&[3, 0, 0, 0, 1, 0, 0])],
        Err(Refused(2, 0)),
    ),
    Case(
        "length-3",
        &[DOC, Raw(&[3, 0, 0, 0, 4, 0, 1])],
        Err(Refused(2, 8)),
    ),
    Case("length-4", &[DOC, Raw(&[4, 0, 0, 0, 4, 0, 1, 0])], Ok(2)),
    Case(
        "length-past-end",
        &[DOC, Raw(&[5, 0, 0, 0, 4, 0, 1, 0])],
        Err(Refused(2, 8)),
    ),
    Case(
        "length-to-end",
        &[DOC, Raw(&[5, 0, 0, 0, 4, 0, 1, 0, 97])],
        Ok(2),
    ),
    Case(
        "length-before-end",
        &[DOC, Raw(&[4, 0, 0, 0, 4, 0, 1, 0, 97])],
        Err(Refused(2, 16)),
    ),
    Case(
        "length-greatest",
        &[DOC, Raw(&[255, 255, 255, 255, 4, 0, 1, 0])],
        Err(Refused(2, 8)),
    ),
    Case(
        "length-second-byte",
        &[DOC, Raw(&[4, 1, 0, 0, 4, 0, 1, 0])],
        Err(Refused(2, 8)),
    ),
    Case(
        "length-third-byte",
        &[DOC, Raw(&[4, 0, 1, 0, 4, 0, 1, 0])],
        Err(Refused(2, 8)),
    ),
    Case(
        "length-fourth-byte",
        &[DOC, Raw(&[4, 0, 0, 1, 4, 0, 1, 0])],
        Err(Refused(2, 8)),
    ),
    Case("1-byte-first", &[Raw(&[4])], Err(Refused(2, 0))),
    Case("1-byte-left", &[DOC, Raw(&[0])], Err(Refused(2, 8))),
    Case("2-bytes-left", &[DOC, Raw(&[0, 0])], Err(Refused(2, 8))),
    Case("3-bytes-left", &[DOC, Raw(&[0, 0, 0])], Err(Refused(2, 8))),
    Case(
        "4-bytes-left",
        &[DOC, Raw(&[4, 0, 0, 0])],
        Err(Refused(2, 8)),
    ),
    Case(
        "7-bytes-left",
        &[DOC, Raw(&[4, 0, 0, 0, 4, 0, 1])],
        Err(Refused(2, 8)),
    ),
];

/// The kind.
const KINDS: &[Case] = &[
    Case("kind-0", &[DOC, Record(0, 1, b"")], Err(Refused(3, 8))),
    Case(
        "second-document",
        &[DOC, Record(1, 0, b"")],
        Err(Refused(3, 8)),
    ),
    Case(
        "kinds-2-to-6",
        &[
            DOC,
            P1,
            TEXT1,
            COMMENT1,
            Record(5, 1, b""),
            Record(6, 1, b""),
        ],
        Ok(6),
    ),
    Case("kind-7", &[DOC, P1, A2], Ok(3)),
    Case("kind-8", &[DOC, Record(8, 1, b"")], Err(Refused(3, 8))),
    Case("kind-256", &[DOC, Record(256, 1, b"")], Err(Refused(3, 8))),
    Case("kind-259", &[DOC, Record(259, 1, b"")], Err(Refused(3, 8))),
    Case(
        "kind-65535",
        &[DOC, Record(65535, 1, b"")],
        Err(Refused(3, 8)),
    ),
    Case("kind-0-first", &[Record(0, 0, b"")], Err(Refused(3, 0))),
    Case("kind-257-first", &[Record(257, 0, b"")], Err(Refused(3, 0))),
    Case(
        "element-first",
        &[Record(2, 0, b"\x01p")],
        Err(Refused(3, 0)),
    ),
    Case("text-first", &[TEXT1], Err(Refused(3, 0))),
    Case("attribute-first", &[A1], Err(Refused(3, 0))),
];

/// The depth of a node.
const DEPTHS: &[Case] = &[
    Case("document-at-1", &[Record(1, 1, b"")], Err(Refused(4, 0))),
    Case(
        "document-at-256",
        &[Record(1, 256, b"")],
        Err(Refused(4, 0)),
    ),
    Case(
        "element-at-0",
        &[DOC, Record(2, 0, b"\x01p")],
        Err(Refused(4, 8)),
    ),
    Case(
        "text-at-0",
        &[DOC, P1, Record(3, 0, b"")],
        Err(Refused(4, 18)),
    ),
    Case("one-deeper", &[DOC, P1, TEXT2], Ok(3)),
    Case("two-deeper-than-document", &[DOC, P2], Err(Refused(4, 8))),
    Case(
        "two-deeper-than-element",
        &[DOC, P1, TEXT3],
        Err(Refused(4, 18)),
    ),
    Case("depth-257", &[DOC, Record(3, 257, b"")], Err(Refused(4, 8))),
    Case("beside-text", &[DOC, TEXT1, TEXT1], Ok(3)),
    Case("under-text", &[DOC, TEXT1, TEXT2], Err(Refused(4, 16))),
    Case(
        "under-comment",
        &[DOC, COMMENT1, TEXT2],
        Err(Refused(4, 16)),
    ),
    Case(
        "under-doctype",
        &[DOC, Record(5, 1, b""), TEXT2],
        Err(Refused(4, 16)),
    ),
    Case(
        "under-instruction",
        &[DOC, Record(6, 1, b""), TEXT2],
        Err(Refused(4, 16)),
    ),
    Case("back-up", &[DOC, P1, P2, P3, TEXT1], Ok(5)),
    Case("back-up-and-down", &[DOC, P1, P2, P3, P1, P2], Ok(6)),
    Case(
        "back-up-and-two-down",
        &[DOC, P1, P2, P3, P1, P3],
        Err(Refused(4, 48)),
    ),
    Case(
        "back-up-and-under-text",
        &[DOC, P1, P2, P3, TEXT1, TEXT2],
        Err(Refused(4, 46)),
    ),
];

/// Where an attribute may stand.
const ATTRIBUTES: &[Case] = &[
    Case("attribute-of-document", &[DOC, A1], Err(Refused(4, 8))),
    Case("attribute-of-text", &[DOC, TEXT1, A2], Err(Refused(4, 16))),
    Case(
        "attribute-of-comment",
        &[DOC, COMMENT1, A2],
        Err(Refused(4, 16)),
    ),
    Case(
        "attribute-after-text",
        &[DOC, P1, TEXT2, A2],
        Err(Refused(4, 26)),
    ),
    Case(
        "attribute-after-child",
        &[DOC, P1, P2, A2],
        Err(Refused(4, 28)),
    ),
    Case("attribute-of-child", &[DOC, P1, P2, A3], Ok(4)),
    Case("attribute-after-attribute", &[DOC, P1, A2, A2], Ok(4)),
    Case(
        "attribute-at-0",
        &[DOC, P1, Record(7, 0, b"\x01a")],
        Err(Refused(4, 18)),
    ),
    Case("attribute-beside", &[DOC, P1, A1], Err(Refused(4, 18))),
    Case("attribute-two-deeper", &[DOC, P1, A3], Err(Refused(4, 18))),
    Case(
        "attribute-of-attribute",
        &[DOC, P1, A2, A3],
        Err(Refused(4, 28)),
    ),
    Case("child-after-attributes", &[DOC, P1, A2, A2, P2], Ok(5)),
    Case("text-after-attribute", &[DOC, P1, A2, TEXT2], Ok(4)),
    Case("beside-after-attribute", &[DOC, P1, A2, P1], Ok(4)),
    Case("under-attribute", &[DOC, P1, A2, P3], Err(Refused(4, 28))),
    Case(
        "attribute-after-attribute-and-text",
        &[DOC, P1, A2, TEXT2, A2],
        Err(Refused(4, 36)),
    ),
];

/// Namespaces, names and values.
const NAMES: &[Case] = &[
    Case(
        "element-no-payload",
        &[DOC, Record(2, 1, b"")],
        Err(Refused(5, 8)),
    ),
    Case(
        "element-no-name",
        &[DOC, Record(2, 1, b"\x01")],
        Err(Refused(5, 8)),
    ),
    Case(
        "namespaces-0-to-2",
        &[DOC, Record(2, 1, b"\x00p"), P1, Record(2, 1, b"\x02p")],
        Ok(4),
    ),
    Case(
        "namespace-3",
        &[DOC, Record(2, 1, b"\x03p")],
        Err(Refused(5, 8)),
    ),
    Case(
        "namespace-255",
        &[DOC, Record(2, 1, b"\xffp")],
        Err(Refused(5, 8)),
    ),
    Case(
        "element-name-two-bytes",
        &[DOC, Record(2, 1, b"\x01\xc3\xa9")],
        Ok(2),
    ),
    Case(
        "element-name-not-utf8",
        &[DOC, Record(2, 1, b"\x01\xff")],
        Err(Refused(5, 8)),
    ),
    Case(
        "element-name-cut",
        &[DOC, Record(2, 1, b"\x01p\xc3")],
        Err(Refused(5, 8)),
    ),
    Case(
        "attribute-no-payload",
        &[DOC, P1, Record(7, 2, b"")],
        Err(Refused(5, 18)),
    ),
    Case(
        "attribute-no-name",
        &[DOC, P1, Record(7, 2, b"\0")],
        Err(Refused(5, 18)),
    ),
    Case(
        "attribute-name-length-0",
        &[DOC, P1, Record(7, 2, b"\0a")],
        Err(Refused(5, 18)),
    ),
    Case(
        "attribute-name-too-long",
        &[DOC, P1, Record(7, 2, b"\x02a")],
        Err(Refused(5, 18)),
    ),
    Case(
        "attribute-name-to-end",
        &[DOC, P1, Record(7, 2, b"\x02ab")],
        Ok(3),
    ),
    Case(
        "attribute-name-97-bytes",
        &[DOC, P1, Record(7, 2, &[97; 98])],
        Ok(3),
    ),
    Case(
        "attribute-name-96-of-97",
        &[DOC, P1, Record(7, 2, &[97; 97])],
        Err(Refused(5, 18)),
    ),
    Case(
        "attribute-name-not-utf8",
        &[DOC, P1, Record(7, 2, b"\x01\xff")],
        Err(Refused(5, 18)),
    ),
    Case(
        "attribute-name-cut",
        &[DOC, P1, Record(7, 2, b"\x01\xc3\xa9")],
        Err(Refused(5, 18)),
    ),
    Case("attribute-value-empty", &[DOC, P1, A2], Ok(3)),
    Case(
        "attribute-value",
        &[DOC, P1, Record(7, 2, b"\x01a\xc3\xa9")],
        Ok(3),
    ),
    Case(
        "attribute-value-not-utf8",
        &[DOC, P1, Record(7, 2, b"\x01a\xff")],
        Err(Refused(6, 18)),
    ),
    Case(
        "attribute-value-cut",
        &[DOC, P1, Record(7, 2, b"\x01ab\xc3")],
        Err(Refused(6, 18)),
    ),
];

/// The edges of UTF-8, and payloads that are not read.
const TEXTS: &[Case] = &[
    Case("text-empty", &[DOC, TEXT1], Ok(2)),
    Case("text-00", &[DOC, Record(3, 1, b"\0")], Ok(2)),
    Case("text-7f", &[DOC, Record(3, 1, b"\x7f")], Ok(2)),
    Case("text-80", &[DOC, Record(3, 1, b"\x80")], Err(Refused(6, 8))),
    Case(
        "text-61-bf",
        &[DOC, Record(3, 1, b"a\xbf")],
        Err(Refused(6, 8)),
    ),
    Case(
        "text-c0-80",
        &[DOC, Record(3, 1, b"\xc0\x80")],
        Err(Refused(6, 8)),
    ),
    Case(
        "text-c1-bf",
        &[DOC, Record(3, 1, b"\xc1\xbf")],
        Err(Refused(6, 8)),
    ),
    Case("text-c2-80", &[DOC, Record(3, 1, b"\xc2\x80")], Ok(2)),
    Case(
        "text-c2-7f",
        &[DOC, Record(3, 1, b"\xc2\x7f")],
        Err(Refused(6, 8)),
    ),
    Case(
        "text-c2-c0",
        &[DOC, Record(3, 1, b"\xc2\xc0")],
        Err(Refused(6, 8)),
    ),
    Case("text-c3", &[DOC, Record(3, 1, b"\xc3")], Err(Refused(6, 8))),
    Case("text-df-bf", &[DOC, Record(3, 1, b"\xdf\xbf")], Ok(2)),
    Case(
        "text-e0-9f-bf",
        &[DOC, Record(3, 1, b"\xe0\x9f\xbf")],
        Err(Refused(6, 8)),
    ),
    Case(
        "text-e0-a0-80",
        &[DOC, Record(3, 1, b"\xe0\xa0\x80")],
        Ok(2),
    ),
    Case(
        "text-e2-82",
        &[DOC, Record(3, 1, b"\xe2\x82")],
        Err(Refused(6, 8)),
    ),
    Case(
        "text-ed-9f-bf",
        &[DOC, Record(3, 1, b"\xed\x9f\xbf")],
        Ok(2),
    ),
    Case(
        "text-ed-a0-80",
        &[DOC, Record(3, 1, b"\xed\xa0\x80")],
        Err(Refused(6, 8)),
    ),
    Case(
        "text-ed-bf-bf",
        &[DOC, Record(3, 1, b"\xed\xbf\xbf")],
        Err(Refused(6, 8)),
    ),
    Case(
        "text-ee-80-80",
        &[DOC, Record(3, 1, b"\xee\x80\x80")],
        Ok(2),
    ),
    Case(
        "text-ef-bf-bf",
        &[DOC, Record(3, 1, b"\xef\xbf\xbf")],
        Ok(2),
    ),
    Case(
        "text-f0-8f-bf-bf",
        &[DOC, Record(3, 1, b"\xf0\x8f\xbf\xbf")],
        Err(Refused(6, 8)),
    ),
    Case(
        "text-f0-90-80-80",
        &[DOC, Record(3, 1, b"\xf0\x90\x80\x80")],
        Ok(2),
    ),
    Case(
        "text-f0-9f-98",
        &[DOC, Record(3, 1, b"\xf0\x9f\x98")],
        Err(Refused(6, 8)),
    ),
    Case(
        "text-f4-8f-bf-bf",
        &[DOC, Record(3, 1, b"\xf4\x8f\xbf\xbf")],
        Ok(2),
    ),
    Case(
        "text-f4-90-80-80",
        &[DOC, Record(3, 1, b"\xf4\x90\x80\x80")],
        Err(Refused(6, 8)),
    ),
    Case(
        "text-f5-80-80-80",
        &[DOC, Record(3, 1, b"\xf5\x80\x80\x80")],
        Err(Refused(6, 8)),
    ),
    Case(
        "text-after-text-not-utf8",
        &[DOC, TEXT1, Record(3, 1, b"\xff")],
        Err(Refused(6, 16)),
    ),
    Case(
        "text-cut-between-records",
        &[DOC, Record(3, 1, b"\xc3"), Record(3, 1, b"\xa9")],
        Err(Refused(6, 8)),
    ),
    Case("document-not-utf8", &[Record(1, 0, b"\xff")], Ok(1)),
    Case("comment-not-utf8", &[DOC, Record(4, 1, b"\xff")], Ok(2)),
    Case("doctype-not-utf8", &[DOC, Record(5, 1, b"\xff")], Ok(2)),
    Case("instruction-not-utf8", &[DOC, Record(6, 1, b"\xff")], Ok(2)),
];

/// Which of two refusals comes first.
const TURNS: &[Case] = &[
    Case(
        "cut-before-kind",
        &[DOC, Raw(&[5, 0, 0, 0, 8, 0, 1, 0])],
        Err(Refused(2, 8)),
    ),
    Case(
        "kind-before-depth",
        &[DOC, Record(8, 9, b"")],
        Err(Refused(3, 8)),
    ),
    Case(
        "second-document-at-1",
        &[DOC, Record(1, 1, b"")],
        Err(Refused(3, 8)),
    ),
    Case(
        "depth-before-name",
        &[DOC, Record(2, 2, b"")],
        Err(Refused(4, 8)),
    ),
    Case(
        "depth-before-text",
        &[DOC, Record(3, 2, b"\xff")],
        Err(Refused(4, 8)),
    ),
    Case(
        "depth-before-attribute-name",
        &[DOC, Record(7, 1, b"")],
        Err(Refused(4, 8)),
    ),
    Case(
        "name-before-value",
        &[DOC, P1, Record(7, 2, b"\x01\xff\xff")],
        Err(Refused(5, 18)),
    ),
    Case(
        "many-before-cut",
        &[DOC, Comments(4095), Raw(&[255])],
        Err(Refused(7, 32768)),
    ),
    Case(
        "many-before-kind",
        &[DOC, Comments(4095), Record(8, 1, b"")],
        Err(Refused(7, 32768)),
    ),
    Case(
        "cut-as-record-4096",
        &[DOC, Comments(4094), Raw(&[255])],
        Err(Refused(2, 32760)),
    ),
    Case(
        "first-record-first",
        &[DOC, Record(2, 1, b""), Record(8, 1, b"")],
        Err(Refused(5, 8)),
    ),
];

/// The tables, in the order in which they are tried.
pub(crate) fn tables() -> [&'static [Case]; 8] {
    [
        LIMITS, LENGTHS, KINDS, DEPTHS, ATTRIBUTES, NAMES, TEXTS, TURNS,
    ]
}
