//! Texts with their answers, worked out by hand from the documents: HTML's rules for parsing integers and for splitting
//! at ASCII white space, Unicode's White_Space, superscripts, and UTF-8.
use text::count::count_characters;
use text::integer::parse_integer;
use text::superscript::superscripts;
use text::utf8::from_utf8;
use text::white_space::is_blank;
use text::words::has_word;

/// A question about a text, and the answer that is expected.
#[derive(Clone, Copy)]
pub enum Question {
    /// The integer that the text gives.
    Integer(&'static [u8], Option<i64>),
    /// Whether the first has the second as a word.
    Word(&'static [u8], &'static [u8], bool),
    /// Whether the bytes are a text, and blank.
    Blank(&'static [u8], Option<bool>),
    /// The superscripts, in a slice of so many bytes.
    Superscripts(&'static [u8], usize, Option<&'static [u8]>),
    /// How many characters the text has.
    Characters(&'static str, usize),
}

pub const QUESTIONS: &[Question] = &[
    Question::Integer(b"+7", Some(7)),
    Question::Integer(b" 7", Some(7)),
    Question::Integer(b"\t\n\x0C\r -12x", Some(-12)),
    Question::Integer(b"7x", Some(7)),
    Question::Integer(b"-0", Some(0)),
    Question::Integer(b"\x0B7", None),
    Question::Integer(b"", None),
    Question::Integer(b"+", None),
    Question::Integer(b"+ 7", None),
    Question::Integer(b"--7", None),
    Question::Integer(b"x7", None),
    Question::Integer(b"007", Some(7)),
    Question::Integer(b"9223372036854775807", Some(i64::MAX)),
    Question::Integer(b"9223372036854775808", None),
    Question::Integer(b"-9223372036854775808", Some(i64::MIN)),
    Question::Integer(b"-9223372036854775809", None),
    Question::Integer(b"99999999999999999999999", None),
    Question::Word(b"note\n  warning\t", b"warning", true),
    Question::Word(b"note\x0Cwarning\rlast", b"last", true),
    Question::Word(b"note warning", b"note", true),
    Question::Word(b"warnings note", b"warning", false),
    Question::Word(b"note\x0Bwarning", b"note", false),
    Question::Word(b"note\xC2\xA0warning", b"note", false),
    Question::Word(b" ", b"", false),
    Question::Word(b"", b"", false),
    Question::Blank(b"", Some(true)),
    Question::Blank(b"\t\xC2\xA0\xE2\x80\x89\xE3\x80\x80", Some(true)),
    Question::Blank(b"\xC2\x85\xE1\x9A\x80\xE2\x80\xA8\xE2\x81\x9F", Some(true)),
    Question::Blank(b"\xE2\x80\x8B", Some(false)),
    Question::Blank(b" a", Some(false)),
    Question::Blank(b"\xC0\x80", None),
    Question::Blank(b"\xED\xA0\x80", None),
    Question::Superscripts(b"12", 4, Some(b"\xC2\xB9\xC2\xB2")),
    Question::Superscripts(
        b"0345",
        12,
        Some(b"\xE2\x81\xB0\xC2\xB3\xE2\x81\xB4\xE2\x81\xB5"),
    ),
    Question::Superscripts(
        b"6789",
        12,
        Some(b"\xE2\x81\xB6\xE2\x81\xB7\xE2\x81\xB8\xE2\x81\xB9"),
    ),
    Question::Superscripts(b"12", 3, None),
    Question::Superscripts(b"", 0, Some(b"")),
    Question::Superscripts(b"1a", 9, None),
    Question::Characters("a\u{E9}\u{2070}\u{1F600}", 4),
    Question::Characters("", 0),
];

const ROOM: usize = 16;

fn written(digits: &[u8], room: usize, expected: Option<&[u8]>) -> bool {
    let mut space = [0xFFu8; ROOM];
    if room > ROOM {
        return false;
    }
    match superscripts(digits, &mut space[..room]) {
        Ok(len) => space.get(..len) == expected,
        Err(_) => expected.is_none() && space[0] == 0xFF,
    }
}

impl Question {
    /// Whether the answer is the expected one.
    pub(crate) fn is_right(self) -> bool {
        match self {
            Question::Integer(text, expected) => parse_integer(text) == expected,
            Question::Word(text, word, expected) => has_word(text, word) == expected,
            Question::Blank(bytes, expected) => from_utf8(bytes).map(is_blank) == expected,
            Question::Superscripts(digits, room, expected) => written(digits, room, expected),
            Question::Characters(text, expected) => count_characters(text) == expected,
        }
    }
}
