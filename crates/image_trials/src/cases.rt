// Short images, each with a label. An image is written in hexadecimal, with blanks where they help to read it.
pub(crate) type Case = (&'static str, &'static str);

// Cases with a heading, and with the good fields that each of them stands behind.
pub(crate) type Group = (&'static str, &'static str, &'static [Case]);

// Limit 3.
pub(crate) const LIMIT: &str = "010001 03";

// Limit 3 and the names P1 and P2.
const NAMES: &str = "010001 03  020002 5031  020002 5032";

// Limit 3, the names P1, P2 and P3, and the ring of three pairs.
pub(crate) const RING: &str =
    "010001 03  020002 5031  020002 5032  020002 5033  030004 0001 0005  030004 0102 0004  030004 0200 0001";

// The groups, in the order in which they are shown.
pub(crate) const GROUPS: [Group; 15] = [
    ("The image ends before the first name", "", &NO_NAME),
    ("A field is cut short", "", &CUT_SHORT),
    (
        "A field behind the names is cut short",
        NAMES,
        &NOTE_CUT_SHORT,
    ),
    ("The first tag", "", &FIRST_TAG),
    ("A tag behind the limit", LIMIT, &SECOND_TAG),
    ("A tag behind the names", NAMES, &LATER_TAG),
    ("The length of the limit", "", &LIMIT_LENGTH),
    ("The length of a name", LIMIT, &NAME_LENGTH),
    ("The length of a note", NAMES, &NOTE_LENGTH),
    ("The limit", "", &LIMITS),
    ("The bytes of a name", LIMIT, &NAME_BYTES),
    ("A name like another", LIMIT, &SAME_NAMES),
    ("The alarms of a note", NAMES, &ALARMS),
    ("The count of a note", NAMES, &COUNTS),
    ("The sum of two counts", NAMES, &SUMS),
];

const NO_NAME: [Case; 2] = [("no byte", ""), ("a limit alone", "010001 03")];

const CUT_SHORT: [Case; 8] = [
    ("a tag alone", "01"),
    ("a tag and one length byte", "01 00"),
    ("a limit without its byte", "010001"),
    ("a name's tag alone", "010001 03  02"),
    ("a name of two bytes with one", "010001 03  020002 50"),
    ("a name of 258 bytes with two", "010001 03  020102 5031"),
    ("an unknown tag alone", "09"),
    ("an unknown tag without its byte", "090001"),
];

const NOTE_CUT_SHORT: [Case; 5] = [
    ("a note's tag alone", "03"),
    ("a note's tag and one length byte", "03 00"),
    ("a note of four bytes with three", "030004 0001 00"),
    (
        "a second note without its bytes",
        "030004 0001 0005  030004",
    ),
    ("a second limit without its byte", "010001"),
];

const FIRST_TAG: [Case; 6] = [
    ("tag 0 first", "000001 03"),
    ("tag 9 first", "090001 03"),
    ("tag 255 first", "FF0001 03"),
    ("tag 9 without bytes first", "090000"),
    ("a name first", "020002 5031"),
    ("a note first", "030004 0001 0005"),
];

const SECOND_TAG: [Case; 5] = [
    ("tag 0 behind the limit", "000002 5031"),
    ("tag 9 behind the limit", "090002 5031"),
    ("a second limit", "010001 03"),
    ("a second limit of two bytes", "010002 0303"),
    ("a note before a name", "030004 0001 0005"),
];

const LATER_TAG: [Case; 7] = [
    ("tag 4 behind the names", "040004 0001 0005"),
    ("a limit behind the names", "010001 03"),
    ("a limit without bytes behind the names", "010000"),
    ("tag 9 behind a note", "030004 0001 0005  090000"),
    ("a limit behind a note", "030004 0001 0005  010001 03"),
    ("a name behind a note", "030004 0001 0005  020002 5033"),
    (
        "a name without bytes behind a note",
        "030004 0001 0005  020000",
    ),
];

const LIMIT_LENGTH: [Case; 3] = [
    ("a limit of no bytes", "010000"),
    ("a limit of two bytes", "010002 0303"),
    ("a limit of two bytes, both 0", "010002 0000"),
];

const NAME_LENGTH: [Case; 5] = [
    ("a name of no bytes", "020000"),
    ("a name of 1 byte", "020001 50"),
    (
        "a name of 16 bytes",
        "020010 5031503150315031 5031503150315031",
    ),
    (
        "a name of 17 bytes",
        "020011 5031503150315031 503150315031503150",
    ),
    (
        "a name of 17 bytes, one of them 0",
        "020011 5031503150315031 503150315031503100",
    ),
];

const NOTE_LENGTH: [Case; 4] = [
    ("a note of no bytes", "030000"),
    ("a note of three bytes", "030003 0001 00"),
    ("a note of three bytes, both alarms 9", "030003 0909 00"),
    ("a note of five bytes", "030005 0001 000005"),
];

const LIMITS: [Case; 6] = [
    ("limit 0", "010001 00"),
    ("limit 1", "010001 01  020001 50"),
    ("limit 8", "010001 08  020001 50"),
    ("limit 9", "010001 09"),
    ("limit 255", "010001 FF"),
    ("limit 0 and then tag 9", "010001 00  090000"),
];

const NAME_BYTES: [Case; 7] = [
    ("byte 31", "020001 1F"),
    ("byte 32", "020001 20"),
    ("byte 126", "020001 7E"),
    ("byte 127", "020001 7F"),
    ("byte 255", "020001 FF"),
    ("byte 0 behind P", "020002 5000"),
    ("byte 31 and then byte 127", "020001 1F  020001 7F"),
];

const SAME_NAMES: [Case; 6] = [
    ("P1 twice", "020002 5031  020002 5031"),
    ("P1, P2 and P1", "020002 5031  020002 5032  020002 5031"),
    (
        "P1 twice and then byte 31",
        "020002 5031  020002 5031  020001 1F",
    ),
    (
        "P1 twice and then a tag alone",
        "020002 5031  020002 5031  02",
    ),
    ("P, P1 and 1P", "020001 50  020002 5031  020002 3150"),
    ("P1 and p1", "020002 5031  020002 7031"),
];

const ALARMS: [Case; 7] = [
    ("2 before 0", "030004 0200 0005"),
    ("0 before 2", "030004 0002 0005"),
    ("255 before 0", "030004 FF00 0005"),
    ("0 before 0", "030004 0000 0005"),
    ("2 before 2, count 0", "030004 0202 0000"),
    ("1 before 1, count 0", "030004 0101 0000"),
    ("1 before 1, count 32767", "030004 0101 7FFF"),
];

const COUNTS: [Case; 9] = [
    ("count 0", "030004 0001 0000"),
    ("count 1", "030004 0001 0001"),
    ("count 32766", "030004 0001 7FFE"),
    ("count 32767", "030004 0001 7FFF"),
    ("count 32768", "030004 0001 8000"),
    ("count 65535", "030004 0001 FFFF"),
    (
        "count 1 and then count 0",
        "030004 0001 0001  030004 0100 0000",
    ),
    (
        "count 0 and then count 32767",
        "030004 0001 0000  030004 0100 7FFF",
    ),
    ("count 32767 and then a tag alone", "030004 0001 7FFF  03"),
];

const SUMS: [Case; 5] = [
    ("16383 and 16383", "030004 0001 3FFF  030004 0001 3FFF"),
    ("16383 and 16384", "030004 0001 3FFF  030004 0001 4000"),
    ("32766 and 1", "030004 0001 7FFE  030004 0001 0001"),
    ("32766 and 32767", "030004 0001 7FFE  030004 0001 7FFF"),
    (
        "32766 and 32766 the other way round",
        "030004 0001 7FFE  030004 0100 7FFE",
    ),
];
