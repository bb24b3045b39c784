//! The letters of languages, from the collations of Unicode's CLDR 42 (as ICU 72 has them).
use crate::letters::OwnLetter;

/// The languages that sort some letters in their own way, by what their tags begin with.
pub const LANGUAGES: &[(&str, &[OwnLetter])] = &[
    ("az", AZERBAIJANI),
    ("bs", CROATIAN),
    ("cs", CZECH),
    ("da", DANISH),
    ("es", SPANISH),
    ("et", ESTONIAN),
    ("fi", FINNISH),
    ("hr", CROATIAN),
    ("hu", HUNGARIAN),
    ("is", ICELANDIC),
    ("lt", LITHUANIAN),
    ("lv", LATVIAN),
    ("nb", NORWEGIAN),
    ("nn", NORWEGIAN),
    ("no", NORWEGIAN),
    ("pl", POLISH),
    ("ro", ROMANIAN),
    ("sk", SLOVAK),
    ("sl", SLOVENE),
    ("sv", SWEDISH),
    ("tr", TURKISH),
];

/// Letters that follow another one in all languages, as in Unicode's root collation.
pub const LETTERS_OF_ALL: &[OwnLetter] = &[
    OwnLetter("ə", "e\u{e001}"),
    OwnLetter("ŋ", "n\u{e001}"),
    OwnLetter("ґ", "г\u{321}"),
    OwnLetter("ђ", "д\u{e001}"),
    OwnLetter("є", "е\u{e001}"),
    OwnLetter("і", "и\u{e001}a"),
    OwnLetter("ї", "и\u{e001}a\u{308}"),
    OwnLetter("й", "и\u{e001}b"),
    OwnLetter("ј", "и\u{e001}c"),
    OwnLetter("қ", "к\u{e001}"),
    OwnLetter("љ", "л\u{e001}"),
    OwnLetter("њ", "н\u{e001}"),
    OwnLetter("ћ", "т\u{e001}"),
    OwnLetter("џ", "ч\u{e001}"),
    OwnLetter("پ", "ب\u{e001}"),
    OwnLetter("چ", "ج\u{e001}"),
    OwnLetter("ژ", "ز\u{e001}"),
    OwnLetter("ک", "ك\u{e001}a"),
    OwnLetter("گ", "ك\u{e001}b"),
    OwnLetter("ی", "ي\u{e001}"),
];

const AZERBAIJANI: &[OwnLetter] = &[
    OwnLetter("ç", "c\u{e000}a"),
    OwnLetter("ə", "e\u{e000}a"),
    OwnLetter("ğ", "g\u{e000}a"),
    OwnLetter("x", "h\u{e000}a"),
    OwnLetter("ı", "h\u{e000}b"),
    OwnLetter("q", "k\u{e000}a"),
    OwnLetter("ö", "o\u{e000}a"),
    OwnLetter("ş", "s\u{e000}a"),
    OwnLetter("ü", "u\u{e000}a"),
    OwnLetter("w", "z\u{e000}a"),
];

const CROATIAN: &[OwnLetter] = &[
    OwnLetter("č", "c\u{e000}a"),
    OwnLetter("ć", "c\u{e000}b"),
    OwnLetter("dž", "d\u{e000}a"),
    OwnLetter("ǆ", "d\u{e000}a"),
    OwnLetter("đ", "d\u{e000}b"),
    OwnLetter("lj", "l\u{e000}a"),
    OwnLetter("ǉ", "l\u{e000}a"),
    OwnLetter("nj", "n\u{e000}a"),
    OwnLetter("ǌ", "n\u{e000}a"),
    OwnLetter("š", "s\u{e000}a"),
    OwnLetter("ž", "z\u{e000}a"),
];

const CZECH: &[OwnLetter] = &[
    OwnLetter("č", "c\u{e000}a"),
    OwnLetter("ch", "h\u{e000}a"),
    OwnLetter("ř", "r\u{e000}a"),
    OwnLetter("š", "s\u{e000}a"),
    OwnLetter("ž", "z\u{e000}a"),
];

const DANISH: &[OwnLetter] = &[
    OwnLetter("ü", "y\u{81}"),
    OwnLetter("ű", "y\u{82}"),
    OwnLetter("æ", "z\u{e000}a"),
    OwnLetter("ä", "z\u{e000}a\u{81}"),
    OwnLetter("ø", "z\u{e000}b"),
    OwnLetter("ö", "z\u{e000}b\u{81}"),
    OwnLetter("ő", "z\u{e000}b\u{82}"),
    OwnLetter("å", "z\u{e000}c"),
    OwnLetter("aa", "z\u{e000}c"),
    OwnLetter("ǽ", "z\u{e000}a\u{301}"),
    OwnLetter("ǿ", "z\u{e000}b\u{301}"),
    OwnLetter("ǻ", "z\u{e000}c\u{301}"),
];

const ESTONIAN: &[OwnLetter] = &[
    OwnLetter("š", "s\u{e000}a"),
    OwnLetter("z", "s\u{e000}b"),
    OwnLetter("ž", "s\u{e000}c"),
    OwnLetter("õ", "w\u{e000}a"),
    OwnLetter("ä", "w\u{e000}b"),
    OwnLetter("ö", "w\u{e000}c"),
    OwnLetter("ü", "w\u{e000}d"),
];

const FINNISH: &[OwnLetter] = &[
    OwnLetter("ǥ", "g\u{81}"),
    OwnLetter("ŋ", "n\u{81}"),
    OwnLetter("ü", "y\u{81}"),
    OwnLetter("ʒ", "z\u{81}"),
    OwnLetter("å", "z\u{e000}a"),
    OwnLetter("ä", "z\u{e000}b"),
    OwnLetter("æ", "z\u{e000}b\u{81}"),
    OwnLetter("ö", "z\u{e000}c"),
    OwnLetter("ø", "z\u{e000}c\u{81}"),
];

const HUNGARIAN: &[OwnLetter] = &[
    OwnLetter("cs", "c\u{e000}a"),
    OwnLetter("ccs", "c\u{e000}ac\u{e000}a"),
    OwnLetter("dz", "d\u{e000}a"),
    OwnLetter("ddz", "d\u{e000}ad\u{e000}a"),
    OwnLetter("dzs", "d\u{e000}b"),
    OwnLetter("ddzs", "d\u{e000}bd\u{e000}b"),
    OwnLetter("gy", "g\u{e000}a"),
    OwnLetter("ggy", "g\u{e000}ag\u{e000}a"),
    OwnLetter("ly", "l\u{e000}a"),
    OwnLetter("lly", "l\u{e000}al\u{e000}a"),
    OwnLetter("ny", "n\u{e000}a"),
    OwnLetter("nny", "n\u{e000}an\u{e000}a"),
    OwnLetter("ö", "o\u{e000}a"),
    OwnLetter("ő", "o\u{e000}a\u{81}"),
    OwnLetter("sz", "s\u{e000}a"),
    OwnLetter("ssz", "s\u{e000}as\u{e000}a"),
    OwnLetter("ty", "t\u{e000}a"),
    OwnLetter("tty", "t\u{e000}at\u{e000}a"),
    OwnLetter("ü", "u\u{e000}a"),
    OwnLetter("ű", "u\u{e000}a\u{81}"),
    OwnLetter("zs", "z\u{e000}a"),
    OwnLetter("zzs", "z\u{e000}az\u{e000}a"),
];

const ICELANDIC: &[OwnLetter] = &[
    OwnLetter("á", "a\u{e000}a"),
    OwnLetter("ð", "d\u{e000}a"),
    OwnLetter("é", "e\u{e000}a"),
    OwnLetter("í", "i\u{e000}a"),
    OwnLetter("ó", "o\u{e000}a"),
    OwnLetter("ú", "u\u{e000}a"),
    OwnLetter("ý", "y\u{e000}a"),
    OwnLetter("þ", "z\u{e000}a"),
    OwnLetter("æ", "z\u{e000}b"),
    OwnLetter("ä", "z\u{e000}b\u{81}"),
    OwnLetter("ö", "z\u{e000}c"),
    OwnLetter("ø", "z\u{e000}c\u{81}"),
    OwnLetter("å", "z\u{e000}d"),
];

const LATVIAN: &[OwnLetter] = &[
    OwnLetter("č", "c\u{e000}a"),
    OwnLetter("ģ", "g\u{e000}a"),
    OwnLetter("y", "i\u{81}"),
    OwnLetter("ķ", "k\u{e000}a"),
    OwnLetter("ļ", "l\u{e000}a"),
    OwnLetter("ņ", "n\u{e000}a"),
    OwnLetter("ŗ", "r\u{e000}a"),
    OwnLetter("š", "s\u{e000}a"),
    OwnLetter("ž", "z\u{e000}a"),
];

const LITHUANIAN: &[OwnLetter] = &[
    OwnLetter("ą", "a\u{81}"),
    OwnLetter("č", "c\u{e000}a"),
    OwnLetter("ę", "e\u{81}"),
    OwnLetter("ė", "e\u{82}"),
    OwnLetter("į", "i\u{81}"),
    OwnLetter("y", "i\u{82}"),
    OwnLetter("š", "s\u{e000}a"),
    OwnLetter("ų", "u\u{81}"),
    OwnLetter("ū", "u\u{82}"),
    OwnLetter("ž", "z\u{e000}a"),
];

const NORWEGIAN: &[OwnLetter] = &[
    OwnLetter("ü", "y\u{81}"),
    OwnLetter("ű", "y\u{82}"),
    OwnLetter("æ", "z\u{e000}a"),
    OwnLetter("ä", "z\u{e000}a\u{81}"),
    OwnLetter("ę", "z\u{e000}a\u{82}"),
    OwnLetter("ø", "z\u{e000}b"),
    OwnLetter("ö", "z\u{e000}b\u{81}"),
    OwnLetter("ő", "z\u{e000}b\u{82}"),
    OwnLetter("œ", "z\u{e000}b\u{83}"),
    OwnLetter("å", "z\u{e000}c"),
    OwnLetter("aa", "z\u{e000}c\u{81}"),
    OwnLetter("ǽ", "z\u{e000}a\u{301}"),
    OwnLetter("ǿ", "z\u{e000}b\u{301}"),
    OwnLetter("ǻ", "z\u{e000}c\u{301}"),
];

const POLISH: &[OwnLetter] = &[
    OwnLetter("ą", "a\u{e000}a"),
    OwnLetter("ć", "c\u{e000}a"),
    OwnLetter("ę", "e\u{e000}a"),
    OwnLetter("ł", "l\u{e000}a"),
    OwnLetter("ń", "n\u{e000}a"),
    OwnLetter("ó", "o\u{e000}a"),
    OwnLetter("ś", "s\u{e000}a"),
    OwnLetter("ź", "z\u{e000}a"),
    OwnLetter("ż", "z\u{e000}b"),
];

const ROMANIAN: &[OwnLetter] = &[
    OwnLetter("ă", "a\u{e000}a"),
    OwnLetter("â", "a\u{e000}b"),
    OwnLetter("î", "i\u{e000}a"),
    OwnLetter("ș", "s\u{e000}a"),
    OwnLetter("ş", "s\u{e000}a"),
    OwnLetter("ț", "t\u{e000}a"),
    OwnLetter("ţ", "t\u{e000}a"),
];

const SLOVAK: &[OwnLetter] = &[
    OwnLetter("ä", "a\u{e000}a"),
    OwnLetter("č", "c\u{e000}a"),
    OwnLetter("ch", "h\u{e000}a"),
    OwnLetter("ô", "o\u{e000}a"),
    OwnLetter("ř", "r\u{e000}a"),
    OwnLetter("š", "s\u{e000}a"),
    OwnLetter("ž", "z\u{e000}a"),
];

const SLOVENE: &[OwnLetter] = &[
    OwnLetter("č", "c\u{e000}a"),
    OwnLetter("ć", "c\u{e000}b"),
    OwnLetter("đ", "d\u{e000}a"),
    OwnLetter("š", "s\u{e000}a"),
    OwnLetter("ž", "z\u{e000}a"),
];

const SPANISH: &[OwnLetter] = &[OwnLetter("ñ", "n\u{e000}a")];

const SWEDISH: &[OwnLetter] = &[
    OwnLetter("ü", "y\u{81}"),
    OwnLetter("ű", "y\u{82}"),
    OwnLetter("å", "z\u{e000}a"),
    OwnLetter("ä", "z\u{e000}b"),
    OwnLetter("æ", "z\u{e000}b\u{81}"),
    OwnLetter("ę", "z\u{e000}b\u{82}"),
    OwnLetter("ö", "z\u{e000}c"),
    OwnLetter("ø", "z\u{e000}c\u{81}"),
    OwnLetter("ő", "z\u{e000}c\u{82}"),
    OwnLetter("œ", "z\u{e000}c\u{83}"),
    OwnLetter("ô", "z\u{e000}c\u{84}"),
];

const TURKISH: &[OwnLetter] = &[
    OwnLetter("ç", "c\u{e000}a"),
    OwnLetter("ğ", "g\u{e000}a"),
    OwnLetter("ı", "h\u{e000}a"),
    OwnLetter("ö", "o\u{e000}a"),
    OwnLetter("ş", "s\u{e000}a"),
    OwnLetter("ü", "u\u{e000}a"),
];
