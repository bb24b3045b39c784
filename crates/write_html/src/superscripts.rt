//! Superscript characters: what they show above the line.
ghost use Rattle.std.specs.Prelude.{◌≡◌, ◌==◌};
ghost use Rattle.std.specs.Map.{lookup};

/// The letters, digits and signs that have a superscript character of their own.
const SUPERSCRIPTS: &[(char, char)] = &[
    ('ª', 'a'),
    ('²', '2'),
    ('³', '3'),
    ('¹', '1'),
    ('º', 'o'),
    ('ʰ', 'h'),
    ('ʱ', 'ɦ'),
    ('ʲ', 'j'),
    ('ʳ', 'r'),
    ('ʴ', 'ɹ'),
    ('ʵ', 'ɻ'),
    ('ʶ', 'ʁ'),
    ('ʷ', 'w'),
    ('ʸ', 'y'),
    ('ˠ', 'ɣ'),
    ('ˡ', 'l'),
    ('ˢ', 's'),
    ('ˣ', 'x'),
    ('ˤ', 'ʕ'),
    ('ᴬ', 'A'),
    ('ᴭ', 'Æ'),
    ('ᴮ', 'B'),
    ('ᴰ', 'D'),
    ('ᴱ', 'E'),
    ('ᴲ', 'Ǝ'),
    ('ᴳ', 'G'),
    ('ᴴ', 'H'),
    ('ᴵ', 'I'),
    ('ᴶ', 'J'),
    ('ᴷ', 'K'),
    ('ᴸ', 'L'),
    ('ᴹ', 'M'),
    ('ᴺ', 'N'),
    ('ᴼ', 'O'),
    ('ᴽ', 'Ȣ'),
    ('ᴾ', 'P'),
    ('ᴿ', 'R'),
    ('ᵀ', 'T'),
    ('ᵁ', 'U'),
    ('ᵂ', 'W'),
    ('ᵃ', 'a'),
    ('ᵄ', 'ɐ'),
    ('ᵅ', 'ɑ'),
    ('ᵆ', 'ᴂ'),
    ('ᵇ', 'b'),
    ('ᵈ', 'd'),
    ('ᵉ', 'e'),
    ('ᵊ', 'ə'),
    ('ᵋ', 'ɛ'),
    ('ᵌ', 'ɜ'),
    ('ᵍ', 'g'),
    ('ᵏ', 'k'),
    ('ᵐ', 'm'),
    ('ᵑ', 'ŋ'),
    ('ᵒ', 'o'),
    ('ᵓ', 'ɔ'),
    ('ᵔ', 'ᴖ'),
    ('ᵕ', 'ᴗ'),
    ('ᵖ', 'p'),
    ('ᵗ', 't'),
    ('ᵘ', 'u'),
    ('ᵙ', 'ᴝ'),
    ('ᵚ', 'ɯ'),
    ('ᵛ', 'v'),
    ('ᵜ', 'ᴥ'),
    ('ᵝ', 'β'),
    ('ᵞ', 'γ'),
    ('ᵟ', 'δ'),
    ('ᵠ', 'φ'),
    ('ᵡ', 'χ'),
    ('⁰', '0'),
    ('ⁱ', 'i'),
    ('⁴', '4'),
    ('⁵', '5'),
    ('⁶', '6'),
    ('⁷', '7'),
    ('⁸', '8'),
    ('⁹', '9'),
    ('⁺', '+'),
    ('⁻', '−'),
    ('⁼', '='),
    ('⁽', '('),
    ('⁾', ')'),
    ('ⁿ', 'n'),
];

/// The character that this one shows above the line.
pub(crate) fn base_of(c: char) -> Option<char>
    ensures { result ≡ lookup (λ superscript. superscript == c) SUPERSCRIPTS.now }
{
    if c < 'ª' {
        return None;
    }
    base_in(SUPERSCRIPTS, c)
}

fn base_in(superscripts: &[(char, char)], c: char) -> Option<char>
    ensures { result ≡ lookup (λ superscript. superscript == c) superscripts.now }
{
    for (superscript, base) in superscripts {
        if *superscript == c {
            return Some(*base);
        }
    }
    None
}
