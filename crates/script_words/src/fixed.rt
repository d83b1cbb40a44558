ghost use Rattle.std.specs.Prelude.{◌≡◌};
ghost use Rattle.script_words.specs.Verbs as tables;

/// The words that announce a further word, or stand alone.
#[derive(Clone, Copy)]
pub enum FixedWord {
    Excl,
    Pass,
    Seg,
    Pay,
}

/// The bytes of a fixed word.
pub fn fixed_word(fixed: FixedWord) -> &'static [u8]
    ensures { result.now ≡ tables.fixed_word fixed }
{
    match fixed {
        FixedWord::Excl => b"excl",
        FixedWord::Pass => b"pass",
        FixedWord::Seg => b"seg",
        FixedWord::Pay => b"pay",
    }
}
