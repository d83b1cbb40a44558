ghost use Rattle.std.specs.Prelude.{◌≡◌, ◌∷◌, [], drop, map, codes, IfOk};
ghost use Rattle.std.specs.String.{string_bytes};

use sbp_base::NoMemory;
use std::alloc::Global;
use std::rt::Env;
use std::{env, io};

/// The words of the command line without the program's name. One that is not UTF-8 leaves a word
/// that is in no row of the table.
pub(crate) fn words_of<R: Env + AllocGlobal>(rt: &R) -> Result<Vec<String>, NoMemory> {
    match env::args(rt) {
        Ok(all) => Ok(without_name(all.collect(rt.alloc())?)),
        Err(error) if error.kind() == io::ErrorKind::InvalidData => word_in_no_row(rt.alloc()),
        Err(_) => Err(NoMemory),
    }
}

/// All words but the first, the program's name.
fn without_name(mut words: Vec<String>) -> Vec<String>
    ensures { result.items ≡ drop 1 words.items }
{
    if !words.is_empty() {
        let _name = words.remove(0);
    }
    words
}

/// A word that is in no row of the table, alone.
fn word_in_no_row(alloc: Global) -> Result<Vec<String>, NoMemory>
    ensures { IfOk result (λ words. map string_bytes words.items ≡ codes "?" ∷ []) }
{
    let mut words = Vec::new(alloc);
    words.push(String::from_str(alloc, "?")?)?;
    Ok(words)
}
