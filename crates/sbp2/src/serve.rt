ghost use Rattle.std.specs.Prelude.{◌≡◌, map, length, IfOk};
ghost use Rattle.std.specs.String.{string_bytes};
ghost use Rattle.sbp_command.specs.Served.{Serves};
ghost use Rattle.rbc_disk.specs.Held.{held};
ghost use Rattle.sbp2.specs.ProgramMedia as spec;
ghost use Rattle.sbp2.specs.ProgramMedia.{two_discs, second_fails, program_media, beside, EndsOver};

use crate::media::{locked, second_fails, two_discs};
use rbc_disk::Medium;
use sbp_base::{NoMemory, Sink, Source};
use sbp_command::{Status, sbp2};
use std::alloc::Global;

/// Does what the words say over a source, a sink and the program's media, of unit 0 first.
pub(crate) fn serve<S: Source, K: Sink>(
    alloc: Global,
    words: &[String],
    source: &mut S,
    sink: &mut K,
) -> Result<Status, NoMemory>
    ensures { IfOk result (λ status. EndsOver (Serves (map string_bytes words.now) status) (beside (S.left source.old) (S.faults source.old) (K.written sink.old) (K.faults sink.old)) (beside (S.left source.new) (S.faults source.new) (K.written sink.new) (K.faults sink.new))) }
{
    let bay: Box<dyn Medium> = Box::new(alloc, two_discs(alloc)?)?;
    let locked: Box<dyn Medium> = Box::new(alloc, locked(alloc)?)?;
    let faulty: Box<dyn Medium> = Box::new(alloc, second_fails(alloc)?)?;
    let mut media = in_order(alloc, bay, locked, faulty)?;
    Ok(sbp2(alloc, words, &mut media, source, sink))
}

/// The program's media by their units.
fn in_order(
    alloc: Global,
    bay: Box<dyn Medium>,
    locked: Box<dyn Medium>,
    faulty: Box<dyn Medium>,
) -> Result<Vec<Box<dyn Medium>>, NoMemory>
    requires bay { disk bay ≡ two_discs }
    requires bay_count { media_faults bay ≡ 0 }
    requires locked { disk locked ≡ spec.locked }
    requires locked_count { media_faults locked ≡ 0 }
    requires faulty { disk faulty ≡ second_fails.held }
    requires faulty_count { media_faults faulty ≡ 0 }
    ensures media { IfOk result (λ media. held (map disk media.items) (map media_faults media.items) ≡ program_media) }
    ensures count { IfOk result (λ media. length media.items ≡ 3) }
{
    let mut media = Vec::new(alloc);
    media.push(bay)?;
    media.push(locked)?;
    media.push(faulty)?;
    Ok(media)
}
