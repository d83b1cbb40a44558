ghost use Rattle.page_table.specs.Buffer.{ChunksJoin, ChunksInTurn, ChunkInPlace};

/// The chunks joined are the buffer: the addresses of their bytes are those of the buffer's bytes,
/// in the same order, each once.
#[tactic(auto, using(crate::proofs::Chunks::chunks_join))]
pub fn chunks_join_to_the_buffer()
    ensures { ChunksJoin }
{}

/// Calls of `next_chunk`, each where the chunk before ended, give the chunks of the buffer in their
/// order, and then none.
#[tactic(auto, using(crate::proofs::Chunks::chunks_in_turn))]
pub fn chunks_in_turn()
    ensures { ChunksInTurn }
{}

/// A chunk, wherever it begins, has the addresses of the buffer's bytes from there on.
#[tactic(auto, using(crate::proofs::Places::chunk_in_place))]
pub fn chunk_is_in_place()
    ensures { ChunkInPlace }
{}
