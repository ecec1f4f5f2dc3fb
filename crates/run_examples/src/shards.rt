//! Shards of bytes, processed separately, as by threads or machines: their results, combined.
ghost use Rattle.std.specs.Prelude.{◌≡◌, ◌+◌, length};
ghost use Rattle.encode_unicode.specs.Pieces.{pieces};
ghost use Rattle.cuts.specs.ForwardRuns.{faulty_item_count};

use cuts::{Form, char_count, fault_count, laws, shard_end};

/// The number of invalid bytes in each of two shards, counted separately. The first ends at this offset or
/// just before it.
pub fn faults_in_shards(bytes: &[u8], at: usize) -> (usize, usize)
    ensures { result.0 + result.1 ≡ faulty_item_count (pieces bytes.now) }
{
    laws::shard_counts_add();
    let end = shard_end(Form::Utf8, bytes, at);
    (fault_count(&bytes[..end]), fault_count(&bytes[end..]))
}

/// The number of pieces in each of two shards.
pub fn pieces_in_shards(bytes: &[u8], at: usize) -> (usize, usize)
    ensures { result.0 + result.1 ≡ length (pieces bytes.now) }
{
    laws::shard_counts_add();
    let end = shard_end(Form::Utf8, bytes, at);
    (char_count(&bytes[..end]), char_count(&bytes[end..]))
}
