// What stands before the items of a file.
ghost use Rattle.std.specs.Prelude.{◌≡◌, ◌+◌, ◌≤◌, ◌<◌, length};
ghost use Rattle.board_bytes.specs.File.{length_told, counts_at, header_of};

use crate::bytes::word;
use grid_track_counts::TrackCounts;
use refusals::Refusal;

#[derive(Clone, Copy)]
pub struct Head {
    pub flow: u8,
    pub columns: TrackCounts,
    pub rows: TrackCounts,
    pub count: u16,
}

#[tactic(auto, unfolding(crate::specs::File::length_told, crate::specs::File::word_at))]
fn length_told(bytes: &[u8]) -> u32
    requires { 4 ≤ length bytes.now }
    ensures { result ≡ length_told bytes.now }
{
    u32::from_be_bytes([bytes[0], bytes[1], bytes[2], bytes[3]])
}

#[tactic(auto, unfolding(crate::specs::File::counts_at))]
fn counts(bytes: &[u8], i: usize) -> TrackCounts
    requires { i + 6 ≤ length bytes.now }
    ensures { result ≡ counts_at bytes.now i }
{
    TrackCounts {
        negative: word(bytes, i),
        explicit: word(bytes, i + 2),
        positive: word(bytes, i + 4),
    }
}

// The head of a file that agrees with itself. The item numbers are not looked at, only how many bytes they take.
#[tactic(auto, unfolding(crate::specs::File::header_of, crate::specs::File::good_file, crate::specs::File::head_of))]
pub fn read_header(bytes: &[u8]) -> Result<Head, Refusal>
    ensures { result ≡ header_of bytes.now }
{
    if bytes.len() < 20 {
        return Err(Refusal::NotAFile);
    }
    let told = length_told(bytes) as usize;
    let count = word(bytes, 18);
    if bytes.len() != 4 + told || told != 16 + 12 * usize::from(count) || bytes[4] != 1 {
        return Err(Refusal::NotAFile);
    }
    Ok(Head {
        flow: bytes[5],
        columns: counts(bytes, 6),
        rows: counts(bytes, 12),
        count,
    })
}
