// A request in the data: flow, six counts, how many items, the items, four lines an item, and the six counts afterwards.
ghost use Rattle.std.specs.Prelude.{◌≡◌, ◌+◌, ◌*◌, ◌<◌, ◌≤◌};

use crate::data::number;
use board_bytes::bytes::signed;
use board_text::Output;
use grid_track_counts::TrackCounts;
use hoarbale_placing::place;
use placing_run::checked::Placed;
use std::fmt::Write;

// What the door is lent: places for 2000 items, their lines, and both lists.
#[derive(Drop)]
pub struct Buffers {
    pub items: [i16; 12000],
    pub lines: [i16; 10000],
    pub rows: [i16; 131072],
    pub columns: [i16; 131072],
}

// How many requests were compared and how many of them agree in every number; how many numbers were, and how many of them are alike.
#[derive(Clone, Copy)]
struct Tally {
    requests: u64,
    agree: u64,
    compared: u64,
    alike: u64,
    ghost requests_bound: { requests ≤ 65535 },
    ghost agree_bound: { agree ≤ requests },
    ghost compared_bound: { compared ≤ 8006 * requests },
    ghost alike_bound: { alike ≤ compared },
}

impl Tally {
    fn none() -> Tally
        ensures { result.requests ≡ 0 }
    {
        Tally {
            requests: 0,
            agree: 0,
            compared: 0,
            alike: 0,
        }
    }

    // One request more, of n items.
    fn with(self, n: usize, alike: u64) -> Tally
        requires n_bound { n ≤ 2000 }
        requires alike_bound { alike ≤ 4 * n + 6 }
        requires requests_bound { self.requests < 65535 }
        ensures { result.requests ≤ self.requests + 1 }
    {
        let most = (4 * n + 6) as u64;
        Tally {
            requests: self.requests + 1,
            agree: self.agree + u64::from(alike == most),
            compared: self.compared + most,
            alike: self.alike + alike,
        }
    }
}

fn counts_at(request: &[u8], k: usize) -> TrackCounts
    requires { k < 65536 }
{
    TrackCounts {
        negative: number(request, k),
        explicit: number(request, k + 1),
        positive: number(request, k + 2),
    }
}

fn read_items(request: &[u8], m: usize, items: &mut [i16]) {
    for (k, item) in items.iter_mut().take(m).enumerate() {
        *item = signed(number(request, 8 + k));
    }
}

fn alike_counts(counts: TrackCounts, given: TrackCounts) -> u64
    ensures { result ≤ 3 }
{
    let negative = u64::from(counts.negative == given.negative);
    let explicit = u64::from(counts.explicit == given.explicit);
    let positive = u64::from(counts.positive == given.positive);
    negative + explicit + positive
}

fn alike_lines(request: &[u8], n: usize, lines: &[i16; 10000]) -> u64
    requires { n ≤ 2000 }
    ensures { result ≤ 4 * n }
{
    let given = 8 + 6 * n;
    let mut alike = 0;
    for i in 0..n {
        for j in 0..4 {
            alike += u64::from(signed(number(request, given + 4 * i + j)) == lines[5 * i + j]);
        }
    }
    alike
}

// How many of the four lines an item and of the six counts are alike; a refusal has none.
fn compare(request: &[u8], n: usize, buffers: &mut Buffers) -> u64
    requires { n ≤ 2000 }
    ensures { result ≤ 4 * n + 6 }
{
    let Ok(flow) = u8::try_from(number(request, 0)) else {
        return 0;
    };
    let Buffers {
        items,
        lines,
        rows,
        columns,
    } = buffers;
    read_items(request, 6 * n, items);
    let column_counts = counts_at(request, 1);
    let row_counts = counts_at(request, 4);
    match place(
        flow,
        column_counts,
        row_counts,
        &items[..6 * n],
        lines,
        rows,
        columns,
    ) {
        Err(_) => 0,
        Ok(Placed { columns, rows }) => {
            let lines = alike_lines(request, n, lines);
            let columns = alike_counts(columns, counts_at(request, 8 + 10 * n));
            let rows = alike_counts(rows, counts_at(request, 11 + 10 * n));
            lines + columns + rows
        }
    }
}

// A request that the data break off before, or that has too many items, agrees in nothing, and what is behind it isn't found.
fn compare_all(data: &[u8], requests: u16, buffers: &mut Buffers) -> Tally {
    let mut tally = Tally::none();
    let mut rest = data;
    for _ in 0..requests {
        let n = number(rest, 7) as usize;
        if rest.len() < 16 || n > 2000 {
            break;
        }
        tally = tally.with(n, compare(rest, n, buffers));
        rest = &rest[rest.len().min(28 + 20 * n)..];
    }
    tally
}

pub fn replay(data: &mut [u8; 65536], buffers: &mut Buffers) {
    let got = io::read_full(0, data);
    let data = &data[..got];
    let requests = number(data, 0);
    let tally = compare_all(&data[got.min(2)..], requests, buffers);
    let _ = writeln!(
        Output,
        "requests {requests}, agree {}\nnumbers {}, agree {}",
        tally.agree, tally.compared, tally.alike
    );
}
