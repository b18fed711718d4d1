// The placement call.
ghost use Rattle.std.specs.Prelude.{◌≡◌, length};
ghost use Rattle.theory_walk.specs.Request.{outcome, answers_left, rows_left, columns_left};
ghost use Rattle.placing_request.specs.Items.{request_of};
ghost use Rattle.placing_run.specs.Placing.{placing_of};
ghost use Rattle.hoarbale_c.specs.Placing.{to_tracks, of_tracks, of_placing};

use grid_track_counts::TrackCounts;
use placing_run::checked::Placed;
use refusals::Refusal;

#[repr(C)]
#[derive(Clone, Copy, Default)]
pub struct Counts {
    pub negative: u16,
    pub explicit: u16,
    pub positive: u16,
}

#[repr(C)]
#[derive(Clone, Copy)]
pub struct PlaceAnswer {
    pub number: u8,
    pub index: usize,
    pub columns: Counts,
    pub rows: Counts,
}

impl From<Counts> for TrackCounts {
    ghost from_gives = { λ counts tracks. tracks ≡ to_tracks counts };

    fn from(counts: Counts) -> TrackCounts {
        TrackCounts {
            negative: counts.negative,
            explicit: counts.explicit,
            positive: counts.positive,
        }
    }
}

impl From<TrackCounts> for Counts {
    ghost from_gives = { λ tracks counts. counts ≡ of_tracks tracks };

    fn from(counts: TrackCounts) -> Counts {
        Counts {
            negative: counts.negative,
            explicit: counts.explicit,
            positive: counts.positive,
        }
    }
}

impl From<Result<Placed, Refusal>> for PlaceAnswer {
    ghost from_gives = { λ placing answer. answer ≡ of_placing placing };

    fn from(placing: Result<Placed, Refusal>) -> PlaceAnswer {
        match placing {
            Ok(placed) => PlaceAnswer {
                number: 0,
                index: 0,
                columns: placed.columns.into(),
                rows: placed.rows.into(),
            },
            Err(refusal) => PlaceAnswer {
                number: refusal.number(),
                index: refusal.index(),
                columns: Counts::default(),
                rows: Counts::default(),
            },
        }
    }
}

#[unsafe(no_mangle)]
pub extern "C" fn hoarbale_place(
    flow: u8,
    columns: Counts,
    rows: Counts,
    items: &[i16],
    answers: &mut [i16],
    row_list: &mut [i16],
    column_list: &mut [i16],
) -> PlaceAnswer
    ensures value { result ≡ of_placing (placing_of (outcome (request_of flow (to_tracks columns) (to_tracks rows) items.now (length answers.old) (length column_list.old) (length row_list.old)))) }
    ensures answers_after { answers.new ≡ answers_left (request_of flow (to_tracks columns) (to_tracks rows) items.now (length answers.old) (length column_list.old) (length row_list.old)) answers.old (outcome (request_of flow (to_tracks columns) (to_tracks rows) items.now (length answers.old) (length column_list.old) (length row_list.old))) }
    ensures row_list_after { row_list.new ≡ rows_left (request_of flow (to_tracks columns) (to_tracks rows) items.now (length answers.old) (length column_list.old) (length row_list.old)) row_list.old (outcome (request_of flow (to_tracks columns) (to_tracks rows) items.now (length answers.old) (length column_list.old) (length row_list.old))) }
    ensures column_list_after { column_list.new ≡ columns_left (request_of flow (to_tracks columns) (to_tracks rows) items.now (length answers.old) (length column_list.old) (length row_list.old)) column_list.old (outcome (request_of flow (to_tracks columns) (to_tracks rows) items.now (length answers.old) (length column_list.old) (length row_list.old))) }
{
    hoarbale_placing::place(
        flow,
        columns.into(),
        rows.into(),
        items,
        answers,
        row_list,
        column_list,
    )
    .into()
}
